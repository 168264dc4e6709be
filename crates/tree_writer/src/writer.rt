//! The image of a tree, written while the steps of its dump come.

ghost use Rattle.std.specs.Prelude.{◌≡◌, ◌<◌, ◌≤◌, [], IfOk, IfErr, Err};
ghost use Rattle.store_model.specs.Parameters.{Parameters, image_len};
ghost use Rattle.store_model.specs.Trees.{Tree};
ghost use Rattle.store_model.specs.Pages.{page_count};
ghost use Rattle.store_model.specs.Images.{layout};
ghost use Rattle.gate_journal.specs.Places.{AreCalls};
ghost use Rattle.dump_streams.specs.Reading.{GoesOn};
ghost use Rattle.image_writer.specs.Sealing.{Becomes};
ghost use Rattle.image_writer.specs.Writing.{StaysNone};
ghost use Rattle.tree_writer.specs.declared.fault.TreeFault.TheVariants as faults;
ghost use Rattle.tree_writer.specs.Faults.{WasNone, tree_answer};
ghost use Rattle.tree_writer.specs.Told.{LastDiffers};
ghost use Rattle.tree_writer.specs.Writing.{HoldsTree, WritesTree, TakesStep, FailsLast, told_of};

use crate::fault::TreeFault;
use crate::pairs::PairWriter;
use disk_model::Disk;
use drawn_levels::KnownLevels;
use dump_streams::{DumpStep, Step};
use std::alloc::Global;
use store_base::{NoMemory, Params};

/// Writes the image of a tree while the steps of its dump come, one after another, and keeps no pair.
///
/// The first pair of a file has the file's length, so that is told when the file begins. Where the bytes end that come
/// of it, they have to be so many. The disk has to be no image, with nothing pending, and is none before the last
/// write.
#[derive(Drop)]
pub struct TreeWriter {
    pub(crate) pairs: PairWriter,
    /// How many bytes came of the last file.
    pub(crate) got: u32,
    /// How many it was told to have.
    pub(crate) told: u32,
}

impl TreeWriter {
    /// Begins the image of the empty tree. The disk has the length of an image of these parameters, and the levels are
    /// those of its draw; nothing is written yet.
    /// `NoMemory`: memory ran out.
    pub fn begin<D: Disk>(
        alloc: Global,
        disk: &D,
        params: &Params,
        levels: KnownLevels,
    ) -> Result<Self, NoMemory>
        requires size { (D.state disk.now).size ≡ image_len params.now.slots }
        requires levels { levels ≡ params.now }
        ensures { IfOk result (WritesTree params.now [] (D.state disk.now) (D.state disk.now)) }
    {
        Ok(TreeWriter {
            pairs: PairWriter::begin(alloc, disk, params, levels)?,
            got: 0,
            told: 0,
        })
    }

    /// Takes the next step of the tree's dump. Where it begins a file, at offset 0, `told` is how many bytes that file
    /// has; else it is not looked at. As long as the pages are no more than the slots, the pages are written that no
    /// later step changes; from then on they are only counted.
    ///
    /// `Changed`: the file that ends with this step, or the one that begins with it, has other than the bytes that were
    /// told. `TooMany`: the tree would have more than 268,435,456 pairs. `Disk` comes only where the disk failed, and
    /// `NoMemory` where memory ran out; `Full` never comes. After each of them the disk is no image, and nothing is
    /// known of the writer.
    pub fn take<D: Disk>(
        &mut self,
        disk: &mut D,
        step: &DumpStep,
        told: u32,
    ) -> Result<(), TreeFault>
        requires { (p : Parameters) × (start : D) × (t : Tree)
            × WritesTree p t (D.state start) (D.state disk.old) self.old × GoesOn t step.now p }
        ensures { TakesStep D.state step.now told disk.old disk.new self.old self.new result }
    {
        match step.parts() {
            Step::Make(path) => self.make(disk, path),
            Step::Write(path, at, bytes) => self.write(disk, path, at, bytes, told),
            Step::Set(path, name, bytes) => self.set(disk, path, name, bytes),
        }
    }

    /// How many pages the tree has whose steps came.
    pub fn pages(&self) -> u32
        ensures { (p : Parameters) (t : Tree) → HoldsTree p t self.now → result ≡ page_count t p }
    {
        self.pairs.pages()
    }

    /// Makes the disk the image of the tree whose steps came: writes what is left but for the first byte; sync; the
    /// first byte; sync.
    ///
    /// `Full` comes exactly where the pages are more than the slots, and says how many there are of both. Else
    /// `Changed` comes exactly where the last path is a file of other than the bytes that were told. The disk is no
    /// image then, nor does a crash leave one. `Disk` comes only where the disk failed; it reads no image then, or the
    /// whole one where all but the last sync was done. No other fault comes.
    pub fn finish<D: Disk>(self, disk: &mut D) -> Result<(), TreeFault>
        requires { (p : Parameters) × (start : D) × (t : Tree)
            × WritesTree p t (D.state start) (D.state disk.old) self }
        ensures calls { AreCalls (D.state disk.old) (D.state disk.new) (tree_answer result) }
        ensures becomes { (p : Parameters) (start : D) (t : Tree)
            → WritesTree p t (D.state start) (D.state disk.old) self → WasNone (D.state start)
            → Becomes p (layout t p) (D.state start) (D.state disk.new) result }
        ensures full { (p : Parameters) (start : D) (t : Tree)
            → WritesTree p t (D.state start) (D.state disk.old) self → p.slots < page_count t p
            → result ≡ Err (faults.Full (page_count t p) p.slots) }
        ensures changed { (p : Parameters) (start : D) (t : Tree)
            → WritesTree p t (D.state start) (D.state disk.old) self → page_count t p ≤ p.slots
            → LastDiffers t (told_of self) → result ≡ Err faults.Changed }
        ensures none { (p : Parameters) (start : D) (t : Tree)
            → WritesTree p t (D.state start) (D.state disk.old) self → WasNone (D.state start)
            → IfErr result (λ fault. (fault ≡ faults.Disk → ⊥) → StaysNone (D.state start) (D.state disk.new)) }
        ensures fits { (p : Parameters) (start : D) (t : Tree)
            → WritesTree p t (D.state start) (D.state disk.old) self → page_count t p ≤ p.slots
            → IfErr result (FailsLast t (told_of self)) }
    {
        let need = self.pairs.pages();
        let slots = self.pairs.slots();
        if need > slots {
            return Err(TreeFault::Full { need, slots });
        }
        self.end_file()?;
        self.pairs.finish(disk)
    }
}
