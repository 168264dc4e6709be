//! Pairs that are written one after another.

ghost use Rattle.std.specs.Prelude.{◌≡◌, ◌+◌, ◌∷◌, [], List, ◌<◌, length, IfOk, IfErr};
ghost use Rattle.store_model.specs.Parameters.{Parameters, image_len};
ghost use Rattle.store_model.specs.Draws.{draw_of};
ghost use Rattle.store_model.specs.Pairs as model;
ghost use Rattle.store_model.specs.Pairs.{Pair};
ghost use Rattle.store_model.specs.Pages.{pages_of_pairs};
ghost use Rattle.gate_journal.specs.Places.{AreCalls};
ghost use Rattle.dump_streams.specs.Listed.{blocks_from};
ghost use Rattle.rising_pages.specs.Kept.{FitSlots};
ghost use Rattle.image_writer.specs.Sealing.{image_of_pairs, Becomes};
ghost use Rattle.image_writer.specs.Writing.{CountsPairs};
ghost use Rattle.tree_writer.specs.declared.fault.TreeFault.TheVariants as faults;
ghost use Rattle.tree_writer.specs.Faults.{WasNone, tree_answer};
ghost use Rattle.tree_writer.specs.Pairs.{HasPairs, MayCome, WritesPairs, begun_pairs};

use crate::fault::TreeFault;
use disk_model::Disk;
use drawn_levels::KnownLevels;
use image_writer::ImageWriter;
use path_keys::Path;
use std::alloc::Global;
use store_base::{Bytes, Key, NoMemory, Params, Value};
use store_model::Version;
use tree_pairs::{FILE_BLOCK, file_value, inline_value, is_inline};

/// So many pairs are counted: the limit of what an image's writer takes.
const MAX_PAIRS: u32 = 268_435_456;

/// Writes pairs that come in the order of their keys, counts them, and draws the levels of their keys.
#[derive(Drop)]
pub struct PairWriter {
    params: Params,
    levels: KnownLevels,
    image: ImageWriter,
    /// How many pairs came.
    count: u32,
}

impl PairWriter {
    /// Begins with no pair. The disk has the length of an image of these parameters, and the levels are those of its
    /// draw; nothing is written yet. `NoMemory`: memory ran out.
    pub fn begin<D: Disk>(
        alloc: Global,
        disk: &D,
        params: &Params,
        levels: KnownLevels,
    ) -> Result<Self, NoMemory>
        requires size { (D.state disk.now).size ≡ image_len params.now.slots }
        requires levels { levels ≡ params.now }
        ensures { IfOk result (HasPairs params.now [] (D.state disk.now) (D.state disk.now)) }
    {
        let image = ImageWriter::begin(alloc, disk, params)?;
        Ok(PairWriter {
            params: *params,
            levels,
            image,
            count: 0,
        })
    }

    /// The version of the image.
    pub fn version(&self) -> Version
        ensures { result ≡ self.now.params.version }
    {
        self.params.version()
    }

    /// Writes a pair behind the others, which has to be the next one in the order of keys.
    ///
    /// `TooMany`: 268,435,456 pairs came already. `Disk`: the disk failed. `NoMemory`: memory ran out. After each of
    /// them the disk is no image, and nothing is known of the writer. No other fault comes.
    pub fn push<D: Disk>(&mut self, disk: &mut D, key: Key, value: Value) -> Result<(), TreeFault>
        requires { (p : Parameters) × (start : D) × (s : List Pair)
            × MayCome p s ((key, value) ∷ []) (D.state start) (D.state disk.old) self.old }
        ensures { WritesPairs D.state ((key, value) ∷ []) disk.old disk.new self.old self.new result }
    {
        if self.count >= MAX_PAIRS {
            return Err(TreeFault::TooMany);
        }
        let level = self.levels.level(&key);
        self.image.push(disk, level, (key, value))?;
        self.count += 1;
        Ok(())
    }

    /// Writes the blocks of bytes of a file, the first of them under this number. Faults as of `push`.
    pub fn push_blocks<D: Disk>(
        &mut self,
        disk: &mut D,
        path: &Path,
        first: u32,
        bytes: &[u8],
    ) -> Result<(), TreeFault>
        requires few { first + length bytes.now < 4294967296 }
        requires come { (p : Parameters) × (start : D) × (s : List Pair)
            × MayCome p s (blocks_from path.now first bytes.now) (D.state start) (D.state disk.old) self.old }
        ensures { WritesPairs D.state (blocks_from path.now first bytes.now) disk.old disk.new self.old self.new
            result }
    {
        let mut number = first;
        let mut rest = bytes;
        while !rest.is_empty() {
            let (block, behind) = rest.split_at((FILE_BLOCK as usize).min(rest.len()));
            self.push(disk, path.key(number), Value::new(block))?;
            number += 1;
            rest = behind;
        }
        Ok(())
    }

    /// Writes the pairs with which a file begins that is told to have so many bytes: its first pair, and the blocks of
    /// these bytes where they don't stand in that. Faults as of `push`.
    pub fn push_file<D: Disk>(
        &mut self,
        disk: &mut D,
        path: &Path,
        told: u32,
        bytes: &Bytes,
    ) -> Result<(), TreeFault>
        requires { (p : Parameters) × (start : D) × (s : List Pair)
            × MayCome p s
            (begun_pairs (model.is_inline self.old.params.version (length bytes.now)) path.now told bytes.now)
            (D.state start) (D.state disk.old) self.old }
        ensures { WritesPairs D.state
            (begun_pairs (model.is_inline self.old.params.version (length bytes.now)) path.now told bytes.now)
            disk.old disk.new self.old self.new result }
    {
        let bytes = bytes.as_slice();
        if is_inline(self.params.version(), bytes.len() as u32) {
            return self.push(disk, path.key(0), inline_value(bytes));
        }
        self.push(disk, path.key(0), file_value(told))?;
        self.push_blocks(disk, path, 1, bytes)
    }

    /// How many pages the pairs have that came.
    pub fn pages(&self) -> u32
        ensures { (p : Parameters) (s : List Pair) → CountsPairs p s self.now.image
            → result ≡ length (pages_of_pairs (draw_of p) s) }
    {
        self.image.pages()
    }

    /// How many slots the image has.
    pub fn slots(&self) -> u32
        ensures { result ≡ self.now.params.slots }
    {
        self.params.slots()
    }

    /// Makes the disk the image of the pairs that came, which have no more pages than there are slots.
    /// `Disk`: the disk failed; it reads no image then, or the whole one where all but the last sync was done. No other
    /// fault comes.
    pub fn finish<D: Disk>(self, disk: &mut D) -> Result<(), TreeFault>
        requires { (p : Parameters) × (start : D) × (s : List Pair)
            × HasPairs p s (D.state start) (D.state disk.old) self × FitSlots (draw_of p) s }
        ensures calls { AreCalls (D.state disk.old) (D.state disk.new) (tree_answer result) }
        ensures becomes { (p : Parameters) (start : D) (s : List Pair)
            → HasPairs p s (D.state start) (D.state disk.old) self → WasNone (D.state start)
            → Becomes p (image_of_pairs p s) (D.state start) (D.state disk.new) result }
        ensures faults { IfErr result (λ fault. fault ≡ faults.Disk) }
    {
        Ok(self.image.finish(disk)?)
    }
}
