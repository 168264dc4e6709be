//! An image, written while its pairs come.

ghost use Rattle.std.specs.Prelude.{◌≡◌, ◌≢◌, ℕ, ◌<◌, ◌++◌, ◌∷◌, [], List, length, slice_index, Err};
ghost use Rattle.std.specs.Prelude.{IfOk, IfErr, OnOk};
ghost use Rattle.store_model.specs.Parameters.{Parameters, image_len};
ghost use Rattle.store_model.specs.Draws.{draw_of};
ghost use Rattle.store_model.specs.Pairs.{Pair};
ghost use Rattle.store_model.specs.Pages.{pages_of_pairs};
ghost use Rattle.store_model.specs.Images.{first_byte};
ghost use Rattle.disk_model.specs.DiskState.{DiskState, IsObservable};
ghost use Rattle.gate_journal.specs.Places.{AreCalls};
ghost use Rattle.rising_pages.specs.Kept.{FitSlots};
ghost use Rattle.image_writer.specs.declared.fault.WriteFault.TheVariants as faults;
ghost use Rattle.image_writer.specs.Sealing.{image_of_pairs, Becomes};
ghost use Rattle.image_writer.specs.Writing.{CountsPairs, IsWriting, IsNext, IsNotFull, StaysNone, disk_answer};

use crate::fault::WriteFault;
use crate::place::place_page;
use crate::rest::seal;
use crate::upper::place_left;
use disk_model::Disk;
use rising_pages::{FreeSlots, KeptPairs};
use seeded_draw::AnyDraw;
use std::alloc::Global;
use store_base::{DiskFault, Key, NoMemory, Params, Value};

/// Writes the image of pairs that come in the order of their keys, each byte of it once, and keeps little: which slots
/// are free, the last page of level 0, and the keys above that level.
///
/// The disk has to be no image, with nothing pending, and is none before the last write.
#[derive(Drop)]
pub struct ImageWriter {
    params: Params,
    kept: KeptPairs,
    free: FreeSlots,
}

impl ImageWriter {
    /// Begins the image of no pair. The disk has the length of an image of these parameters; nothing is written yet.
    pub fn begin<D: Disk>(alloc: Global, disk: &D, params: &Params) -> Result<Self, NoMemory>
        requires { (D.state disk.now).size ≡ image_len params.now.slots }
        ensures { IfOk result (IsWriting params.now [] (D.state disk.now) (D.state disk.now)) }
    {
        let slots = params.slots();
        let kept = KeptPairs::new(alloc, slots);
        let free = FreeSlots::new(alloc, slots)?;
        Ok(ImageWriter {
            params: *params,
            kept,
            free,
        })
    }

    /// Takes the next pair as `push` does, whether or not it closes a page.
    // Apart from `push`, which would pay for the room of a page with each pair.
    fn push_onto<D: Disk>(
        &mut self,
        disk: &mut D,
        level: u8,
        pair: (Key, Value),
    ) -> Result<(), WriteFault>
        requires { (p : Parameters) × (start : D) × (s : List Pair)
            × IsNext p s level pair (D.state start) (D.state disk.old) self.old }
        ensures calls { AreCalls (D.state disk.old) (D.state disk.new) (disk_answer result) }
        ensures writes { (p : Parameters) (start : D) (s : List Pair)
            → IsNext p s level pair (D.state start) (D.state disk.old) self.old
            → OnOk result (IsWriting p (s ++ pair ∷ []) (D.state start) (D.state disk.new) self.new) }
        ensures none { (p : Parameters) (start : D) (s : List Pair)
            → IsNext p s level pair (D.state start) (D.state disk.old) self.old
            → IsObservable (D.state start) → slice_index (D.state start).bytes 0 ≢ first_byte
            → StaysNone (D.state start) (D.state disk.new) }
        ensures faults { IfErr result IsNotFull }
    {
        match self.kept.push(level, pair)? {
            Some(closed) => {
                let draw = AnyDraw::new(&self.params);
                place_page(disk, &draw, &mut self.free, &closed)?;
                Ok(())
            }
            None => Ok(()),
        }
    }

    /// Takes the next pair, whose key is drawn this level. Writes the page of level 0 that it closes, as long as the
    /// pages of all levels are no more than the slots; from then on the pages are only counted.
    ///
    /// `Disk` comes only where the disk failed, and `NoMemory` where memory ran out; the disk is no image then, and
    /// nothing is known of the writer.
    pub fn push<D: Disk>(
        &mut self,
        disk: &mut D,
        level: u8,
        pair: (Key, Value),
    ) -> Result<(), WriteFault>
        requires { (p : Parameters) × (start : D) × (s : List Pair)
            × IsNext p s level pair (D.state start) (D.state disk.old) self.old }
        ensures calls { AreCalls (D.state disk.old) (D.state disk.new) (disk_answer result) }
        ensures writes { (p : Parameters) (start : D) (s : List Pair)
            → IsNext p s level pair (D.state start) (D.state disk.old) self.old
            → OnOk result (IsWriting p (s ++ pair ∷ []) (D.state start) (D.state disk.new) self.new) }
        ensures none { (p : Parameters) (start : D) (s : List Pair)
            → IsNext p s level pair (D.state start) (D.state disk.old) self.old
            → IsObservable (D.state start) → slice_index (D.state start).bytes 0 ≢ first_byte
            → StaysNone (D.state start) (D.state disk.new) }
        ensures faults { IfErr result IsNotFull }
    {
        if self.kept.is_joined(level) {
            self.kept.join(level, pair);
            return Ok(());
        }
        self.push_onto(disk, level, pair)
    }

    /// How many pages the pairs have that came, on all levels.
    pub fn pages(&self) -> u32
        ensures { (p : Parameters) (s : List Pair) → CountsPairs p s self.now
            → result ≡ length (pages_of_pairs (draw_of p) s) }
    {
        self.kept.pages()
    }

    /// Writes what is left of an image whose pages fit.
    fn write_left<D: Disk>(&mut self, disk: &mut D) -> Result<(), DiskFault>
        requires { (p : Parameters) × (start : D) × (s : List Pair)
            × IsWriting p s (D.state start) (D.state disk.old) self.old × FitSlots (draw_of p) s }
        ensures calls { AreCalls (D.state disk.old) (D.state disk.new) result }
        ensures becomes { (p : Parameters) (start : D) (s : List Pair)
            → IsWriting p s (D.state start) (D.state disk.old) self.old → FitSlots (draw_of p) s
            → IsObservable (D.state start) → slice_index (D.state start).bytes 0 ≢ first_byte
            → Becomes p (image_of_pairs p s) (D.state start) (D.state disk.new) result }
    {
        let draw = AnyDraw::new(&self.params);
        place_left(disk, &draw, &mut self.free, &self.kept)?;
        seal(disk, &self.params, &self.free)
    }

    /// Makes the disk the image of the pairs that came: writes what is left but for the first byte; sync; the first
    /// byte; sync.
    ///
    /// `Full` comes exactly where the pages are more than the slots, and says how many there are of both; nothing is
    /// written then. `Disk` comes only where the disk failed; it reads no image then, or the whole one where all
    /// but the last sync was done. `NoMemory` never comes.
    pub fn finish<D: Disk>(mut self, disk: &mut D) -> Result<(), WriteFault>
        requires { (p : Parameters) × (start : D) × (s : List Pair)
            × IsWriting p s (D.state start) (D.state disk.old) self }
        ensures calls { AreCalls (D.state disk.old) (D.state disk.new) (disk_answer result) }
        ensures becomes { (p : Parameters) (start : D) (s : List Pair)
            → IsWriting p s (D.state start) (D.state disk.old) self
            → IsObservable (D.state start) → slice_index (D.state start).bytes 0 ≢ first_byte
            → Becomes p (image_of_pairs p s) (D.state start) (D.state disk.new) result }
        ensures full { (p : Parameters) (start : D) (s : List Pair)
            → IsWriting p s (D.state start) (D.state disk.old) self
            → p.slots < length (pages_of_pairs (draw_of p) s)
            → result ≡ Err (faults.Full (length (pages_of_pairs (draw_of p) s)) p.slots) }
        ensures fits { (p : Parameters) (start : D) (s : List Pair)
            → IsWriting p s (D.state start) (D.state disk.old) self
            → FitSlots (draw_of p) s → IfErr result (λ fault. fault ≡ faults.Disk) }
    {
        let need = self.kept.pages();
        let slots = self.params.slots();
        if need > slots {
            return Err(WriteFault::Full { need, slots });
        }
        self.write_left(disk)?;
        Ok(())
    }
}
