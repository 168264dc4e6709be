//! The image of a list of pairs.

ghost use Rattle.std.specs.Prelude.{◌≡◌, ◌≢◌, ◌⊎◌, ◌<◌, ◌≤◌, length, slice_index, IsErrAnd, IfErr};
ghost use Rattle.store_model.specs.Parameters.{image_len};
ghost use Rattle.store_model.specs.Draws.{draw_of};
ghost use Rattle.store_model.specs.Pairs.{IsPairs};
ghost use Rattle.store_model.specs.Pages.{pages_of_pairs};
ghost use Rattle.store_model.specs.Images.{first_byte};
ghost use Rattle.disk_model.specs.DiskState.{DiskState, IsObservable};
ghost use Rattle.gate_journal.specs.Places.{AreCalls};
ghost use Rattle.layout_scratch.specs.Sorting.{sorted_limit};
ghost use Rattle.rising_pages.specs.Kept.{FitSlots};
ghost use Rattle.image_writer.specs.declared.fault.WriteFault.TheVariants as faults;
ghost use Rattle.image_writer.specs.Sealing.{image_of_pairs, Becomes};
ghost use Rattle.image_writer.specs.Writing.{IsNotFull, disk_answer};

use crate::fault::WriteFault;
use crate::writer::ImageWriter;
use disk_model::Disk;
use node_pages::PairList;
use seeded_draw::{AnyDraw, Draw, Front};
use std::alloc::Global;
use store_base::{Params, Value};

/// Makes a disk the image of a list of pairs whose keys rise, at most 268,435,456 of them, as `ImageWriter` does.
///
/// The disk has the length of the image, is no image, and nothing is pending. `Full` comes only where the pages are
/// more than the slots, and says how many there are of both. Whatever fails, the disk reads no image, or the whole one
/// where all but the last sync was done.
pub fn write_pairs<D: Disk>(
    alloc: Global,
    disk: &mut D,
    params: &Params,
    pairs: &PairList,
) -> Result<(), WriteFault>
    requires size { (D.state disk.old).size ≡ image_len params.now.slots }
    requires rising { IsPairs pairs.now }
    requires few { length pairs.now ≤ sorted_limit }
    ensures calls { AreCalls (D.state disk.old) (D.state disk.new) (disk_answer result) }
    ensures becomes { IsObservable (D.state disk.old)
        → slice_index (D.state disk.old).bytes 0 ≢ first_byte
        → Becomes params.now (image_of_pairs params.now pairs.now)
        (D.state disk.old) (D.state disk.new) result }
    ensures full { params.now.slots < length (pages_of_pairs (draw_of params.now) pairs.now)
        → IsErrAnd result (λ fault. IsNotFull fault
        ⊎ (fault ≡ faults.Full (length (pages_of_pairs (draw_of params.now) pairs.now))
        params.now.slots)) }
    ensures fits { FitSlots (draw_of params.now) pairs.now → IfErr result IsNotFull }
{
    let draw = AnyDraw::new(params);
    let mut front = Front::new();
    let mut writer = ImageWriter::begin(alloc, disk, params)?;
    for pair in pairs.as_slice() {
        let level = draw.level_from(&mut front, &pair.0);
        let bytes = pair.1.as_slice();
        let value = Value::new(bytes);
        writer.push(disk, level, (pair.0, value))?;
    }
    writer.finish(disk)
}
