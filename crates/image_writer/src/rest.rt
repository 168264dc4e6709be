//! The rest of an image behind its pages, and its first byte.

ghost use Rattle.std.specs.Prelude.{◌≡◌, ◌≢◌, ℕ, ◌+◌, ◌/◌, ◌<◌, ◌≤◌, List, length, slice_index, OnOk};
ghost use Rattle.store_model.specs.Parameters.{IsParameters, image_len, block_len, table_at};
ghost use Rattle.store_model.specs.Draws.{draw_of};
ghost use Rattle.store_model.specs.Pages as model;
ghost use Rattle.store_model.specs.Images.{first_byte};
ghost use Rattle.disk_model.specs.DiskState.{DiskState, IsObservable, IsDurable};
ghost use Rattle.disk_model.specs.DiskCalls.{IsCall};
ghost use Rattle.gate_journal.specs.Places.{AreCalls, Made, Reaches};
ghost use Rattle.rising_pages.specs.FreePlaces.{AreFree};
ghost use Rattle.image_writer.specs.Filling.{free_count};
ghost use Rattle.image_writer.specs.Placing.{placed, ArePlaced};
ghost use Rattle.image_writer.specs.Sealing.{OutsideRest, HasRest, image_of, Becomes};

use crate::fill::{fill_free, write_header_rest, zero_journal};
use disk_model::{Disk, write_durably};
use rising_pages::FreeSlots;
use store_base::{DiskFault, FIRST_BYTE, Params};

/// Writes all but the pages and the first byte, and makes all that was written durable.
fn write_rest<D: Disk>(disk: &mut D, params: &Params, free: &FreeSlots) -> Result<(), DiskFault>
    requires valid { IsParameters params.now }
    requires slots { length free.now ≡ params.now.slots }
    requires size { (D.state disk.old).size ≡ image_len params.now.slots }
    ensures calls { AreCalls (D.state disk.old) (D.state disk.new) result }
    ensures reaches { IsObservable (D.state disk.old)
        → Reaches (OutsideRest params.now.slots free.now) (HasRest params.now free.now)
        (D.state disk.old) (D.state disk.new) result }
    ensures durable { IsObservable (D.state disk.old) → OnOk result (IsDurable (D.state disk.new)) }
    ensures made { IsObservable (D.state disk.old)
        → OnOk result (Made (free_count free.now + table_at params.now.slots 0 / block_len) 1
        (D.state disk.old) (D.state disk.new)) }
{
    let slots = params.slots();
    fill_free(disk, slots, free)?;
    zero_journal(disk, slots)?;
    write_header_rest(disk, params)?;
    disk.sync()
}

/// Makes placed pages the image of their table: writes all but them and the first byte; sync; the first byte; sync.
///
/// The disk has to have been no image when the pages came. It is none before the last write.
pub fn seal<D: Disk>(disk: &mut D, params: &Params, free: &FreeSlots) -> Result<(), DiskFault>
    requires valid { IsParameters params.now }
    requires slots { length free.now ≡ params.now.slots }
    requires size { (D.state disk.old).size ≡ image_len params.now.slots }
    ensures calls { AreCalls (D.state disk.old) (D.state disk.new) result }
    ensures becomes { (start : D) (pages : List model.Page) → IsObservable (D.state start)
        → slice_index (D.state start).bytes 0 ≢ first_byte
        → length pages ≤ params.now.slots
        → AreFree (placed (draw_of params.now) pages) free.now
        → ArePlaced (draw_of params.now) pages (D.state start) (D.state disk.old)
        → Becomes params.now (image_of params.now (placed (draw_of params.now) pages))
        (D.state start) (D.state disk.new) result }
{
    // Durable before the first byte is written: from then on the disk is an image.
    write_rest(disk, params, free)?;
    write_durably(disk, 0, &[FIRST_BYTE])
}
