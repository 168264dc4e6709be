//! How an image is recovered and scrubbed.

ghost use Rattle.std.specs.Prelude.{◌≡◌, ◌≤◌};
ghost use Rattle.store_model.specs.Parameters.{image_len};
ghost use Rattle.store_model.specs.Images.{recovered_slot};
ghost use Rattle.disk_model.specs.DiskState.{DiskState, IsObservable};
ghost use Rattle.gate_journal.specs.Places.{AreCalls};
ghost use Rattle.scrub_free.specs.FreeSlots.{StandClean};
ghost use Rattle.scrub_free.specs.Scrubbing.{ScrubsImage, CountsScrub};

use crate::slots::scrub_slots;
use disk_model::Disk;
use gate_journal::Journal;
use store_base::{DiskFault, Params};

/// Recovers an image, and makes each free slot of its table zero. Of the slots that recovery leaves so many from the
/// first on are known to be clean.
pub fn scrub_image<D: Disk>(disk: &mut D, params: &Params, clean: u32) -> Result<(), DiskFault>
    requires size { (D.state disk.old).size ≡ image_len params.now.slots }
    requires within { clean ≤ params.now.slots }
    requires clean { IsObservable (D.state disk.old)
        → StandClean (recovered_slot params.now.slots (D.state disk.old).bytes) clean }
    ensures calls { AreCalls (D.state disk.old) (D.state disk.new) result }
    ensures scrubs { IsObservable (D.state disk.old)
        → ScrubsImage params.now.slots (D.state disk.old) (D.state disk.new) result }
    ensures counts { IsObservable (D.state disk.old)
        → CountsScrub params.now.slots (D.state disk.old) (D.state disk.new) result }
{
    // Recovered and durable before a slot is made zero: the journal could still put back what stood there.
    Journal::recover(disk, params)?;
    scrub_slots(disk, params.slots(), clean)
}
