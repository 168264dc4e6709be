//! How slots of an image are rewritten after its recovery.

ghost use Rattle.std.specs.Prelude.{◌≡◌};
ghost use Rattle.store_model.specs.Parameters.{image_len};
ghost use Rattle.store_model.specs.Images.{recovered};
ghost use Rattle.disk_model.specs.DiskState.{IsObservable};
ghost use Rattle.gate_journal.specs.Changes.{AreChanges, with_slots};
ghost use Rattle.gate_journal.specs.Places.{AreCalls};
ghost use Rattle.mirror_copy.specs.MirrorCalls.{RewritesImage};

use disk_model::Disk;
use gate_journal::{Journal, SlotChanges};
use store_base::{DiskFault, Params};

/// Recovers an image, and then changes these slots of its table together. It takes no memory.
pub fn rewrite<D: Disk, S: SlotChanges>(
    disk: &mut D,
    params: &Params,
    changes: &S,
) -> Result<(), DiskFault>
    requires size { (D.state disk.old).size ≡ image_len params.now.slots }
    requires changes { AreChanges params.now.slots (S.changes changes.now) }
    ensures calls { AreCalls (D.state disk.old) (D.state disk.new) result }
    ensures rewrites { IsObservable (D.state disk.old) →
        RewritesImage params.now.slots (with_slots params.now.slots (S.changes changes.now)
        (recovered params.now.slots (D.state disk.old).bytes))
        (S.changes changes.now).count (D.state disk.old)
        (D.state disk.new) result }
{
    // Recovered first: a commit begins with an empty journal, and with nothing pending.
    Journal::recover(disk, params)?;
    Journal::commit(disk, params, changes)
}
