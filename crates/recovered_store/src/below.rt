//! The disk below an image that can only be read.

ghost use Rattle.std.specs.Prelude.{◌≡◌};
ghost use Rattle.disk_model.specs.DiskState.{DiskState, IsObservable};
ghost use Rattle.gate_journal.specs.View.{disk_of};
ghost use Rattle.gate_journal.specs.Places.{ReadsOnly};
ghost use Rattle.recovered_store.specs.BelowDisks.{IsOver};

use crate::disk::SlotsDisk;
use disk_model::Disk;
use gate_journal::View;
use store_base::ReadSlots;

/// Slots that are read from a disk, which no call on them writes.
pub trait DiskSlots: ReadSlots {
    /// What that disk means at this moment.
    ghost below: { Self → DiskState };

    /// It is only read.
    ghost reads: { (old new : Self) → Self.follows old new → IsObservable (below old)
        → ReadsOnly (below old) (below new) };

    /// Slots tell their bytes where it does.
    ghost told: { (slots : Self) → (Self.state slots).is_observable ≡ (below slots).is_observable };
}

impl<D: Disk> DiskSlots for View<D> {
    ghost use Rattle.std.proofs.Common.{refl};

    ghost below = { λ view. D.state (disk_of view) };

    ghost reads = { λ old new keeps observable. keeps.reads observable };

    ghost told = { λ view. refl };
}

/// Hands back the disk below a recovered image, of whose history that image tells what the disk is.
pub fn into_below<D: Disk>(disk: SlotsDisk<View<D>>) -> D
    ensures disk { result ≡ disk_of disk.slots }
    ensures over { IsObservable (D.state result)
        → IsOver (D.state result) (⟦<SlotsDisk<View<D>> as Disk>⟧.state disk) }
{
    disk.into_slots().into_disk()
}
