//! One write that is durable before the next step: what a commit record needs.
ghost use Rattle.std.specs.Prelude.{◌≡◌, ◌⊎◌, ◌+◌, ◌≤◌, length, OnOk};
ghost use Rattle.disk_model.specs.DiskState.{IsObservable, IsDurable};
ghost use Rattle.disk_model.specs.DiskCalls.{LeavesOnly, SameOutside, IsCall, overwrite, raised};

use crate::Disk;
use store_base::DiskFault;

/// Writes these bytes to a durable disk and makes them durable. At `Ok` a crash leaves exactly what is then read.
///
/// A crash at any moment of the call leaves the disk as it was, with any bytes in the range.
/// After `DiskFault` nothing is promised of the bytes in the range, nor that they are durable. All other bytes stay.
pub fn write_durably<D: Disk>(disk: &mut D, at: u64, bytes: &[u8]) -> Result<(), DiskFault>
    requires within { at + length bytes.now ≤ (D.state disk.old).size }
    requires durable { IsObservable (D.state disk.old) → IsDurable (D.state disk.old) }

    ensures call { IsCall (D.state disk.old) (D.state disk.new) result }
    ensures durable { IsObservable (D.state disk.old) → OnOk result (IsDurable (D.state disk.new)) }
    ensures written { IsObservable (D.state disk.old)
        → OnOk result ((D.state disk.new).bytes ≡ overwrite (D.state disk.old).bytes at bytes.now) }
    ensures outside { IsObservable (D.state disk.old)
        → SameOutside at (length bytes.now) (D.state disk.old).bytes (D.state disk.new).bytes }

    // A crash at any moment of the call, failed or not.
    ensures crash { IsObservable (D.state disk.old)
        → LeavesOnly (D.state disk.old) (D.state disk.new)
        (SameOutside at (length bytes.now) (D.state disk.old).bytes) }

    ensures write_count { IsObservable (D.state disk.old)
        → (D.state disk.new).writes ≡ raised (D.state disk.old).writes }
    ensures sync_count { IsObservable (D.state disk.old)
        → OnOk result ((D.state disk.new).syncs ≡ raised (D.state disk.old).syncs) }
    ensures no_more_syncs { IsObservable (D.state disk.old)
        → (D.state disk.new).syncs ≤ raised (D.state disk.old).syncs }
    // after a write that failed there is no sync
    ensures synced_if_written { IsObservable (D.state disk.old)
        → ((D.state disk.new).syncs ≡ (D.state disk.old).syncs)
        ⊎ ((D.state disk.new).bytes ≡ overwrite (D.state disk.old).bytes at bytes.now) }
{
    disk.write_at(at, bytes)?;
    disk.sync()
}
