//! How every byte of a disk becomes zero, so that no crash leaves an image.
ghost use Rattle.std.specs.Prelude.{◌≡◌, ℕ, ◌+◌, ◌-◌, ◌*◌, ◌/◌, ◌<◌, ◌≤◌, [], ◌∷◌, OnOk};
ghost use Rattle.disk_model.specs.DiskState.{DiskState, IsObservable, IsDurable};
ghost use Rattle.disk_model.specs.DiskCalls.{IsCall, overwrite};
ghost use Rattle.gate_journal.specs.Places.{IsApart, AreCalls, Reaches, Makes, IsZeroAt};
ghost use Rattle.gate_journal.specs.Wipes.{Wipes, block_count};

use crate::entry::write_byte;
use disk_model::Disk;
use store_base::DiskFault;
use store_model::BLOCK;

/// Makes every byte but the first zero, block by block, and makes that durable.
fn wipe_rest<D: Disk>(disk: &mut D) -> Result<(), DiskFault>
    requires { 1 ≤ (D.state disk.old).size }
    ensures call { IsCall (D.state disk.old) (D.state disk.new) result }
    ensures reaches { IsObservable (D.state disk.old)
        → Reaches (IsApart 1 ((D.state disk.old).size - 1))
        (IsZeroAt 1 ((D.state disk.old).size - 1))
        (D.state disk.old) (D.state disk.new) result }
    ensures durable { IsObservable (D.state disk.old) → OnOk result (IsDurable (D.state disk.new)) }
    ensures makes { IsObservable (D.state disk.old)
        → Makes (block_count (D.state disk.old).size) 1 (D.state disk.old)
        (D.state disk.new) result }
{
    let len = disk.len();
    let zeros = [0; BLOCK];
    for block in 0..len.div_ceil(BLOCK as u64) {
        let start = block * BLOCK as u64;
        let from = start.max(1);
        let end = (len - start).min(BLOCK as u64) as usize;
        disk.write_at(from, &zeros[(from - start) as usize..end])?;
    }
    disk.sync()
}

/// Makes every byte of a disk zero, which has at least one. The first byte goes before all others, so that the disk
/// is no image when the rest is torn.
pub fn overwrite_disk<D: Disk>(disk: &mut D) -> Result<(), DiskFault>
    requires { 1 ≤ (D.state disk.old).size }
    ensures call { IsCall (D.state disk.old) (D.state disk.new) result }
    ensures wipes { IsObservable (D.state disk.old)
        → Wipes (D.state disk.old) (D.state disk.new) result }
    ensures makes { IsObservable (D.state disk.old)
        → Makes (1 + block_count (D.state disk.old).size) 2 (D.state disk.old)
        (D.state disk.new) result }
{
    // Durable before the rest is written: an image that is torn is none.
    write_byte(disk, 0, 0)?;
    wipe_rest(disk)
}
