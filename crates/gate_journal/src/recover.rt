//! What recovery makes of the image that a crash left: header and table with the journal redone, where the commit
//! flag is set, and an empty journal.
ghost use Rattle.std.specs.Prelude.{◌≡◌, ℕ, ◌+◌, ◌^◌, ◌<◌, ◌≤◌};
ghost use Rattle.store_model.specs.Parameters.{image_len, slots_limit};
ghost use Rattle.disk_model.specs.DiskState.{DiskState, IsObservable, IsDurable};
ghost use Rattle.gate_journal.specs.Places.{SameAt, AreCalls, Makes, ReadsOnly};
ghost use Rattle.gate_journal.specs.Phases.{HasEmptyJournal};
ghost use Rattle.gate_journal.specs.Recovery.{IsBehindFlag, SettlesFlag, RecoversDurable, erase_writes, redo_writes};
ghost use Rattle.gate_journal.specs.Recovery.{redo_syncs};

use crate::entry::write_flag;
use crate::redo::{erase_area, is_flag_set, is_journal_zero, redo_table};
use disk_model::Disk;
use store_base::DiskFault;

/// Redoes the marked slots, and the version where that is marked, if the commit flag is set, and clears the flag.
fn settle_flag<D: Disk>(disk: &mut D, slots: u32) -> Result<(), DiskFault>
    requires in_range { slots ≤ slots_limit }
    requires size { (D.state disk.old).size ≡ image_len slots }
    requires durable { IsObservable (D.state disk.old) → IsDurable (D.state disk.old) }
    ensures calls { AreCalls (D.state disk.old) (D.state disk.new) result }
    ensures settles { IsObservable (D.state disk.old)
        → SettlesFlag slots (D.state disk.old) (D.state disk.new) result }
    ensures makes { IsObservable (D.state disk.old)
        → Makes (redo_writes slots (D.state disk.old).bytes)
        (redo_syncs (D.state disk.old).bytes) (D.state disk.old)
        (D.state disk.new) result }
    ensures journal { IsObservable (D.state disk.old)
        → SameAt (IsBehindFlag slots) (D.state disk.old).bytes (D.state disk.new).bytes }
{
    if !is_flag_set(disk)? {
        return Ok(());
    }
    redo_table(disk, slots)?;
    write_flag(disk, 0)
}

/// Recovers a durable disk.
pub fn recover_durable<D: Disk>(disk: &mut D, slots: u32) -> Result<(), DiskFault>
    requires in_range { slots ≤ slots_limit }
    requires some { 1 ≤ slots }
    requires size { (D.state disk.old).size ≡ image_len slots }
    requires durable { IsObservable (D.state disk.old) → IsDurable (D.state disk.old) }
    ensures calls { AreCalls (D.state disk.old) (D.state disk.new) result }
    ensures recovers { IsObservable (D.state disk.old)
        → RecoversDurable slots (D.state disk.old) (D.state disk.new) result }
    ensures quiet { IsObservable (D.state disk.old) → HasEmptyJournal slots (D.state disk.old).bytes
        → ReadsOnly (D.state disk.old) (D.state disk.new) }
    ensures makes { IsObservable (D.state disk.old) → (D.state disk.old).writes < 2 ^ 64
        → (D.state disk.old).syncs < 2 ^ 64 → (HasEmptyJournal slots (D.state disk.old).bytes → ⊥)
        → Makes (redo_writes slots (D.state disk.old).bytes
        + erase_writes slots (D.state disk.old).bytes)
        (redo_syncs (D.state disk.old).bytes + 1) (D.state disk.old) (D.state disk.new) result }
{
    if is_journal_zero(disk, slots)? {
        return Ok(());
    }
    settle_flag(disk, slots)?;
    erase_area(disk, slots)
}
