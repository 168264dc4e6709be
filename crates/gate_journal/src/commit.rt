//! How changed slots are committed: first into the journal, and, once the commit flag is set, into the table.
//!
//! An upgrade commits version 2 of the format with them, by one more write in each of three passes. It sets the
//! version's mark, which stands behind the last slot's; it writes the version's byte of the header; it clears the
//! mark.
ghost use Rattle.std.specs.Prelude.{◌≡◌, ℕ, ◌+◌, ◌*◌, ◌<◌, ◌≤◌, [], ◌∷◌, OnOk};
ghost use Rattle.store_model.specs.Parameters.{image_len, slots_limit};
ghost use Rattle.disk_model.specs.DiskState.{DiskState, IsObservable, IsDurable};
ghost use Rattle.disk_model.specs.DiskCalls.{IsCall, Rose, overwrite};
ghost use Rattle.gate_journal.specs.Places.{IsApart, Reaches, Makes};
ghost use Rattle.gate_journal.specs.Phases.{HasEmptyJournal};
ghost use Rattle.gate_journal.specs.Changes.{AreChanges, CommitsTo};
ghost use Rattle.gate_journal.specs.Passes.{slot_writes, OutsideWrite, HasWritten, version_writes, version_place};
ghost use Rattle.gate_journal.specs.Passes.{version_value, OutsidePass, HasPassed, target};

use crate::changes::SlotChanges;
use crate::entry::{write_byte, write_entry, write_flag};
use disk_model::Disk;
use store_base::{DiskFault, ZEROS, mark_at, table_at, version_at, version_byte};
use store_model::{BLOCK, Slot, Version};

/// What a commit changes.
#[derive(Clone, Copy)]
pub enum Kind {
    /// Slots alone.
    Slots,
    /// Slots, if any, and the version of the format with them, from 1 to 2.
    Upgrade,
}

/// What a pass writes for each changed slot, and for the version in an upgrade.
#[derive(Clone, Copy)]
enum Pass {
    /// Its new bytes into its shadow block, and its mark; the version's mark.
    Journal,
    /// Its new bytes into the table; the version's byte into the header.
    Table,
    /// Zeros into its shadow block and its mark; zero into the version's mark.
    Erase,
}

/// Makes the writes of this pass for change `k`. `bytes` is lent for its new bytes.
fn write_change<D: Disk, S: SlotChanges>(
    disk: &mut D,
    slots: u32,
    changes: &S,
    k: u32,
    pass: Pass,
    bytes: &mut Slot,
) -> Result<(), DiskFault>
    requires in_range { slots ≤ slots_limit }
    requires size { (D.state disk.old).size ≡ image_len slots }
    requires changes { AreChanges slots (S.changes changes.now) }
    requires below { k < (S.changes changes.now).count }
    ensures call { IsCall (D.state disk.old) (D.state disk.new) result }
    ensures reaches { IsObservable (D.state disk.old)
        → Reaches (OutsideWrite pass slots ((S.changes changes.now).slot k))
        (HasWritten pass slots ((S.changes changes.now).slot k) ((S.changes changes.now).bytes k)
        (D.state disk.old).bytes)
        (D.state disk.old) (D.state disk.new) result }
    ensures makes { IsObservable (D.state disk.old)
        → Makes (slot_writes pass) 0 (D.state disk.old) (D.state disk.new) result }
    ensures wrote { IsObservable (D.state disk.old)
        → Rose (D.state disk.old).writes (D.state disk.new).writes }
{
    match pass {
        Pass::Journal => {
            let slot = changes.change(k, bytes);
            write_entry(disk, slots, slot, bytes, 1)
        }
        Pass::Table => {
            let slot = changes.change(k, bytes);
            disk.write_at(table_at(slots, slot), bytes)
        }
        Pass::Erase => write_entry(disk, slots, changes.number(k), &ZEROS, 0),
    }
}

/// Makes the write of this pass for the version, and makes it durable with all that is pending.
fn write_version<D: Disk>(disk: &mut D, slots: u32, pass: Pass) -> Result<(), DiskFault>
    requires in_range { slots ≤ slots_limit }
    requires size { (D.state disk.old).size ≡ image_len slots }
    ensures call { IsCall (D.state disk.old) (D.state disk.new) result }
    ensures reaches { IsObservable (D.state disk.old)
        → Reaches (IsApart (version_place pass slots) 1)
        (λ image. image ≡ overwrite (D.state disk.old).bytes (version_place pass slots)
        (version_value pass ∷ []))
        (D.state disk.old) (D.state disk.new) result }
    ensures durable { IsObservable (D.state disk.old) → OnOk result (IsDurable (D.state disk.new)) }
    ensures makes { IsObservable (D.state disk.old)
        → Makes 1 1 (D.state disk.old) (D.state disk.new) result }
    ensures wrote { IsObservable (D.state disk.old)
        → Rose (D.state disk.old).writes (D.state disk.new).writes }
{
    match pass {
        Pass::Journal => write_byte(disk, mark_at(slots), 1),
        Pass::Table => write_byte(disk, version_at(), version_byte(Version::Two)),
        Pass::Erase => write_byte(disk, mark_at(slots), 0),
    }
}

/// Makes the writes of this pass for each changed slot, and for the version in an upgrade, and makes them durable.
/// `bytes` is lent for the new bytes of one slot after another.
fn write_slots<D: Disk, S: SlotChanges>(
    disk: &mut D,
    slots: u32,
    changes: &S,
    pass: Pass,
    kind: Kind,
    bytes: &mut Slot,
) -> Result<(), DiskFault>
    requires in_range { slots ≤ slots_limit }
    requires size { (D.state disk.old).size ≡ image_len slots }
    requires changes { AreChanges slots (S.changes changes.now) }
    ensures call { IsCall (D.state disk.old) (D.state disk.new) result }
    ensures reaches { IsObservable (D.state disk.old)
        → Reaches (OutsidePass kind pass slots (S.changes changes.now))
        (HasPassed kind pass slots (S.changes changes.now) (D.state disk.old).bytes)
        (D.state disk.old)
        (D.state disk.new) result }
    ensures durable { IsObservable (D.state disk.old) → OnOk result (IsDurable (D.state disk.new)) }
    ensures makes { IsObservable (D.state disk.old)
        → Makes (slot_writes pass * (S.changes changes.now).count + version_writes kind) 1
        (D.state disk.old)
        (D.state disk.new) result }
    ensures wrote { IsObservable (D.state disk.old)
        → 0 < (S.changes changes.now).count + version_writes kind
        → Rose (D.state disk.old).writes (D.state disk.new).writes }
{
    for k in 0..changes.count() {
        write_change(disk, slots, changes, k, pass, bytes)?;
    }
    // Durable before the next pass or flag: a crash there counts on what this one wrote.
    match kind {
        Kind::Slots => disk.sync(),
        Kind::Upgrade => write_version(disk, slots, pass),
    }
}

/// Commits changed slots, and the version with them in an upgrade, in a table of so many slots.
/// A commit of slots alone changes at least one.
pub fn commit_changes<D: Disk, S: SlotChanges>(
    disk: &mut D,
    slots: u32,
    changes: &S,
    kind: Kind,
) -> Result<(), DiskFault>
    requires in_range { slots ≤ slots_limit }
    requires size { (D.state disk.old).size ≡ image_len slots }
    requires changes { AreChanges slots (S.changes changes.now) }
    requires some { 0 < (S.changes changes.now).count + version_writes kind }
    requires durable { IsObservable (D.state disk.old) → IsDurable (D.state disk.old) }
    requires empty { IsObservable (D.state disk.old)
        → HasEmptyJournal slots (D.state disk.old).bytes }
    ensures call { IsCall (D.state disk.old) (D.state disk.new) result }
    ensures commits { IsObservable (D.state disk.old)
        → CommitsTo slots (target kind slots (S.changes changes.now) (D.state disk.old).bytes)
        (D.state disk.old)
        (D.state disk.new) result }
    ensures makes { IsObservable (D.state disk.old)
        → Makes (5 * (S.changes changes.now).count + (2 + 3 * version_writes kind)) 5
        (D.state disk.old)
        (D.state disk.new) result }
    ensures wrote { IsObservable (D.state disk.old)
        → Rose (D.state disk.old).writes (D.state disk.new).writes }
{
    let mut bytes = [0; BLOCK];
    // Durable before the flag is set: behind a flag that is set, what the journal holds counts.
    write_slots(disk, slots, changes, Pass::Journal, kind, &mut bytes)?;
    // Durable before header and table are written: where the flag is clear, they have to be whole.
    write_flag(disk, 1)?;
    // Durable before the flag is cleared: from then on nothing redoes it.
    write_slots(disk, slots, changes, Pass::Table, kind, &mut bytes)?;
    // Durable before the journal is erased: a flag that is still set would redo what is half erased.
    write_flag(disk, 0)?;
    // Durable before Ok: nothing is pending when the next commit begins.
    write_slots(disk, slots, changes, Pass::Erase, kind, &mut bytes)
}
