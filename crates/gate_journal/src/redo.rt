//! What recovery is made of: header and table with the journal redone, where the commit flag is set, and an empty
//! journal.
ghost use Rattle.std.specs.Prelude.{◌≡◌, ◌↔◌, ℕ, ◌+◌, ◌-◌, ◌*◌, ◌<◌, ◌≤◌, min, length, slice_index, not, ◌==◌, IsTrue};
ghost use Rattle.std.specs.Prelude.{IfOk, OnOk};
ghost use Rattle.store_model.specs.Parameters.{image_len, shadow_at, table_at, slots_limit, block_len, gate_at};
ghost use Rattle.store_model.specs.Parameters.{marks_at};
ghost use Rattle.store_model.specs.Images.{bytes_at, is_flag_set, is_marked, recovered, journal_len};
ghost use Rattle.disk_model.specs.DiskState.{DiskState, IsObservable, IsDurable};
ghost use Rattle.disk_model.specs.DiskCalls.{IsCall};
ghost use Rattle.gate_journal.specs.Places.{IsApart, AreCalls, Reaches, Makes, ReadsOnly, IsZeroAt};
ghost use Rattle.gate_journal.specs.Phases.{table_slot, HasEmptyJournal};
ghost use Rattle.gate_journal.specs.Recovery.{OutsideMarked, AreRedone, OutsideVersion, HasRedoneVersion};
ghost use Rattle.gate_journal.specs.Recovery.{OutsideRedone, IsRedone, marked_count, clear_writes, erase_writes};

use disk_model::Disk;
use store_base::{
    DiskFault, READ_LEN, are_zero, gate_at, mark_at, shadow_at, table_at, version_at, version_byte,
};
use store_model::{BLOCK, Version};

/// Whether each byte is zero. Bytes are compared by blocks: so the zeros that they are compared with are few, and stay
/// in the processor's first cache.
fn is_zero(bytes: &[u8]) -> bool
    ensures { IsTrue result ↔ IsZeroAt 0 (length bytes.now) bytes.now }
{
    for block in 0..bytes.len().div_ceil(BLOCK) {
        let start = block * BLOCK;
        if !are_zero(&bytes[start..bytes.len().min(start + BLOCK)]) {
            return false;
        }
    }
    true
}

/// Whether as many bytes at this offset are zero as the buffer has. They are read into it.
fn is_range_zero<D: Disk>(disk: &mut D, at: u64, buffer: &mut [u8]) -> Result<bool, DiskFault>
    requires { at + length buffer.old ≤ (D.state disk.old).size }
    ensures call { IsCall (D.state disk.old) (D.state disk.new) result }
    ensures reads { IsObservable (D.state disk.old)
        → ReadsOnly (D.state disk.old) (D.state disk.new) }
    ensures value { IsObservable (D.state disk.old)
        → IfOk result (λ zero. IsTrue zero ↔ IsZeroAt at (length buffer.old) (D.state disk.old).bytes) }
{
    disk.read_at(at, buffer)?;
    Ok(is_zero(buffer))
}

/// Whether the byte at this offset is not zero.
pub fn is_byte_set<D: Disk>(disk: &mut D, at: u64) -> Result<bool, DiskFault>
    requires { at + 1 ≤ (D.state disk.old).size }
    ensures call { IsCall (D.state disk.old) (D.state disk.new) result }
    ensures reads { IsObservable (D.state disk.old)
        → ReadsOnly (D.state disk.old) (D.state disk.new) }
    ensures value { IsObservable (D.state disk.old)
        → IfOk result (λ set. set ≡ not (slice_index (D.state disk.old).bytes at == 0)) }
{
    let mut byte = [0; 1];
    disk.read_at(at, &mut byte)?;
    Ok(byte[0] != 0)
}

/// Makes as many bytes at this offset zero as the buffer has, at most a block, where they are not.
fn clear_range<D: Disk>(disk: &mut D, at: u64, buffer: &mut [u8]) -> Result<(), DiskFault>
    requires few { length buffer.old ≤ block_len }
    requires within { at + length buffer.old ≤ (D.state disk.old).size }
    ensures call { IsCall (D.state disk.old) (D.state disk.new) result }
    ensures reaches { IsObservable (D.state disk.old)
        → Reaches (IsApart at (length buffer.old))
        (IsZeroAt at (length buffer.old)) (D.state disk.old)
        (D.state disk.new) result }
    ensures makes { IsObservable (D.state disk.old)
        → Makes (clear_writes at (length buffer.old) (D.state disk.old).bytes) 0 (D.state disk.old)
        (D.state disk.new) result }
{
    disk.read_at(at, buffer)?;
    if is_zero(buffer) {
        return Ok(());
    }
    buffer.fill(0);
    disk.write_at(at, buffer)
}

/// Makes the block at this offset zero, where it is not.
fn clear_block<D: Disk>(disk: &mut D, at: u64) -> Result<(), DiskFault>
    requires { at + block_len ≤ (D.state disk.old).size }
    ensures call { IsCall (D.state disk.old) (D.state disk.new) result }
    ensures reaches { IsObservable (D.state disk.old)
        → Reaches (IsApart at block_len) (IsZeroAt at block_len) (D.state disk.old)
        (D.state disk.new) result }
    ensures makes { IsObservable (D.state disk.old)
        → Makes (clear_writes at block_len (D.state disk.old).bytes) 0 (D.state disk.old)
        (D.state disk.new) result }
{
    let mut block = [0; BLOCK];
    clear_range(disk, at, &mut block)
}

/// Makes the gate block zero behind the commit flag, where it is not.
fn clear_flag_block<D: Disk>(disk: &mut D) -> Result<(), DiskFault>
    requires { marks_at ≤ (D.state disk.old).size }
    ensures call { IsCall (D.state disk.old) (D.state disk.new) result }
    ensures reaches { IsObservable (D.state disk.old)
        → Reaches (IsApart (gate_at + 1) (block_len - 1))
        (IsZeroAt (gate_at + 1) (block_len - 1)) (D.state disk.old)
        (D.state disk.new) result }
    ensures makes { IsObservable (D.state disk.old)
        → Makes (clear_writes (gate_at + 1) (block_len - 1) (D.state disk.old).bytes) 0
        (D.state disk.old)
        (D.state disk.new) result }
{
    let mut rest = [0; BLOCK - 1];
    clear_range(disk, gate_at() + 1, &mut rest)
}

/// Makes gate block, marks and shadow zero, but for the commit flag, and makes that durable.
pub fn erase_area<D: Disk>(disk: &mut D, slots: u32) -> Result<(), DiskFault>
    requires in_range { slots ≤ slots_limit }
    requires some { 1 ≤ slots }
    requires size { (D.state disk.old).size ≡ image_len slots }
    ensures call { IsCall (D.state disk.old) (D.state disk.new) result }
    ensures reaches { IsObservable (D.state disk.old)
        → Reaches (IsApart (gate_at + 1) (journal_len slots - 1))
        (IsZeroAt (gate_at + 1) (journal_len slots - 1))
        (D.state disk.old) (D.state disk.new) result }
    ensures makes { IsObservable (D.state disk.old)
        → Makes (erase_writes slots (D.state disk.old).bytes) 1 (D.state disk.old)
        (D.state disk.new) result }
    ensures durable { IsObservable (D.state disk.old) → OnOk result (IsDurable (D.state disk.new)) }
{
    clear_flag_block(disk)?;
    for block in 2..table_at(slots, 0) / BLOCK as u64 {
        clear_block(disk, block * BLOCK as u64)?;
    }
    disk.sync()
}

/// Whether gate block, marks and shadow are zero.
pub fn is_journal_zero<D: Disk>(disk: &mut D, slots: u32) -> Result<bool, DiskFault>
    requires in_range { slots ≤ slots_limit }
    requires some { 1 ≤ slots }
    requires size { (D.state disk.old).size ≡ image_len slots }
    ensures calls { AreCalls (D.state disk.old) (D.state disk.new) result }
    ensures reads { IsObservable (D.state disk.old)
        → ReadsOnly (D.state disk.old) (D.state disk.new) }
    ensures value { IsObservable (D.state disk.old)
        → IfOk result (λ zero. IsTrue zero ↔ HasEmptyJournal slots (D.state disk.old).bytes) }
{
    let mut buffer = [0; READ_LEN];
    let len = table_at(slots, 0) - gate_at();
    for part in 0..len.div_ceil(READ_LEN as u64) {
        let start = part * READ_LEN as u64;
        let bytes = &mut buffer[..(len - start).min(READ_LEN as u64) as usize];
        if !is_range_zero(disk, gate_at() + start, bytes)? {
            return Ok(false);
        }
    }
    Ok(true)
}

/// Whether the commit flag is set.
#[tactic(auto, unfolding(store_model::specs::Images::is_flag_set))]
pub fn is_flag_set<D: Disk>(disk: &mut D) -> Result<bool, DiskFault>
    requires { gate_at + 1 ≤ (D.state disk.old).size }
    ensures call { IsCall (D.state disk.old) (D.state disk.new) result }
    ensures reads { IsObservable (D.state disk.old)
        → ReadsOnly (D.state disk.old) (D.state disk.new) }
    ensures value { IsObservable (D.state disk.old)
        → IfOk result (λ set. set ≡ is_flag_set (D.state disk.old).bytes) }
{
    is_byte_set(disk, gate_at())
}

/// Puts the shadow block of a slot into the table.
fn redo_slot<D: Disk>(disk: &mut D, slots: u32, slot: u32) -> Result<(), DiskFault>
    requires in_range { slots ≤ slots_limit }
    requires below { slot < slots }
    requires size { (D.state disk.old).size ≡ image_len slots }
    ensures call { IsCall (D.state disk.old) (D.state disk.new) result }
    ensures reaches { IsObservable (D.state disk.old)
        → Reaches (IsApart (table_at slots slot) block_len)
        (λ image. table_slot slots image slot
        ≡ bytes_at (D.state disk.old).bytes (shadow_at slots slot) block_len)
        (D.state disk.old) (D.state disk.new) result }
    ensures makes { IsObservable (D.state disk.old)
        → Makes 1 0 (D.state disk.old) (D.state disk.new) result }
{
    let mut bytes = [0; BLOCK];
    disk.read_at(shadow_at(slots, slot), &mut bytes)?;
    disk.write_at(table_at(slots, slot), &bytes)
}

/// Copies into the table the shadow blocks of those slots that this block of marks has marked.
fn redo_block<D: Disk>(disk: &mut D, slots: u32, first: u32) -> Result<(), DiskFault>
    requires in_range { slots ≤ slots_limit }
    requires below { first < slots }
    requires size { (D.state disk.old).size ≡ image_len slots }
    ensures calls { AreCalls (D.state disk.old) (D.state disk.new) result }
    ensures reaches { IsObservable (D.state disk.old)
        → Reaches (OutsideMarked slots first (min slots (first + block_len))
        (D.state disk.old).bytes)
        (AreRedone slots first (min slots (first + block_len)) (D.state disk.old).bytes)
        (D.state disk.old)
        (D.state disk.new) result }
    ensures makes { IsObservable (D.state disk.old)
        → Makes (marked_count first (min slots (first + block_len) - first)
        (D.state disk.old).bytes) 0
        (D.state disk.old) (D.state disk.new) result }
{
    let mut marks = [0; BLOCK];
    disk.read_at(mark_at(first), &mut marks)?;
    for slot in first..slots.min(first + BLOCK as u32) {
        if marks[(slot - first) as usize] != 0 {
            redo_slot(disk, slots, slot)?;
        }
    }
    Ok(())
}

/// Writes version 2 into the header, where the mark behind the last slot's is set, even if it has that version.
fn redo_version<D: Disk>(disk: &mut D, slots: u32) -> Result<(), DiskFault>
    requires in_range { slots ≤ slots_limit }
    requires size { (D.state disk.old).size ≡ image_len slots }
    ensures call { IsCall (D.state disk.old) (D.state disk.new) result }
    ensures reaches { IsObservable (D.state disk.old)
        → Reaches (OutsideVersion slots (D.state disk.old).bytes)
        (HasRedoneVersion slots (D.state disk.old).bytes)
        (D.state disk.old) (D.state disk.new) result }
    ensures makes { IsObservable (D.state disk.old)
        → Makes (marked_count slots 1 (D.state disk.old).bytes) 0 (D.state disk.old)
        (D.state disk.new) result }
{
    if is_byte_set(disk, mark_at(slots))? {
        return disk.write_at(version_at(), &[version_byte(Version::Two)]);
    }
    Ok(())
}

/// Puts the shadow blocks of all marked slots into the table, and version 2 into the header where that is marked, and
/// makes this durable.
pub fn redo_table<D: Disk>(disk: &mut D, slots: u32) -> Result<(), DiskFault>
    requires in_range { slots ≤ slots_limit }
    requires size { (D.state disk.old).size ≡ image_len slots }
    ensures calls { AreCalls (D.state disk.old) (D.state disk.new) result }
    ensures reaches { IsObservable (D.state disk.old)
        → Reaches (OutsideRedone slots (D.state disk.old).bytes)
        (IsRedone slots (D.state disk.old).bytes)
        (D.state disk.old) (D.state disk.new) result }
    ensures makes { IsObservable (D.state disk.old)
        → Makes (marked_count 0 (slots + 1) (D.state disk.old).bytes) 1 (D.state disk.old)
        (D.state disk.new) result }
    ensures durable { IsObservable (D.state disk.old) → OnOk result (IsDurable (D.state disk.new)) }
{
    for block in 0..slots.div_ceil(BLOCK as u32) {
        redo_block(disk, slots, block * BLOCK as u32)?;
    }
    redo_version(disk, slots)?;
    // Durable before the flag is cleared: from then on nothing redoes it.
    disk.sync()
}
