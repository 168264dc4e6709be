//! What is read of an image: the commit flag, the marks, and a character for each slot.

ghost use Rattle.std.specs.Prelude.{◌≡◌, ◌+◌, ◌<◌, ◌≤◌, length, slice_index, IfOk, OnOk};
ghost use Rattle.store_model.specs.Parameters as model;
ghost use Rattle.store_model.specs.Parameters.{image_len, slots_limit, block_len};
ghost use Rattle.store_model.specs.Images.{bytes_at};
ghost use Rattle.disk_model.specs.DiskState.{DiskState, IsObservable};
ghost use Rattle.slot_map.specs.Contents.{ShowsSlot, ShowsTable};
ghost use Rattle.slot_map.specs.MapCalls.{ReadsDisk};

use crate::contents::show_slot;
use disk_model::Disk;
use store_base::{DiskFault, gate_at, mark_at, table_at};
use store_model::BLOCK;

/// Reads the commit flag: byte 0 of the gate block.
pub(crate) fn read_flag<D: Disk>(disk: &mut D, slots: u32) -> Result<u8, DiskFault>
    requires some { 1 ≤ slots }
    requires in_range { slots ≤ slots_limit }
    requires size { (D.state disk.old).size ≡ image_len slots }
    ensures reads { ReadsDisk (D.state disk.old) (D.state disk.new) result }
    ensures flag { IsObservable (D.state disk.old)
        → IfOk result (λ flag. flag ≡ slice_index (D.state disk.old).bytes model.gate_at) }
{
    let mut flag = [0; 1];
    disk.read_at(gate_at(), &mut flag)?;
    Ok(flag[0])
}

/// Reads the marks of all slots, and the version's behind them.
pub(crate) fn read_marks<D: Disk>(
    disk: &mut D,
    slots: u32,
    marks: &mut [u8],
) -> Result<(), DiskFault>
    requires in_range { slots ≤ slots_limit }
    requires size { (D.state disk.old).size ≡ image_len slots }
    requires count { length marks.old ≡ slots + 1 }
    ensures reads { ReadsDisk (D.state disk.old) (D.state disk.new) result }
    ensures marks { IsObservable (D.state disk.old)
        → OnOk result (marks.new ≡ bytes_at (D.state disk.old).bytes model.marks_at (slots + 1)) }
{
    disk.read_at(mark_at(0), marks)
}

/// The character that stands for what slot `slot` of the table holds.
fn read_slot<D: Disk>(disk: &mut D, slots: u32, slot: u32) -> Result<u8, DiskFault>
    requires in_range { slots ≤ slots_limit }
    requires below { slot < slots }
    requires size { (D.state disk.old).size ≡ image_len slots }
    ensures reads { ReadsDisk (D.state disk.old) (D.state disk.new) result }
    ensures shown { IsObservable (D.state disk.old)
        → IfOk result
        (ShowsSlot (bytes_at (D.state disk.old).bytes (model.table_at slots slot) block_len)) }
{
    let mut bytes = [0; BLOCK];
    disk.read_at(table_at(slots, slot), &mut bytes)?;
    Ok(show_slot(&bytes))
}

/// Reads the slots of the table, one at a time, and notes a character for each.
pub(crate) fn read_slots<D: Disk>(
    disk: &mut D,
    slots: u32,
    chars: &mut [u8],
) -> Result<(), DiskFault>
    requires in_range { slots ≤ slots_limit }
    requires size { (D.state disk.old).size ≡ image_len slots }
    requires count { length chars.old ≡ slots }
    ensures reads { ReadsDisk (D.state disk.old) (D.state disk.new) result }
    ensures shown { IsObservable (D.state disk.old)
        → OnOk result (ShowsTable slots (D.state disk.old).bytes chars.new) }
{
    for slot in 0..slots {
        chars[slot as usize] = read_slot(disk, slots, slot)?;
    }
    Ok(())
}
