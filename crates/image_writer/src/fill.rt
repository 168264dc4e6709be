//! All of an image that is no page: free slots, the areas before the table, and the header but for its first byte.

ghost use Rattle.std.specs.Prelude.{◌≡◌, ℕ, ◌-◌, ◌/◌, ◌<◌, ◌≤◌, length, OnOk};
ghost use Rattle.store_model.specs.Parameters as model;
ghost use Rattle.store_model.specs.Parameters.{IsParameters, image_len, slots_limit, block_len};
ghost use Rattle.disk_model.specs.DiskState.{DiskState, IsObservable};
ghost use Rattle.gate_journal.specs.Places.{IsApart, AreCalls, Made, Reaches};
ghost use Rattle.image_writer.specs.Filling.{OutsideSlot, IsFilled, fill_writes, OutsideFree, AreFilled};
ghost use Rattle.image_writer.specs.Filling.{free_count, IsJournalZero, OutsideJournal, HasHeaderRest};

use disk_model::Disk;
use rising_pages::FreeSlots;
use store_base::{DiskFault, Params, table_at, write_header};
use store_model::BLOCK;

/// Writes zeros into a slot, if it is free.
fn fill_slot<D: Disk>(disk: &mut D, slots: u32, slot: u32, free: bool) -> Result<(), DiskFault>
    requires in_range { slots ≤ slots_limit }
    requires below { slot < slots }
    requires size { (D.state disk.old).size ≡ image_len slots }
    ensures calls { AreCalls (D.state disk.old) (D.state disk.new) result }
    ensures reaches { IsObservable (D.state disk.old)
        → Reaches (OutsideSlot slots slot free) (IsFilled slots slot free)
        (D.state disk.old) (D.state disk.new) result }
    ensures made { IsObservable (D.state disk.old)
        → OnOk result (Made (fill_writes free) 0 (D.state disk.old) (D.state disk.new)) }
{
    if !free {
        return Ok(());
    }
    disk.write_at(table_at(slots, slot), &[0; BLOCK])
}

/// Writes zeros into the slots that are free.
pub fn fill_free<D: Disk>(disk: &mut D, slots: u32, free: &FreeSlots) -> Result<(), DiskFault>
    requires in_range { slots ≤ slots_limit }
    requires slots { length free.now ≡ slots }
    requires size { (D.state disk.old).size ≡ image_len slots }
    ensures calls { AreCalls (D.state disk.old) (D.state disk.new) result }
    ensures reaches { IsObservable (D.state disk.old)
        → Reaches (OutsideFree slots free.now) (AreFilled slots free.now slots)
        (D.state disk.old) (D.state disk.new) result }
    ensures made { IsObservable (D.state disk.old)
        → OnOk result (Made (free_count free.now) 0 (D.state disk.old) (D.state disk.new)) }
{
    for slot in 0..slots {
        fill_slot(disk, slots, slot, free.is_free(slot))?;
    }
    Ok(())
}

/// Writes zeros over the gate block, the marks and the shadow.
pub fn zero_journal<D: Disk>(disk: &mut D, slots: u32) -> Result<(), DiskFault>
    requires some { 1 ≤ slots }
    requires in_range { slots ≤ slots_limit }
    requires size { (D.state disk.old).size ≡ image_len slots }
    ensures calls { AreCalls (D.state disk.old) (D.state disk.new) result }
    ensures reaches { IsObservable (D.state disk.old)
        → Reaches (OutsideJournal slots) (IsJournalZero slots)
        (D.state disk.old) (D.state disk.new) result }
    ensures made { IsObservable (D.state disk.old)
        → OnOk result (Made (model.table_at slots 0 / block_len - 1) 0
        (D.state disk.old) (D.state disk.new)) }
{
    for block in 1..table_at(slots, 0) / BLOCK as u64 {
        disk.write_at(block * BLOCK as u64, &[0; BLOCK])?;
    }
    Ok(())
}

/// Writes the header but for its first byte.
pub fn write_header_rest<D: Disk>(disk: &mut D, params: &Params) -> Result<(), DiskFault>
    requires { (D.state disk.old).size ≡ image_len params.now.slots }
    ensures calls { AreCalls (D.state disk.old) (D.state disk.new) result }
    ensures reaches { IsObservable (D.state disk.old)
        → Reaches (IsApart 1 (block_len - 1)) (HasHeaderRest params.now)
        (D.state disk.old) (D.state disk.new) result }
    ensures made { IsObservable (D.state disk.old)
        → OnOk result (Made 1 0 (D.state disk.old) (D.state disk.new)) }
{
    let mut header = [0; BLOCK];
    write_header(params, &mut header);
    disk.write_at(1, &header[1..])
}
