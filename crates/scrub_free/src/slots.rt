//! How the free slots of a table become zero.

ghost use Rattle.std.specs.Prelude.{◌≡◌, ◌<◌, ◌≤◌, OnOk};
ghost use Rattle.store_model.specs.Parameters.{image_len, slots_limit};
ghost use Rattle.store_model.specs.Images.{scrubbed_block};
ghost use Rattle.disk_model.specs.DiskState.{DiskState, IsObservable, IsDurable};
ghost use Rattle.disk_model.specs.DiskCalls.{IsCall};
ghost use Rattle.gate_journal.specs.Places.{AreCalls, Reaches, Makes};
ghost use Rattle.gate_journal.specs.Phases.{table_slot};
ghost use Rattle.scrub_free.specs.FreeSlots.{OutsideFreeSlot, OutsideFree, AreScrubbed, StandClean, is_unclean};
ghost use Rattle.scrub_free.specs.FreeSlots.{block_writes, scrub_writes};

use disk_model::Disk;
use store_base::{DiskFault, ZEROS, table_at};
use store_model::{BLOCK, Slot};

/// Whether a slot is free and not zero.
#[tactic(auto, unfolding(crate::specs::FreeSlots::is_unclean))]
pub fn is_unclean(slot: &Slot) -> bool
    ensures { result ≡ is_unclean slot.now }
{
    slot[0] == 0 && *slot != ZEROS
}

/// Makes bytes 1 to 4,095 of a slot of the table zero, where byte 0 is 0 and they are not.
fn scrub_slot<D: Disk>(disk: &mut D, slots: u32, slot: u32) -> Result<(), DiskFault>
    requires in_range { slots ≤ slots_limit }
    requires below { slot < slots }
    requires size { (D.state disk.old).size ≡ image_len slots }
    ensures call { IsCall (D.state disk.old) (D.state disk.new) result }
    ensures reaches { IsObservable (D.state disk.old)
        → Reaches (OutsideFreeSlot slots slot (D.state disk.old).bytes)
        (λ image. table_slot slots image slot
        ≡ scrubbed_block (table_slot slots (D.state disk.old).bytes slot))
        (D.state disk.old) (D.state disk.new) result }
    ensures makes { IsObservable (D.state disk.old)
        → Makes (block_writes (table_slot slots (D.state disk.old).bytes slot)) 0 (D.state disk.old)
        (D.state disk.new) result }
{
    let at = table_at(slots, slot);
    let mut bytes = [0; BLOCK];
    disk.read_at(at, &mut bytes)?;
    if !is_unclean(&bytes) {
        return Ok(());
    }
    disk.write_at(at + 1, &[0; BLOCK - 1])
}

/// Makes each free slot of the table zero that is not: one whose byte 0 is 0 while another of its bytes is not. Then it
/// makes that durable. The first slots, as many as are known to be clean, are not read.
pub fn scrub_slots<D: Disk>(disk: &mut D, slots: u32, clean: u32) -> Result<(), DiskFault>
    requires in_range { slots ≤ slots_limit }
    requires within { clean ≤ slots }
    requires clean { IsObservable (D.state disk.old)
        → StandClean (table_slot slots (D.state disk.old).bytes) clean }
    requires size { (D.state disk.old).size ≡ image_len slots }
    ensures call { IsCall (D.state disk.old) (D.state disk.new) result }
    ensures reaches { IsObservable (D.state disk.old)
        → Reaches (OutsideFree slots (D.state disk.old).bytes)
        (AreScrubbed slots slots (D.state disk.old).bytes)
        (D.state disk.old) (D.state disk.new) result }
    ensures durable { IsObservable (D.state disk.old) → OnOk result (IsDurable (D.state disk.new)) }
    ensures makes { IsObservable (D.state disk.old)
        → Makes (scrub_writes (table_slot slots (D.state disk.old).bytes) slots) 1
        (D.state disk.old)
        (D.state disk.new) result }
{
    for slot in clean..slots {
        scrub_slot(disk, slots, slot)?;
    }
    disk.sync()
}
