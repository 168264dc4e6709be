//! How the slots are found that a settle commits.

ghost use Rattle.std.specs.Prelude.{◌≡◌, ◌<◌, ◌≤◌, ℕ, List, length, Some};
ghost use Rattle.store_model.specs.Parameters.{image_len, block_len, slots_limit};
ghost use Rattle.table_memory.specs.SlotCaches.{IsSlotCacheOf};
ghost use Rattle.table_memory.specs.OverlayState.{touched_at};
ghost use Rattle.table_memory.specs.Comparing.{FindsChanges};

use crate::boxed::Boxed;
use crate::changed::ChangedSlots;
use crate::slot_cache::{SlotCache, tell_slot};
use disk_model::Disk;
use std::alloc::Global;
use std::collections::BTreeMap;
use store_base::Fault;
use store_model::Slot;

/// Finds the written slots that have other bytes in the table of the disk, which has so many slots. The disk is only
/// read, and what the cache keeps of it is not read again. The written slots are taken one by one, so that their map
/// keeps its memory.
pub fn find_changes<D: Disk>(
    alloc: Global,
    disk: &mut D,
    cache: &mut SlotCache,
    slots: u32,
    written: &mut BTreeMap<u32, Boxed<Slot>>,
) -> Result<ChangedSlots, Fault>
    requires in_range { slots ≤ slots_limit }
    requires size { (D.state disk.old).size ≡ image_len slots }
    requires within { (i : ℕ) (slot : List ℕ)
        → touched_at written.old.entries i ≡ Some slot → i < slots }
    requires filled { (i : ℕ) (slot : List ℕ) → touched_at written.old.entries i ≡ Some slot
        → length slot ≡ block_len }
    requires cached { IsSlotCacheOf slots (D.state disk.old) cache.old }
    ensures call { FindsChanges slots written.old.entries (D.state disk.old)
        (D.state disk.new) cache.new result }
    ensures left { (i : ℕ) (slot : List ℕ) → touched_at written.new.entries i ≡ Some slot
        → touched_at written.old.entries i ≡ Some slot }
{
    let mut changed = Vec::with_capacity(alloc, written.len())?;
    while let Some((at, kept)) = written.pop_first() {
        let is_same: bool = tell_slot(disk, cache, slots, at, kept.get())?;
        if !is_same {
            changed.push((at, kept))?;
        }
    }
    Ok(ChangedSlots { slots: changed })
}
