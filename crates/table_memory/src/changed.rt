//! Slots of a table that a settle commits.

ghost use Rattle.std.specs.Prelude.{◌≡◌, ◌<◌, length};
ghost use Rattle.table_memory.specs.SlotCaches.{changes_of};

use crate::boxed::Boxed;
use gate_journal::SlotChanges;
use store_model::Slot;

/// Slots of a table, each with its new bytes.
#[derive(Drop)]
pub struct ChangedSlots {
    /// The slots, each with its number.
    pub slots: Vec<(u32, Boxed<Slot>)>,
    pub ghost few: { length slots.items < 4294967296 },
}

impl SlotChanges for ChangedSlots {
    ghost changes = { λ c. changes_of c.slots.items };

    fn count(&self) -> u32 {
        self.slots.len() as u32
    }

    fn number(&self, k: u32) -> u32 {
        self.slots[k as usize].0
    }

    fn change(&self, k: u32, bytes: &mut Slot) -> u32 {
        let (at, kept) = &self.slots[k as usize];
        bytes.copy_from_slice(kept.get());
        *at
    }
}
