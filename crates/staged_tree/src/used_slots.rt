//! The slots of a layout that hold a page, as changes of a table in which no slot does.

ghost use Rattle.std.specs.Prelude.{◌≡◌, ◌<◌, IfOk, length};
ghost use Rattle.std.specs.List.{AllByRecursion};
ghost use Rattle.store_model.specs.Pages.{IsPage};
ghost use Rattle.store_model.specs.Placement.{pages_in};
ghost use Rattle.staged_tree.specs.UsedSlots.{used_changes, AreUsed};

use gate_journal::SlotChanges;
use layout_scratch::Layout;
use std::alloc::Global;
use store_base::{NoMemory, Slot};

/// The slots of a layout that hold a page, each with its bytes there: none is kept twice.
pub struct UsedSlots<'a> {
    layout: &'a Layout,
    /// Their numbers.
    numbers: Vec<u32>,
    pub ghost used: { AreUsed layout.now (length layout.now) numbers.items },
    pub ghost few: { length numbers.items < 4294967296 },
}

impl<'a> UsedSlots<'a> {
    /// Finds the slots that hold a page, in a layout of so many slots.
    pub fn of(alloc: Global, layout: &'a Layout, slots: u32) -> Result<Self, NoMemory>
        requires length { length layout.now ≡ slots }
        requires pages { AllByRecursion IsPage (pages_in layout.now) }
        ensures { IfOk result (λ changes. changes.layout.now ≡ layout.now) }
    {
        let mut numbers = Vec::new(alloc);
        for at in 0..slots {
            if layout.look(at).is_some() {
                numbers.push(at)?;
            }
        }
        Ok(UsedSlots { layout, numbers })
    }
}

impl SlotChanges for UsedSlots<'_> {
    ghost changes = { λ used. used_changes used.layout.now used.numbers.items };

    fn count(&self) -> u32 {
        self.numbers.len() as u32
    }

    fn number(&self, k: u32) -> u32 {
        self.numbers[k as usize]
    }

    fn change(&self, k: u32, bytes: &mut Slot) -> u32 {
        let at = self.number(k);
        self.layout.slot(at, bytes);
        at
    }
}

impl Drop for UsedSlots<'_> {
    fn drop(self) {
        let UsedSlots {
            layout: _,
            numbers: _,
        } = self;
    }
}
