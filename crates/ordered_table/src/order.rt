//! How the label in a slot stands to another one.

ghost use Rattle.std.specs.Prelude.{◌<◌};
ghost use Rattle.ordered_table.specs.Tables.{Orders, TellsOrder};

use std::cmp::Ordering;
use store_base::{Fault, ReadSlots, byte_order};
use store_model::{BLOCK, Slot};

/// Where the bytes of the label begin in the slot of a page, and where they end.
const LABEL_AT: usize = 1;

const LABEL_END: usize = 131;

/// How the label of the page in a slot stands to the one of these bytes; `None` for a free slot. No label is decoded,
/// and the cells are not looked at.
pub fn order_of(slot: &Slot, wanted: &[u8]) -> Option<Ordering>
    ensures { TellsOrder slot.now wanted.now result }
{
    if slot[0] != 1 {
        return None;
    }
    Some(byte_order(&slot[LABEL_AT..LABEL_END], wanted))
}

/// Slots whose labels can be compared.
pub trait OrderSlots: ReadSlots + Sized {
    /// How the label of the page in slot `at` stands to the one of these bytes; `None` for a free slot. After a fault
    /// the slots are as they were.
    ///
    /// Slots that lie in memory need not copy theirs for it.
    fn order(&mut self, at: u32, wanted: &[u8; 130]) -> Result<Option<Ordering>, Fault>
        requires { at < (Self.state self.old).count }
        ensures call { Orders (Self.state self.old) (Self.state self.new) at wanted.now result }
        ensures follows { Self.follows self.old self.new }
    {
        ByRead::compare(self, at, wanted)
    }
}

/// A way to compare the label in a slot with other bytes.
pub(crate) trait Compare<S: ReadSlots> {
    /// How the label of the page in slot `at` stands to the one of these bytes; `None` for a free slot.
    fn compare(slots: &mut S, at: u32, wanted: &[u8; 130]) -> Result<Option<Ordering>, Fault>
        requires { at < (S.state slots.old).count }
        ensures call { Orders (S.state slots.old) (S.state slots.new) at wanted.now result }
        ensures follows { S.follows slots.old slots.new };
}

/// By reading the slot.
pub(crate) struct ByRead;

impl<S: ReadSlots> Compare<S> for ByRead {
    fn compare(slots: &mut S, at: u32, wanted: &[u8; 130]) -> Result<Option<Ordering>, Fault> {
        let mut there = [0; BLOCK];
        slots.get(at, &mut there)?;
        Ok(order_of(&there, wanted))
    }
}

/// As the slots do it.
pub(crate) struct ByOrder;

impl<S: OrderSlots> Compare<S> for ByOrder {
    fn compare(slots: &mut S, at: u32, wanted: &[u8; 130]) -> Result<Option<Ordering>, Fault> {
        slots.order(at, wanted)
    }
}
