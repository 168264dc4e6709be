//! Compares the label of the page in a slot with other bytes, in place: the slot is not copied.

ghost use Rattle.ordered_table.specs.Tables.{TellsOrder};

use ordered_table::order_of;
use std::cmp::Ordering;
use store_model::Slot;
use table_memory::Told;

/// The order of the label of the page in a slot and the bytes of another; `None` for a free slot.
pub struct LabelOrder {
    /// How it stands.
    pub order: Option<Ordering>,
}

impl Told for LabelOrder {
    ghost of = { λ slot wanted told. TellsOrder slot wanted told.order };

    fn tell(slot: &Slot, wanted: &[u8]) -> Self {
        LabelOrder {
            order: order_of(slot, wanted),
        }
    }
}
