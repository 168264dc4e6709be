//! What a slot holds.

ghost use Rattle.table_walk.specs.Contents.{TellsContent};

use node_pages::page_label;
use store_base::{Label, Slot, is_zero};

/// What a slot may hold.
#[derive(Clone, Copy)]
pub(crate) enum Content {
    /// Nothing: it is all zero.
    Free,
    /// A page of this label, whose level is below the height.
    Held(Label),
    /// What no slot of a table holds.
    Other,
}

/// What a slot holds, in a table of lists of this height.
pub(crate) fn content_of(slot: &Slot, height: u8) -> Content
    ensures { TellsContent slot.now height result }
{
    if is_zero(slot) {
        return Content::Free;
    }
    match page_label(slot) {
        Some(label) if label.level < height => Content::Held(label),
        _ => Content::Other,
    }
}
