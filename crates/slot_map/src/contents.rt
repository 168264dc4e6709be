//! What a slot holds, and the character that stands for it.

ghost use Rattle.std.specs.Prelude.{◌≡◌, ◌↔◌, ◌≤◌, IsTrue, None};
ghost use Rattle.store_model.specs.Images.{slot_bytes};
ghost use Rattle.slot_map.specs.Contents as model;
ghost use Rattle.slot_map.specs.Contents.{Holds, ShowsSlot};

use node_pages::decode_page;
use store_base::{MAX_HEIGHT, Slot, is_zero};

/// What the bytes of a slot are.
#[derive(Clone, Copy)]
pub(crate) enum Content {
    /// All zero: the slot is free.
    Free,
    /// A page of this level, 0 to 7.
    Page(u8),
    /// Anything else, and so no page of a tree.
    Other,
}

/// What a slot holds.
fn content_of(slot: &Slot) -> Content
    ensures { Holds slot.now result }
{
    if is_zero(slot) {
        return Content::Free;
    }
    match decode_page(slot) {
        Some(page) if page.level() < MAX_HEIGHT => Content::Page(page.level()),
        _ => Content::Other,
    }
}

/// The character that stands for it: `.` where it is free, the digit of its page's level, or `?`.
fn character_of(content: Content) -> u8
    requires { model.IsContent content }
    ensures { result ≡ model.character content }
{
    match content {
        Content::Free => b'.',
        Content::Page(level) => b'0' + level,
        Content::Other => b'?',
    }
}

/// The character that stands for what a slot holds.
pub(crate) fn show_slot(slot: &Slot) -> u8
    ensures { ShowsSlot slot.now result }
{
    character_of(content_of(slot))
}
