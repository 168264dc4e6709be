//! The page of a label in a slot.

ghost use Rattle.std.specs.Prelude.{◌≡◌, ◌<◌, Some, IfSome};
ghost use Rattle.store_model.specs.Pages as model;
ghost use Rattle.store_model.specs.Pages.{IsPage};
ghost use Rattle.store_model.specs.Images.{slot_bytes};
ghost use Rattle.table_walk.specs.IndexLookups.{ReadsPage, answer_of};

use node_pages::{Page, decode_page, label_in};
use store_base::{Fault, Label, ReadSlots};
use store_model::Slot;

/// Sets `found` to the page of the label where the slot holds it, and else to `None`.
fn page_of_label(slot: &Slot, label: &Label, found: &mut Option<Page>)
    ensures label { IfSome found.new (λ page. page.label ≡ label.now) }
    ensures found { IfSome found.new (λ page. IsPage page × (slot.now ≡ slot_bytes (Some page))) }
    ensures only { (page : model.Page) → IsPage page → slot.now ≡ slot_bytes (Some page)
        → page.label ≡ label.now → found.new ≡ Some page }
{
    // Each arm writes to `found` itself: the value of the `match` would be one more copy of a page.
    match label_in(slot) {
        Some(held) if held == *label => *found = decode_page(slot),
        _ => *found = None,
    }
}

/// The same of slot `at`, which is read into the buffer. A fault of the slots ends the call, and `found` may then be
/// anything. It writes nothing.
pub(crate) fn page_in<S: ReadSlots>(
    slots: &mut S,
    at: u32,
    label: &Label,
    slot: &mut Slot,
    found: &mut Option<Page>,
) -> Result<(), Fault>
    requires { at < (S.state slots.old).count }
    ensures call { ReadsPage (S.state slots.old)
        (S.state slots.new) at label.now (answer_of result found.new) }
    ensures follows { S.follows slots.old slots.new }
{
    slots.get(at, slot)?;
    page_of_label(slot, label, found);
    Ok(())
}
