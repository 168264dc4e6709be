//! How changes are carried out on the slots of a table.

ghost use Rattle.std.specs.Prelude.{◌≡◌};
ghost use Rattle.std.specs.BTreeMap.{IsOrdered, values};
ghost use Rattle.store_model.specs.Labels.{label_cmp};
ghost use Rattle.page_store.specs.Carrying.{TakesPage, LaysPage, TakesPages, LaysPages, LaysChanges};

use crate::changes::Changes;
use crate::locate::locate;
use node_pages::Page;
use ordered_table::{OrderSlots, insert_from, overwrite};
use seeded_draw::Draw;
use shift_remove::remove;
use store_base::{Fault, Label, Slots};
use table_memory::Finder;

/// Takes the page of the label away from the slots, if they hold one. A fault of the slots ends the call; nothing is
/// promised of the slots after it.
fn take_page<S: Slots + OrderSlots, W: Draw>(
    slots: &mut S,
    finder: &mut Finder<W>,
    label: &Label,
) -> Result<(), Fault>
    requires { (S.ReadSlots.state slots.old).count ≡ (W.drawn finder.old.draw).slots }
    ensures call { TakesPage (W.drawn finder.old.draw) (S.ReadSlots.state slots.old)
        (S.ReadSlots.state slots.new) label.now result }
    ensures follows { S.ReadSlots.follows slots.old slots.new }
    ensures draw { finder.new.draw ≡ finder.old.draw }
{
    match locate(slots, finder, label)? {
        Some(at) => remove(slots, &finder.draw, at),
        None => Ok(()),
    }
}

/// Lays a page into the slots, in the place of the page with its label. Where they hold no such page, a slot has to
/// be free. A fault of the slots ends the call; nothing is promised of the slots after it.
fn lay_page<S: Slots + OrderSlots, W: Draw>(
    slots: &mut S,
    finder: &mut Finder<W>,
    page: &Page,
) -> Result<(), Fault>
    requires { (S.ReadSlots.state slots.old).count ≡ (W.drawn finder.old.draw).slots }
    ensures call { LaysPage (W.drawn finder.old.draw) (S.ReadSlots.state slots.old)
        (S.ReadSlots.state slots.new) page.now result }
    ensures follows { S.ReadSlots.follows slots.old slots.new }
    ensures draw { finder.new.draw ≡ finder.old.draw }
{
    let label = page.label();
    match locate(slots, finder, &label)? {
        Some(at) => overwrite(slots, &finder.draw, at, page),
        None => {
            let start = finder.start(&label);
            // A new page mostly comes to its start.
            finder.keep(&label, Some(start));
            insert_from(slots, &finder.draw, start, page)
        }
    }
}

/// Takes away the pages whose labels the changes leave without one. A fault of the slots ends the call; nothing is
/// promised of the slots after it.
fn take_pages<S: Slots + OrderSlots, W: Draw>(
    slots: &mut S,
    finder: &mut Finder<W>,
    changes: &Changes,
) -> Result<(), Fault>
    requires { (S.ReadSlots.state slots.old).count ≡ (W.drawn finder.old.draw).slots }
    ensures call { TakesPages (W.drawn finder.old.draw) (S.ReadSlots.state slots.old)
        (S.ReadSlots.state slots.new) changes.now.pages.entries result }
    ensures ordered { IsOrdered label_cmp changes.now.pages }
    ensures follows { S.ReadSlots.follows slots.old slots.new }
    ensures draw { finder.new.draw ≡ finder.old.draw }
{
    for (label, change) in &changes.pages {
        if change.is_none() {
            take_page(slots, finder, label)?;
        }
    }
    Ok(())
}

/// Lays the pages of the changes into the slots. With all of them there may be no more pages than slots. A fault of
/// the slots ends the call; nothing is promised of the slots after it.
fn lay_pages<S: Slots + OrderSlots, W: Draw>(
    slots: &mut S,
    finder: &mut Finder<W>,
    changes: &Changes,
) -> Result<(), Fault>
    requires { (S.ReadSlots.state slots.old).count ≡ (W.drawn finder.old.draw).slots }
    ensures call { LaysPages (W.drawn finder.old.draw) (S.ReadSlots.state slots.old)
        (S.ReadSlots.state slots.new)
        (values changes.now.pages) result }
    ensures follows { S.ReadSlots.follows slots.old slots.new }
    ensures draw { finder.new.draw ≡ finder.old.draw }
{
    for change in changes.pages.values() {
        if let Some(page) = change {
            lay_page(slots, finder, page.get())?;
        }
    }
    Ok(())
}

/// Carries the changes out: takes away the pages that go, and then lays in those that come, so that the slots never
/// hold more pages than before the call or after it. A fault of the slots ends the call; nothing is promised of the
/// slots after it.
pub fn lay_changes<S: Slots + OrderSlots, W: Draw>(
    slots: &mut S,
    finder: &mut Finder<W>,
    changes: &Changes,
) -> Result<(), Fault>
    requires { (S.ReadSlots.state slots.old).count ≡ (W.drawn finder.old.draw).slots }
    ensures call { LaysChanges (W.drawn finder.old.draw) (S.ReadSlots.state slots.old)
        (S.ReadSlots.state slots.new) changes.now.pages.entries result }
    ensures follows { S.ReadSlots.follows slots.old slots.new }
    ensures draw { finder.new.draw ≡ finder.old.draw }
{
    take_pages(slots, finder, changes)?;
    lay_pages(slots, finder, changes)
}
