//! The slot of the page of a label.

ghost use Rattle.std.specs.Prelude.{◌≡◌, ◌<◌};
ghost use Rattle.page_store.specs.Lookups.{Locates, LocatesAgain};

use ordered_table::{OrderSlots, Steps, find_from, holds};
use seeded_draw::Draw;
use std::marker::Brand;
use std::sync::ledger::{Blank, Ledger};
use store_base::{Fault, Label};
use table_memory::Finder;

/// As `locate`, from the start of the label, with a ledger for the steps.
fn locate_counted<S: OrderSlots, W: Draw, L: Ledger>(
    slots: &mut S,
    draw: &W,
    start: u32,
    label: &Label,
    blank: Blank,
) -> Result<Option<u32>, Fault>
    requires name { blank.name ≡ L.name }
    requires parts { blank.parts ≡ L.parts }
    requires some { 0 < L.parts }
    requires count { (S.state slots.old).count ≡ (W.drawn draw.now).slots }
    requires start { start ≡ (W.drawn draw.now).start label.now }
    ensures call { Locates (W.drawn draw.now) (S.state slots.old)
        (S.state slots.new) label.now result }
    ensures follows { S.follows slots.old slots.new }
{
    find_from(slots, draw, start, label, &mut Steps::<L>::new(blank))
}

/// Looks into the slot where the page of the label was found last, and gives it if it still holds the page. `None`
/// tells nothing.
fn locate_again<S: OrderSlots, W: Draw>(
    slots: &mut S,
    finder: &Finder<W>,
    label: &Label,
) -> Result<Option<u32>, Fault>
    requires { (S.state slots.old).count ≡ (W.drawn finder.now.draw).slots }
    ensures call { LocatesAgain (W.drawn finder.now.draw) (S.state slots.old)
        (S.state slots.new) label.now result }
    ensures follows { S.follows slots.old slots.new }
{
    let at = finder.hint(label);
    if at >= finder.draw.slots() {
        return Ok(None);
    }
    if holds(slots, &finder.draw, at, label)? {
        return Ok(Some(at));
    }
    Ok(None)
}

/// Finds the slot that holds the page of the label; `None` exactly where the slots hold no such page. It looks first
/// where the page was found last, and searches only if it is not there.
pub fn locate<S: OrderSlots, W: Draw>(
    slots: &mut S,
    finder: &mut Finder<W>,
    label: &Label,
) -> Result<Option<u32>, Fault>
    requires { (S.state slots.old).count ≡ (W.drawn finder.old.draw).slots }
    ensures call { Locates (W.drawn finder.old.draw) (S.state slots.old)
        (S.state slots.new) label.now result }
    ensures follows { S.follows slots.old slots.new }
    ensures draw { finder.new.draw ≡ finder.old.draw }
{
    if let Some(at) = locate_again(slots, finder, label)? {
        return Ok(Some(at));
    }
    let start = finder.start(label);
    let found = locate_counted::<S, W, Brand>(slots, &finder.draw, start, label, Blank::new(1))?;
    finder.keep(label, found);
    Ok(found)
}
