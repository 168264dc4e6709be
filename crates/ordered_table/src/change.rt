//! Insertion and overwriting.

ghost use Rattle.std.specs.Prelude.{◌≡◌, ◌<◌};
ghost use Rattle.ordered_table.specs.InsertionWays.{Displaces, CarriesOn};
ghost use Rattle.ordered_table.specs.Tables.{Inserts, Overwrites};

use crate::round::next_slot;
use node_pages::{Page, label_in};
use seeded_draw::Draw;
use store_base::{Fault, Label, Slots};
use store_model::{BLOCK, Slot};

/// The way of a page that has no slot yet.
#[derive(Drop)]
struct Way {
    /// The page's label.
    label: Label,
    /// The slot that it comes to next.
    at: u32,
    /// How many slots it may still look at.
    left: u32,
}

/// Takes a page on its way, whose bytes are in `hand`, to the slot where it belongs: a free one, or that of a page
/// of greater label. Where it displaces such a page, that page's bytes are then in `there`, and its way is answered.
///
/// There have to be as many slots as the draw's. A fault of the slots ends the call.
fn displace<S: Slots, W: Draw>(
    slots: &mut S,
    draw: &W,
    hand: &Slot,
    way: &Way,
    there: &mut Slot,
) -> Result<Option<Way>, Fault>
    requires count { (S.ReadSlots.state slots.old).count ≡ (W.drawn draw.now).slots }
    requires below { way.now.at < (S.ReadSlots.state slots.old).count }
    ensures call { Displaces (W.drawn draw.now) (S.ReadSlots.state slots.old)
        (S.ReadSlots.state slots.new) way.now hand.now there.new result }
    ensures follows { S.ReadSlots.follows slots.old slots.new }
{
    let count = draw.slots();
    let mut at = way.at;
    for look in 0..way.left {
        slots.get(at, there)?;
        let Some(other) = label_in(there) else {
            slots.set(at, hand)?;
            return Ok(None);
        };
        let next = next_slot(at, count);
        if way.label < other {
            slots.set(at, hand)?;
            return Ok(Some(Way {
                label: other,
                at: next,
                left: way.left - look - 1,
            }));
        }
        at = next;
    }
    Ok(None)
}

/// Takes a displaced page on its way, whose bytes are in `hand`, and after it each page that is displaced in its
/// turn. The bytes of the pages lie in two buffers by turns, so that none are copied.
///
/// There have to be as many slots as the draw's. A fault of the slots ends the call.
fn carry_on<S: Slots, W: Draw>(
    slots: &mut S,
    draw: &W,
    hand: &mut Slot,
    displaced: Way,
) -> Result<(), Fault>
    requires count { (S.ReadSlots.state slots.old).count ≡ (W.drawn draw.now).slots }
    requires below { displaced.at < (S.ReadSlots.state slots.old).count }
    ensures call { CarriesOn (W.drawn draw.now) (S.ReadSlots.state slots.old)
        (S.ReadSlots.state slots.new) displaced hand.old result }
    ensures follows { S.ReadSlots.follows slots.old slots.new }
{
    let mut spare = [0; BLOCK];
    let mut way = displaced;
    while let Some(onward) = displace(slots, draw, hand, &way, &mut spare)? {
        let Some(further) = displace(slots, draw, &spare, &onward, hand)? else {
            return Ok(());
        };
        way = further;
    }
    Ok(())
}

/// Adds a page to those that the slots hold: they have to have a free slot, and no page of its label.
///
/// The page goes from its start from slot to slot, going round. Where it comes to a page of greater label it takes
/// that page's place, and the displaced page goes on from the next slot; at an empty slot the work ends.
///
/// There have to be as many slots as the draw's. A fault of the slots ends the call; nothing is promised of the
/// slots after it.
pub fn insert<S: Slots, W: Draw>(slots: &mut S, draw: &W, page: &Page) -> Result<(), Fault>
    requires { (S.ReadSlots.state slots.old).count ≡ (W.drawn draw.now).slots }
    ensures call { Inserts (W.drawn draw.now) (S.ReadSlots.state slots.old)
        (S.ReadSlots.state slots.new) page.now result }
    ensures follows { S.ReadSlots.follows slots.old slots.new }
{
    insert_from(slots, draw, draw.start(&page.label()), page)
}

/// As `insert`, from the start of the page's label, so that it need not be drawn again.
pub fn insert_from<S: Slots, W: Draw>(
    slots: &mut S,
    draw: &W,
    start: u32,
    page: &Page,
) -> Result<(), Fault>
    requires count { (S.ReadSlots.state slots.old).count ≡ (W.drawn draw.now).slots }
    requires start { start ≡ (W.drawn draw.now).start page.now.label }
    ensures call { Inserts (W.drawn draw.now) (S.ReadSlots.state slots.old)
        (S.ReadSlots.state slots.new) page.now result }
    ensures follows { S.ReadSlots.follows slots.old slots.new }
{
    let mut there = [0; BLOCK];
    let way = Way {
        label: page.label(),
        at: start,
        left: draw.slots(),
    };
    match displace(slots, draw, page.as_slot(), &way, &mut there)? {
        Some(onward) => carry_on(slots, draw, &mut there, onward),
        None => Ok(()),
    }
}

/// Puts a page in the place of the page of the same label, which slot `at` has to hold.
///
/// There have to be as many slots as the draw's. A fault of the slots ends the call; nothing is promised of the
/// slots after it.
pub fn overwrite<S: Slots, W: Draw>(
    slots: &mut S,
    _draw: &W,
    at: u32,
    page: &Page,
) -> Result<(), Fault>
    requires count { (S.ReadSlots.state slots.old).count ≡ (W.drawn _draw.now).slots }
    requires below { at < (S.ReadSlots.state slots.old).count }
    ensures call { Overwrites (W.drawn _draw.now) (S.ReadSlots.state slots.old)
        (S.ReadSlots.state slots.new) at page.now result }
    ensures follows { S.ReadSlots.follows slots.old slots.new }
{
    slots.set(at, page.as_slot())
}
