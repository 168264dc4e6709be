//! Removal.

ghost use Rattle.std.specs.Prelude.{◌≡◌, ◌<◌, ◌↔◌, IsTrue};
ghost use Rattle.shift_remove.specs.Ways.{Passes};
ghost use Rattle.ordered_table.specs.Tables.{Removes};

use node_pages::label_in;
use ordered_table::next_slot;
use seeded_draw::Draw;
use store_base::{Fault, Slots};
use store_model::BLOCK;

/// Whether the way from a start to a slot, going round, passes the hole.
fn passes(start: u32, hole: u32, place: u32) -> bool
    ensures { IsTrue result ↔ Passes start hole place }
{
    if start <= place {
        start <= hole && hole < place
    } else {
        start <= hole || hole < place
    }
}

/// Takes away the page that slot `at` holds.
///
/// Its slot is the first hole. The others are read once each, in probe order from there: where the hole lies on the
/// probe sequence of a page ahead of its slot, the page shifts back into it and leaves a hole of its own. At an
/// empty slot, or with every slot read, the hole that is left is filled with zeros.
///
/// There have to be as many slots as the draw's. A fault of the slots ends the call; nothing is promised of the
/// slots after it.
pub fn remove<S: Slots, W: Draw>(slots: &mut S, draw: &W, at: u32) -> Result<(), Fault>
    requires count { (S.ReadSlots.state slots.old).count ≡ (W.drawn draw.now).slots }
    requires below { at < (S.ReadSlots.state slots.old).count }
    ensures call { Removes (W.drawn draw.now) (S.ReadSlots.state slots.old)
        (S.ReadSlots.state slots.new) at result }
    ensures follows { S.ReadSlots.follows slots.old slots.new }
{
    let count = draw.slots();
    let mut hole = at;
    let mut place = at;
    let mut there = [0; BLOCK];
    for _look in 0..count - 1 {
        place = next_slot(place, count);
        slots.get(place, &mut there)?;
        let Some(label) = label_in(&there) else {
            return slots.set(hole, &[0; BLOCK]);
        };
        if passes(draw.start(&label), hole, place) {
            slots.set(hole, &there)?;
            hole = place;
        }
    }
    slots.set(hole, &[0; BLOCK])
}
