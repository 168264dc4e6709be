//! Search.

ghost use Rattle.std.specs.Prelude.{◌≡◌, ◌<◌};
ghost use Rattle.ordered_table.specs.Tables.{Finds, Looks};

use crate::order::{ByOrder, ByRead, Compare, OrderSlots};
use crate::round::next_slot;
use crate::steps::Steps;
use seeded_draw::Draw;
use std::cmp::Ordering;
use std::sync::ledger::Ledger;
use store_base::{Fault, Label, ReadSlots};

/// Whether slot `at` holds the page of the label. A fault of the slots ends the call; it writes nothing.
///
/// Nothing is drawn: the draw is there for the contract, which tells of a table that is placed by it, and so rests on
/// its law. There have to be as many slots as the draw's.
pub fn holds<S: OrderSlots, W: Draw>(
    slots: &mut S,
    _draw: &W,
    at: u32,
    label: &Label,
) -> Result<bool, Fault>
    requires count { (S.state slots.old).count ≡ (W.drawn _draw.now).slots }
    requires below { at < (S.state slots.old).count }
    ensures call { Looks (W.drawn _draw.now) (S.state slots.old)
        (S.state slots.new) at label.now result }
    ensures follows { S.follows slots.old slots.new }
{
    let Some(order) = slots.order(at, &label.to_bytes())? else {
        return Ok(false);
    };
    Ok(order.is_eq())
}

/// As `find_from`, where the labels in the slots are compared in this way.
fn find_by<S: ReadSlots, C: Compare<S>, W: Draw, L: Ledger>(
    slots: &mut S,
    draw: &W,
    start: u32,
    label: &Label,
    steps: &mut Steps<L>,
) -> Result<Option<u32>, Fault>
    requires count { (S.state slots.old).count ≡ (W.drawn draw.now).slots }
    requires start { start ≡ (W.drawn draw.now).start label.now }
    ensures call { Finds (W.drawn draw.now) (S.state slots.old)
        (S.state slots.new) label.now steps.old steps.new result }
    ensures follows { S.follows slots.old slots.new }
{
    let count = draw.slots();
    let mut at = start;
    let wanted = label.to_bytes();
    for _look in 0..count {
        steps.tick();
        let Some(order) = C::compare(slots, at, &wanted)? else {
            return Ok(None);
        };
        match order {
            Ordering::Less => at = next_slot(at, count),
            Ordering::Equal => return Ok(Some(at)),
            Ordering::Greater => return Ok(None),
        }
    }
    Ok(None)
}

/// Finds the slot that holds the page of the label; `None` exactly where the slots hold no such page.
///
/// From the label's start on, going round, the search ends at the slot that holds the label, at an empty slot, at
/// one that holds a greater label, or when all slots were read. Each slot that is read counts as a step.
///
/// There have to be as many slots as the draw's. After a fault of the slots the search ends with it; it writes
/// nothing.
pub fn find<S: ReadSlots, W: Draw, L: Ledger>(
    slots: &mut S,
    draw: &W,
    label: &Label,
    steps: &mut Steps<L>,
) -> Result<Option<u32>, Fault>
    requires { (S.state slots.old).count ≡ (W.drawn draw.now).slots }
    ensures call { Finds (W.drawn draw.now) (S.state slots.old)
        (S.state slots.new) label.now steps.old steps.new result }
    ensures follows { S.follows slots.old slots.new }
{
    find_by::<S, ByRead, W, L>(slots, draw, draw.start(label), label, steps)
}

/// As `find`, from the label's start, so that it need not be drawn again, and as the slots compare their labels.
pub fn find_from<S: OrderSlots, W: Draw, L: Ledger>(
    slots: &mut S,
    draw: &W,
    start: u32,
    label: &Label,
    steps: &mut Steps<L>,
) -> Result<Option<u32>, Fault>
    requires count { (S.state slots.old).count ≡ (W.drawn draw.now).slots }
    requires start { start ≡ (W.drawn draw.now).start label.now }
    ensures call { Finds (W.drawn draw.now) (S.state slots.old)
        (S.state slots.new) label.now steps.old steps.new result }
    ensures follows { S.follows slots.old slots.new }
{
    find_by::<S, ByOrder, W, L>(slots, draw, start, label, steps)
}
