//! The check.

ghost use Rattle.std.specs.Prelude.{◌≡◌, ◌≤◌, ◌<◌, length, take, IfOk, IfSome};
ghost use Rattle.table_walk.specs.Indexes.{IsIndexOf, AreNoted, IsSortOf};
ghost use Rattle.table_walk.specs.OrderCalls.{ChecksOrder};
ghost use Rattle.table_walk.specs.Rounds.{ChecksRound};

use crate::bar::find_bar;
use crate::content::Content;
use crate::fronts::Fronts;
use crate::round::{Round, way_between};
use crate::way::{Standing, passed_from};
use crate::window::Window;
use crate::{Entry, sort_entries};
use ordered_table::{Steps, next_slot};
use seeded_draw::Draw;
use std::sync::ledger::Ledger;
use store_base::{Fault, MAX_SLOTS, ReadSlots};
use store_model::BLOCK;

/// As `check_order`, on a round behind a slot that no page passes; the entries are in no order.
fn check_round<S: ReadSlots, W: Draw, L: Ledger>(
    slots: &mut S,
    draw: &W,
    height: u8,
    round: &Round,
    entries: &mut [Entry],
    steps: &mut Steps<L>,
) -> Result<Option<u32>, Fault>
    requires count { (S.state slots.old).count ≡ (W.drawn draw.now).slots }
    requires round { round.now.count ≡ (W.drawn draw.now).slots }
    requires most { (W.drawn draw.now).slots ≤ MAX_SLOTS }
    requires room { (W.drawn draw.now).slots ≤ length entries.old }
    ensures call { ChecksRound (W.drawn draw.now) height round.now (S.state slots.old)
        (S.state slots.new) steps.old steps.new result }
    ensures noted { IfOk result
        (λ found. IfSome found
        (λ used. AreNoted (W.digests draw.now) (S.state slots.old) (take used entries.new))) }
    ensures follows { S.follows slots.old slots.new }
{
    let mut window = Window::new();
    let mut there = [0; BLOCK];
    // Of the page at each place, from which place on the labels up to its own are known to be smaller.
    let mut reach = [0; MAX_SLOTS as usize];
    // The place behind the last free slot.
    let mut run = 0;
    let mut used = 0;
    let mut fronts = Fronts::new();
    for place in 0..round.count {
        let at = round.slot(place);
        steps.tick();
        let label = match window.content(slots, round.count, at, height)? {
            Content::Free => {
                run = place + 1;
                continue;
            }
            Content::Held(label) => label,
            Content::Other => return Ok(None),
        };
        steps.tick();
        let digest = fronts.digest(draw, &label);
        let way = way_between(draw.start_by(&label, digest), at, round.count);
        if place - run < way {
            return Ok(None);
        }
        let page = Standing { label, place, way };
        let Some(from) = passed_from(slots, round, &page, &reach, &window, &mut there, steps)?
        else {
            return Ok(None);
        };
        reach[place as usize] = from as u16;
        entries[used as usize] = Entry::new(digest, at);
        used += 1;
    }
    Ok(Some(used))
}

/// Sorts the entries that a check noted, if it counted some.
fn sort_noted(entries: &mut [Entry], found: &Result<Option<u32>, Fault>)
    requires { IfOk found.now (λ found. IfSome found (λ used. used ≤ length entries.old)) }
    ensures { IfOk found.now (λ found. IfSome found
        (λ used. IsSortOf (take used entries.old) (take used entries.new))) }
{
    if let Ok(Some(used)) = found {
        sort_entries(&mut entries[..*used as usize]);
    }
}

/// Counts the pages that the slots hold, where each slot is all zero or a page, each page's level is below the
/// height, and the pages are in order; `None` exactly where that is not so.
///
/// Where it counts pages it leaves an index of them in the first entries, one for each page, by the draw's digests of
/// their labels. So each label is digested once, for its start and for the index.
///
/// Each look at a slot and each start that is drawn counts as a step: they are at most four for each slot. One read may
/// serve several looks.
///
/// There have to be as many slots as the draw's, at most `MAX_SLOTS`, and an entry for each at least. A fault of the
/// slots ends the call, and the slots are as they were. The call takes no memory, so want of memory comes only from
/// slots that may take some.
pub fn check_order<S: ReadSlots, W: Draw, L: Ledger>(
    slots: &mut S,
    draw: &W,
    height: u8,
    entries: &mut [Entry],
    steps: &mut Steps<L>,
) -> Result<Option<u32>, Fault>
    requires count { (S.state slots.old).count ≡ (W.drawn draw.now).slots }
    requires most { (W.drawn draw.now).slots ≤ MAX_SLOTS }
    requires room { (W.drawn draw.now).slots ≤ length entries.old }
    ensures call { ChecksOrder (W.drawn draw.now) height (S.state slots.old)
        (S.state slots.new) steps.old steps.new result }
    ensures index { IfOk result
        (λ found. IfSome found
        (λ used. IsIndexOf (W.digests draw.now) (S.state slots.old) (take used entries.new))) }
    ensures follows { S.follows slots.old slots.new }
{
    let count = draw.slots();
    let bar = find_bar(slots, count, steps)?;
    let round = Round {
        first: next_slot(bar, count),
        count,
    };
    let found = check_round(slots, draw, height, &round, entries, steps);
    sort_noted(entries, &found);
    found
}
