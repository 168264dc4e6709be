//! The check of slots.

ghost use Rattle.std.specs.Prelude.{◌≡◌, ◌≤◌, ◌<◌, ℕ, Some, None, length, take, IfOk, IfSome};
ghost use Rattle.seeded_draw.specs.AnyDrawn.{any_draw, any_digest};
ghost use Rattle.table_walk.specs.Indexes.{IsIndexOf};
ghost use Rattle.image_check.specs.SlotCalls.{FindsContents, ChecksSlots};
ghost use Rattle.image_check.specs.Orders.{FindsOrder};

use crate::contents::Contents;
use crate::pairs::TreePairs;
use crate::verdict::{Verdict, contents_of, verdict_of};
use ordered_table::Steps;
use seeded_draw::AnyDraw;
use std::marker::Brand;
use std::sync::ledger::{Blank, Ledger};
use store_base::{Fault, MAX_SLOTS, Params, ReadSlots};
use table_walk::{Entry, check_order, walk_groups};

/// How many pages slots hold that are a table in order, with pages of levels below the height; `None` exactly where
/// they are not. Where it counts pages it leaves an index of them in the first entries, one for each page.
///
/// There has to be an entry for each slot at least. A fault of the slots is handed on.
fn count_pages<S: ReadSlots, L: Ledger>(
    slots: &mut S,
    draw: &AnyDraw,
    height: u8,
    entries: &mut [Entry],
    steps: &mut Steps<L>,
) -> Result<Option<u32>, Fault>
    requires count { (S.state slots.old).count ≡ (any_draw draw.now).slots }
    requires most { (any_draw draw.now).slots ≤ MAX_SLOTS }
    requires room { (any_draw draw.now).slots ≤ length entries.old }
    ensures call { FindsOrder (any_draw draw.now) height (S.state slots.old)
        (S.state slots.new) result }
    ensures index { IfOk result
        (λ found. IfSome found
        (λ used. IsIndexOf (any_digest draw.now) (S.state slots.old) (take used entries.new))) }
    ensures follows { S.follows slots.old slots.new }
{
    check_order(slots, draw, height, entries, steps)
}

/// As `find_contents`, with a ledger for the steps of the check.
// A megabyte of entries is on the stack while it runs, and not in the frame of whoever calls it.
#[inline(never)]
fn find_by<S: ReadSlots, L: Ledger>(
    slots: &mut S,
    params: &Params,
    blank: Blank,
) -> Result<Option<Contents>, Fault>
    requires name { blank.name ≡ L.name }
    requires parts { blank.parts ≡ L.parts }
    requires some { 0 < L.parts }
    requires count { (S.state slots.old).count ≡ params.now.slots }
    ensures call { FindsContents params.now (S.state slots.old) (S.state slots.new) result }
    ensures follows { S.follows slots.old slots.new }
{
    let mut steps = Steps::<L>::new(blank);
    let draw = AnyDraw::new(params);
    let mut entries = [Entry::BLANK; MAX_SLOTS as usize];
    let Some(used) = count_pages(slots, &draw, params.height(), &mut entries, &mut steps)? else {
        return Ok(None);
    };
    let mut pairs = TreePairs::new(params.version());
    if !walk_groups(
        slots,
        &draw,
        &entries[..used as usize],
        used,
        &mut pairs,
        &mut steps,
    )? {
        return Ok(None);
    }
    let Some(counts) = pairs.counts() else {
        return Ok(None);
    };
    Ok(Some(Contents {
        params: *params,
        used,
        counts,
    }))
}

/// Finds what slots hold: `None` exactly where they are the layout of no tree. There have to be as many slots as the
/// parameters say. A fault of the slots is handed on, and the slots are as they were. It takes no memory itself.
pub fn find_contents<S: ReadSlots>(
    slots: &mut S,
    params: &Params,
) -> Result<Option<Contents>, Fault>
    requires { (S.state slots.old).count ≡ params.now.slots }
    ensures call { FindsContents params.now (S.state slots.old) (S.state slots.new) result }
    ensures follows { S.follows slots.old slots.new }
{
    find_by::<S, Brand>(slots, params, Blank::new(1))
}

/// Checks slots: `Clean` exactly where they are the layout of a tree, and else `Damaged`; it never answers `NotImage`.
/// There have to be as many slots as the parameters say. A fault of the slots is handed on, and the slots are as they
/// were. It takes no memory itself.
pub fn check_slots<S: ReadSlots>(slots: &mut S, params: &Params) -> Result<Verdict, Fault>
    requires { (S.state slots.old).count ≡ params.now.slots }
    ensures call { ChecksSlots params.now (S.state slots.old) (S.state slots.new) result }
    ensures follows { S.follows slots.old slots.new }
{
    verdict_of(contents_of(find_contents(slots, params)))
}
