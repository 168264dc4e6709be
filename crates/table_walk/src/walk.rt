//! The walk down from the start of each level.

ghost use Rattle.std.specs.Prelude.{◌≡◌, ◌↔◌, ◌⊎◌, ℕ, ◌+◌, ◌*◌, ◌<◌, ◌≤◌, IsTrue};
ghost use Rattle.store_base.specs.Leads.{model_lead};
ghost use Rattle.node_pages.specs.CellRefs.{cell_of};
ghost use Rattle.table_walk.specs.Indexes.{IsIndexOf, AreFewAlike};
ghost use Rattle.table_walk.specs.Costs.{TakesSteps, vain_of};
ghost use Rattle.table_walk.specs.Walked.{IsInPlace, IsStart};
ghost use Rattle.table_walk.specs.Streams.{IsAbove, progress};
ghost use Rattle.table_walk.specs.Walks.{WalksGroup, WalksCells, WalksCell, WalksTable};

use crate::Entry;
use crate::guide::Guide;
use crate::lookup::look_up;
use crate::progress::Progress;
use crate::sink::TakesPairs;
use node_pages::{CellRef, Page};
use ordered_table::Steps;
use seeded_draw::{Draw, Front};
use skip_groups::{is_last, label_in_group};
use std::sync::ledger::Ledger;
use store_base::{Fault, Key, Label, Lead, ReadSlots};

/// Whether the key of cell `i` of a page belongs there: the first cell of a group that a key leads is the leader's, and
/// every other key ends on the level of the page.
fn is_in_place<W: Draw>(draw: &W, label: &Label, i: u32, key: &Key, front: &mut Front) -> bool
    ensures { IsTrue result
        ↔ IsInPlace (W.drawn draw.now) label.now.level label.now.lead label.now.index i key.now }
{
    match label.lead {
        Lead::Key(leader) if label.index == 0 && i == 0 => leader == *key,
        _ => draw.level_from(front, key) == label.level,
    }
}

/// Whether a key is above the last one, if there is one.
fn is_above(last: &Option<Key>, key: &Key) -> bool
    ensures { IsTrue result ↔ IsAbove last.now key.now }
{
    match last {
        Some(last) => last < key,
        None => true,
    }
}

/// Whether the key of cell `i` of a page belongs there, behind the last key.
fn is_next<W: Draw>(
    draw: &W,
    label: &Label,
    i: u32,
    key: &Key,
    last: &Option<Key>,
    front: &mut Front,
) -> bool
    ensures { IsTrue result
        ↔ (IsInPlace (W.drawn draw.now)
        label.now.level label.now.lead label.now.index i key.now
        × IsAbove last.now key.now) }
{
    is_in_place(draw, label, i, key, front) && is_above(last, key)
}

/// Whether a group may have so many runs: one that a key leads has some.
fn may_end(lead: &Lead, runs: u32) -> bool
    ensures { IsTrue result ↔ ((0 < runs) ⊎ IsStart (model_lead lead.now)) }
{
    match lead {
        Lead::Start => true,
        Lead::Key(_) => runs > 0,
    }
}

/// Goes down from a cell of the level to the group that it leads on the level below, and on level 0 hands its pair on.
/// Each label that is looked for counts as a step, and so does each look at a slot.
#[cycle(walk)]
fn walk_cell<S: ReadSlots, W: Draw, P: TakesPairs, L: Ledger>(
    slots: &mut S,
    guide: &Guide<'_, W>,
    level: u8,
    cell: &CellRef<'_>,
    met: &mut Progress,
    sink: &mut P,
    steps: &mut Steps<L>,
) -> Result<bool, Fault>
    requires count { (S.state slots.old).count ≡ (W.drawn guide.now.draw.now).slots }
    requires index { IsIndexOf (W.digests guide.now.draw.now)
        (S.state slots.old) guide.now.entries.now }
    ensures call { WalksCell (W.drawn guide.now.draw.now) (S.state slots.old)
        (S.state slots.new) level
        (cell_of cell.now) (progress met.old.left met.old.last)
        (progress met.new.left met.new.last)
        (P.took sink.old) (P.took sink.new) result }
    ensures steps { TakesSteps guide.now.entries.now steps.old steps.new met.old.left
        met.new.left 0 result }
    ensures follows { S.follows slots.old slots.new }
    ensures keeps { P.keeps sink.old sink.new }
{
    if level > 0 {
        return walk_group(
            slots,
            guide,
            level - 1,
            &Lead::Key(cell.key),
            met,
            sink,
            steps,
        );
    }
    let Some(value) = cell.value else {
        return Ok(false);
    };
    sink.take(&cell.key, value);
    met.last = Some(cell.key);
    Ok(true)
}

/// Walks over the cells of a page, and all below them.
#[cycle(walk)]
fn walk_cells<S: ReadSlots, W: Draw, P: TakesPairs, L: Ledger>(
    slots: &mut S,
    guide: &Guide<'_, W>,
    page: &Page,
    met: &mut Progress,
    sink: &mut P,
    steps: &mut Steps<L>,
) -> Result<bool, Fault>
    requires count { (S.state slots.old).count ≡ (W.drawn guide.now.draw.now).slots }
    requires index { IsIndexOf (W.digests guide.now.draw.now)
        (S.state slots.old) guide.now.entries.now }
    ensures call { WalksCells (W.drawn guide.now.draw.now) (S.state slots.old)
        (S.state slots.new) page.now (progress met.old.left met.old.last)
        (progress met.new.left met.new.last)
        (P.took sink.old) (P.took sink.new) result }
    ensures steps { TakesSteps guide.now.entries.now steps.old steps.new met.old.left
        met.new.left 0 result }
    ensures follows { S.follows slots.old slots.new }
    ensures keeps { P.keeps sink.old sink.new }
{
    let label = page.label();
    for i in 0..page.len() {
        let cell = page.cell_ref(i);
        if !is_next(guide.draw, &label, i, &cell.key, &met.last, &mut met.front) {
            return Ok(false);
        }
        if !walk_cell(slots, guide, page.level(), &cell, met, sink, steps)? {
            return Ok(false);
        }
    }
    Ok(true)
}

/// Walks over the group that `lead` leads on the level, and all below it. Each run is looked for behind a full one; a
/// group that a key leads has to be there.
#[cycle(walk)]
fn walk_group<S: ReadSlots, W: Draw, P: TakesPairs, L: Ledger>(
    slots: &mut S,
    guide: &Guide<'_, W>,
    level: u8,
    lead: &Lead,
    met: &mut Progress,
    sink: &mut P,
    steps: &mut Steps<L>,
) -> Result<bool, Fault>
    requires count { (S.state slots.old).count ≡ (W.drawn guide.now.draw.now).slots }
    requires index { IsIndexOf (W.digests guide.now.draw.now)
        (S.state slots.old) guide.now.entries.now }
    ensures call { WalksGroup (W.drawn guide.now.draw.now) (S.state slots.old)
        (S.state slots.new) level
        (model_lead lead.now) (progress met.old.left met.old.last)
        (progress met.new.left met.new.last)
        (P.took sink.old) (P.took sink.new) result }
    ensures steps { TakesSteps guide.now.entries.now steps.old steps.new met.old.left
        met.new.left (vain_of (model_lead lead.now)) result }
    ensures follows { S.follows slots.old slots.new }
    ensures keeps { P.keeps sink.old sink.new }
{
    let mut index = 0;
    'runs: loop {
        let label = label_in_group(level, lead, index);
        steps.tick();
        let mut found = None;
        look_up(
            slots,
            guide,
            &label,
            &mut met.label_front,
            &mut met.slot,
            &mut found,
            steps,
        )?;
        let Some(page) = &found else {
            return Ok(may_end(lead, index));
        };
        if met.left == 0 {
            return Ok(false);
        }
        met.left -= 1;
        if !walk_cells(slots, guide, page, met, sink, steps)? {
            return Ok(false);
        }
        if is_last(level, page) {
            return Ok(true);
        }
        index += 1;
    }
}

/// Walks down from the start of each level, and says whether all pages of a table, so many, are met on the way and
/// meet the conditions. It hands the pairs of level 0 on, in the order of their keys.
///
/// Each label that it looks for counts as a step, and so does each look at a slot. These are at most twice the pages
/// and once the levels, times one more than entries have one digest.
///
/// There have to be as many slots as the draw's, and the entries have to be an index of the pages in them, by the
/// draw's digests. A fault of the slots ends the call; it writes nothing.
pub fn walk_groups<S: ReadSlots, W: Draw, P: TakesPairs, L: Ledger>(
    slots: &mut S,
    draw: &W,
    entries: &[Entry],
    used: u32,
    sink: &mut P,
    steps: &mut Steps<L>,
) -> Result<bool, Fault>
    requires count { (S.state slots.old).count ≡ (W.drawn draw.now).slots }
    requires index { IsIndexOf (W.digests draw.now) (S.state slots.old) entries.now }
    ensures call { WalksTable (W.drawn draw.now) (S.state slots.old)
        (S.state slots.new) used (P.took sink.old)
        (P.took sink.new) result }
    ensures steps { (most : ℕ) → AreFewAlike entries.now most
        → steps.new ≤ steps.old + (2 * used + (W.drawn draw.now).height) * (1 + most) }
    ensures follows { S.follows slots.old slots.new }
    ensures keeps { P.keeps sink.old sink.new }
{
    let mut met = Progress::none_of(used);
    let guide = Guide { draw, entries };
    for level in 0..draw.height() {
        if !walk_group(slots, &guide, level, &Lead::Start, &mut met, sink, steps)? {
            return Ok(false);
        }
    }
    Ok(met.left == 0)
}
