//! The check of a table's order, and the walk over its groups behind it: their reads of slots, the starts that they
//! draw and the labels that they digest, on full tables of 1,024 slots, also such as are made to take work. The limits
//! are eight reads, four starts and four digests for each slot. What is held here is half of the first, a quarter of
//! the second and the whole of the third; and of the order alone three reads, a start and a digest for each slot.

ghost use Rattle.std.specs.Prelude.{◌≡◌, ◌≤◌, ◌<◌};
ghost use Rattle.seeded_draw.specs.AnyDrawn.{any_draw};
ghost use Rattle.ordered_table.specs.MemSlots.{mem_state};

use super::counted_draw::CountedDraw;
use super::layouts::layout;
use super::samples::key;
use node_pages::{Cell, Page};
use ordered_table::{MemSlots, Steps};
use seeded_draw::{AnyDraw, Draw};
use std::alloc::{AllocError, Global};
use std::marker::Brand;
use std::process::Abort;
use std::sync::ledger::{Blank, Ledger};
use store_base::{BLOCK, DrawKind, Fault, Key, Label, Lead, Params, Slots, Value};
use table_walk::{TakesPairs, check_order, walk_groups};

/// How many slots the tables have.
const MANY: u32 = 1024;

/// Counts the pairs that a walk comes to.
#[derive(Drop)]
struct PairCount {
    pairs: u32,
}

impl TakesPairs for PairCount {
    ghost took = { λ _ _. Unit {0} };

    ghost keeps = { λ _ _. Unit {0} };

    ghost keeps_refl = { λ _. tt };

    ghost keeps_trans = { λ _ _ _ _ _. tt };

    fn take(&mut self, _key: &Key, _value: &[u8]) {
        self.pairs = self.pairs.saturating_add(1);
    }
}

/// What a check answered, the pairs that it came to, and how many slots it read, how many starts it drew and how many
/// labels it digested.
#[derive(Clone, Copy)]
struct Checked {
    is_whole: bool,
    pairs: u32,
    counts: [u64; 3],
}

/// The most that is wanted of a check and the walk behind it: reads, starts and digests.
const MOST: [u64; 3] = [4 * 1024, 1024, 4 * 1024];

/// The most that is wanted where the walk comes to no page, but looks for the first one.
const MOST_OF_ORDER: [u64; 3] = [3 * 1024 + 8, 1024, 1024 + 8];

/// Holds what was counted of a table to the most that is wanted. The words and the number say which table it is.
fn hold(rt: &impl Abort, words: &str, number: u32, counts: [u64; 3], most: [u64; 3]) {
    let [reads, starts, digests] = counts;
    let is_held = reads <= most[0] && starts <= most[1] && digests <= most[2];
    assert!(rt;
        is_held,
        "{words} {number}: {reads} reads, {starts} starts, {digests} digests"
    );
}

/// Whether the slots are a table in order, and the walk comes to all of its pages.
fn check_by<L: Ledger>(
    slots: &mut MemSlots,
    draw: &CountedDraw,
    sink: &mut PairCount,
    blank: Blank,
) -> Result<bool, Fault>
    requires name { blank.name ≡ L.name }
    requires parts { blank.parts ≡ L.parts }
    requires some { 0 < L.parts }
    requires count { (mem_state slots.old).count ≡ (any_draw draw.now.draw).slots }
    requires most { (any_draw draw.now.draw).slots ≤ 1024 }
{
    let mut entries = [table_walk::Entry::BLANK; MANY as usize];
    let mut steps = Steps::<L>::new(blank);
    let Some(used) = check_order(slots, draw, draw.height(), &mut entries, &mut steps)? else {
        return Ok(false);
    };
    walk_groups(
        slots,
        draw,
        &entries[..used as usize],
        used,
        sink,
        &mut steps,
    )
}

/// As `check_by`, with a ledger for the steps.
fn check(slots: &mut MemSlots, draw: &CountedDraw, sink: &mut PairCount) -> Result<bool, Fault>
    requires count { (mem_state slots.old).count ≡ (any_draw draw.now.draw).slots }
    requires most { (any_draw draw.now.draw).slots ≤ 1024 }
{
    check_by::<Brand>(slots, draw, sink, Blank::new(1))
}

/// A check of the slots, counted; a fault fails the test.
fn count_check(rt: &impl Abort, mut slots: MemSlots, draw: AnyDraw) -> Checked
    requires { (mem_state slots).count ≡ (any_draw draw).slots }
{
    assert!(rt; draw.slots() <= MANY);
    let counted = CountedDraw::new(draw);
    let mut sink = PairCount { pairs: 0 };
    let before = slots.calls();
    let is_whole = check(&mut slots, &counted, &mut sink).expect(rt, "a check");
    let [starts, digests] = counted.counts();
    Checked {
        is_whole,
        pairs: sink.pairs,
        counts: [slots.calls().saturating_sub(before), starts, digests],
    }
}

/// The table of pairs with these keys.
fn table_of(rt: &impl Abort, alloc: Global, params: &Params, keys: &[Key]) -> MemSlots
    ensures { (mem_state result).count ≡ params.now.slots }
{
    let table = layout(alloc, params, keys).expect(rt, "distinct keys");
    let table = table.expect(rt, "a layout");
    assert!(rt; table.used() == params.slots(), "{} pages", table.used());
    let mut slots = MemSlots::new(alloc, params.slots(), Vec::new(alloc)).expect(rt, "memory");
    let mut slot = [0; BLOCK];
    for at in 0..params.slots() {
        table.slot(at, &mut slot);
        slots.set(at, &slot).expect(rt, "a write");
    }
    slots
}

/// Holds the check of a full table of pairs with these keys to the limits.
fn hold_full_table(rt: &impl Abort, alloc: Global, kind: DrawKind, height: u8, keys: &[Key]) {
    let params = Params::new(MANY, height, kind, [0; 32]).expect(rt, "parameters");
    let slots = table_of(rt, alloc, &params, keys);
    let Checked {
        is_whole,
        pairs,
        counts,
    } = count_check(rt, slots, AnyDraw::new(&params));
    let count = keys.len();
    assert!(rt;
        is_whole && pairs as usize == count,
        "whole: {is_whole}, with {pairs} pairs, {count} wanted"
    );
    hold(rt, "pairs:", pairs, counts, MOST);
}

/// So many keys of three letters below `@`, in their order.
fn plain_keys(alloc: Global, count: u32) -> Result<Vec<Key>, AllocError> {
    let mut keys = Vec::new(alloc);
    for number in 0..count {
        let front = [
            (number / 4096 % 64) as u8,
            (number / 64 % 64) as u8,
            (number % 64) as u8,
        ];
        keys.push(key(&front))?;
    }
    Ok(keys)
}

#[test]
fn one_group_fills_the_table(rt: HostRuntime) {
    let keys = plain_keys(rt.alloc(), 10 * MANY).expect(&rt, "memory");
    hold_full_table(&rt, rt.alloc(), DrawKind::Ruler, 1, &keys);
}

#[test]
fn groups_by_digests_fill_the_table(rt: HostRuntime) {
    // Of so many keys the pages were counted by another program: they are 1,024.
    let keys = plain_keys(rt.alloc(), 7386).expect(&rt, "memory");
    hold_full_table(&rt, rt.alloc(), DrawKind::Sha256, 4, &keys);
}

/// The keys of 991 groups behind one that the start leads, each of ten, so that its one page is full and has no next
/// one. With the 32 pages of the leaders above them they fill 1,024 slots. Where the sums are the same, those of the
/// leaders' bytes are, and so the pages of all groups start in one slot under `ruler`.
fn keys_of_full_groups(alloc: Global, have_one_sum: bool) -> Result<Vec<Key>, AllocError> {
    let mut keys = plain_keys(alloc, 10)?;
    for number in 0..991u32 {
        let [high, low] = [1 + (number / 64 % 64) as u8, (number % 64) as u8];
        let rest = if have_one_sum { 127 - high - low } else { 0 };
        keys.push(key(&[high, low, b'U', rest]))?;
        for more in 0..9u8 {
            keys.push(key(&[high, low, b'V' + more, 0]))?;
        }
    }
    Ok(keys)
}

#[test]
fn last_runs_are_full(rt: HostRuntime) {
    let keys = keys_of_full_groups(rt.alloc(), false).expect(&rt, "memory");
    hold_full_table(&rt, rt.alloc(), DrawKind::Ruler, 2, &keys);
}

#[test]
fn all_groups_start_in_one_slot(rt: HostRuntime) {
    let keys = keys_of_full_groups(rt.alloc(), true).expect(&rt, "memory");
    hold_full_table(&rt, rt.alloc(), DrawKind::Ruler, 2, &keys);
}

/// What a slot holds: a page of this rank that starts in this slot, or nothing.
type Entry = Option<(u16, u32)>;

/// The label of this rank that starts in this slot under `ruler`, of a number of slots that divides 1,024.
fn label_of(rank: u16, start: u32) -> Label
    ensures { result.level ≡ 0 }
{
    let [high, low] = rank.to_be_bytes();
    let others = 1 + u32::from(high) + u32::from(low);
    let mut left = (start % 1024 + 1024 - others) % 1024;
    let mut bytes = [0; 124];
    bytes[0] = high;
    bytes[1] = low;
    for byte in bytes[2..].iter_mut() {
        let part = left.min(255);
        *byte = part as u8;
        left -= part;
    }
    Label {
        level: 0,
        lead: Lead::Key(Key::new(bytes)),
        index: 0,
    }
}

/// A page of the label, with one cell.
fn page_of(label: Label) -> Page
    requires { label.level ≡ 0 }
{
    Page::new(label, Cell::with_value(key(b"k"), Value::new(b"v")))
}

/// So many slots, with these entries.
fn slots_with(rt: &impl Abort, alloc: Global, count: u32, entries: &[Entry]) -> MemSlots
    ensures { (mem_state result).count ≡ count }
{
    let mut slots = MemSlots::new(alloc, count, Vec::new(alloc)).expect(rt, "memory");
    for at in 0..count {
        if let Some(Some((rank, start))) = entries.get(at as usize) {
            let page = page_of(label_of(*rank, *start));
            slots.set(at, page.as_slot()).expect(rt, "a write");
        }
    }
    slots
}

/// Holds the check of a table of two levels with these entries to the limits. No start leads to its groups, so the
/// walk comes to none of its pages. The words and the number say which table it is.
fn hold_entries(rt: &impl Abort, alloc: Global, words: &str, number: u32, entries: &[Entry]) {
    let params = Params::new(MANY, 2, DrawKind::Ruler, [0; 32]).expect(rt, "parameters");
    let draw = AnyDraw::new(&params);
    let slots = slots_with(rt, alloc, draw.slots(), entries);
    let Checked {
        is_whole,
        counts,
        ..
    } = count_check(rt, slots, draw);
    assert!(rt; !is_whole, "{words} {number}");
    hold(rt, words, number, counts, MOST_OF_ORDER);
}

/// A table that takes a square of its slots where a check jumps back over pages alone whose own way is known. Half of
/// the pages stand where they start, and of the others one by turns starts before all and one just behind that half.
/// It is turned by so many slots; where it is marred, the last two pages stand in each other's place.
fn jumps(alloc: Global, turn: u32, is_marred: bool) -> Result<Vec<Entry>, AllocError> {
    let mut entries: Vec<Entry> = vec![in alloc; None; 1024]?;
    for rank in 0..MANY {
        let place = if is_marred && rank >= MANY - 2 {
            rank ^ 1
        } else {
            rank
        };
        let start = if rank < MANY / 2 {
            rank
        } else {
            rank % 2 * (MANY / 2)
        };
        let at = (place + turn % MANY) % MANY;
        entries[at as usize] = Some((rank as u16, (start + turn % MANY) % MANY));
    }
    Ok(entries)
}

#[test]
fn ways_made_for_jumping_back(rt: HostRuntime) {
    for (turn, is_marred) in [(0, false), (700, false), (0, true), (700, true)] {
        let entries = jumps(rt.alloc(), turn, is_marred).expect(&rt, "memory");
        let words = if is_marred {
            "marred, turned by"
        } else {
            "turned by"
        };
        hold_entries(&rt, rt.alloc(), words, turn, &entries);
    }
}

/// Pages in the order of their labels, one in each slot, which all start in one slot.
fn pages_of_one_start(alloc: Global, start: u32) -> Result<Vec<Entry>, AllocError> {
    let mut entries: Vec<Entry> = vec![in alloc; None; 1024]?;
    for rank in 0..MANY {
        let at = (rank + start % MANY) % MANY;
        entries[at as usize] = Some((rank as u16, start));
    }
    Ok(entries)
}

#[test]
fn all_pages_start_in_one_slot(rt: HostRuntime) {
    for start in [0, 700] {
        let entries = pages_of_one_start(rt.alloc(), start).expect(&rt, "memory");
        hold_entries(&rt, rt.alloc(), "from", start, &entries);
    }
}
