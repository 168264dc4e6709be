//! The reads and writes of the calls on a table, which were worked out by hand with the draw `ruler`, under which a
//! label starts at its bytes' sum, round the table. What the slots then hold is said by the clauses of each call.

ghost use Rattle.std.specs.Prelude.{◌≡◌, ◌<◌};
ghost use Rattle.ordered_table.specs.MemSlots.{mem_state};

use super::samples::{key, led, start_label};
use node_pages::{Cell, Page};
use ordered_table::{MemSlots, Steps, find, find_from, holds, insert, overwrite};
use seeded_draw::{Draw, RulerDraw};
use shift_remove::remove;
use std::alloc::Global;
use std::marker::Brand;
use std::process::Abort;
use std::sync::ledger::{Blank, Ledger};
use store_base::{DrawKind, Fault, Label, Params, Value};
use tests_tools::number;

/// Tables, each with how many free slots it begins with, and then its calls, with how many reads and writes were made
/// in all when each ends. A page is named by the key that leads it, on level 0; `-` is the first one of level 1. The
/// calls:
///
/// - `put PAGE`, `over SLOT PAGE`, `remove SLOT`;
/// - `find PAGE`, by either search, each of which reads the slots up to the page once, or one free slot;
/// - `look SLOT PAGE`, which asks whether the page is there.
///
/// In the first table a page displaces another round the end, by two reads and two writes. In the last one the removal
/// reads slots 3, 4 and 5, and writes 2 and 4.
static TABLES: &str = "\
    4|put Ua 2|put UU 6|put - 8|over 3 UU 9#\
    4|put UU 2|put Ua 5|find Ua 9|find - 11|look 0 Ua 12|look 1 Ua 13#\
    2|put Ua 2|put - 5|remove 1 8#\
    1|put a 2|remove 0 3#\
    8|put Ud 2|put UE 4|put UD 9|put - 11|remove 2 16";

/// The label of the page of this name.
fn label(name: &str) -> Label {
    if name == "-" {
        return start_label(1, 0);
    }
    let bytes = name.as_bytes();
    led(key(&bytes[..bytes.len().min(2)]))
}

/// The page of this name, with one cell.
fn page(name: &str) -> Page {
    if name == "-" {
        return Page::new(start_label(1, 0), Cell::bare(key(b"k")));
    }
    let bytes = name.as_bytes();
    let key = key(&bytes[..bytes.len().min(2)]);
    Page::new(led(key), Cell::with_value(key, Value::new(&[1])))
}

/// Searches for the page with this label, by either search.
fn look_for<L: Ledger>(
    slots: &mut MemSlots,
    draw: &RulerDraw,
    label: &Label,
    blank: Blank,
) -> Result<(), Fault>
    requires name { blank.name ≡ L.name }
    requires parts { blank.parts ≡ L.parts }
    requires some { 0 < L.parts }
    requires count { (mem_state slots.old).count ≡ draw.now.slots }
    ensures { (mem_state slots.new).count ≡ (mem_state slots.old).count }
{
    let mut steps = Steps::<L>::new(blank);
    find(slots, draw, label, &mut steps)?;
    find_from(slots, draw, draw.start(label), label, &mut steps)?;
    Ok(())
}

/// As `look_for`, with a ledger for steps that nobody counts.
fn find_both(slots: &mut MemSlots, draw: &RulerDraw, label: &Label) -> Result<(), Fault>
    requires { (mem_state slots.old).count ≡ draw.now.slots }
    ensures { (mem_state slots.new).count ≡ draw.now.slots }
{
    look_for::<Brand>(slots, draw, label, Blank::new(1))
}

/// Makes the call on a slot; one that names no slot is a fault.
fn make_at(
    slots: &mut MemSlots,
    draw: &RulerDraw,
    word: &str,
    at: u32,
    name: &str,
) -> Result<(), Fault>
    requires { (mem_state slots.old).count ≡ draw.now.slots }
    ensures { (mem_state slots.new).count ≡ draw.now.slots }
{
    if at >= draw.slots() {
        return Err(Fault::Disk);
    }
    match word {
        "over" => overwrite(slots, draw, at, &page(name)),
        "remove" => remove(slots, draw, at),
        _ => {
            holds(slots, draw, at, &label(name))?;
            Ok(())
        }
    }
}

/// Makes the call.
fn make(
    slots: &mut MemSlots,
    draw: &RulerDraw,
    word: &str,
    first: &str,
    second: &str,
) -> Result<(), Fault>
    requires { (mem_state slots.old).count ≡ draw.now.slots }
    ensures { (mem_state slots.new).count ≡ draw.now.slots }
{
    match word {
        "put" => insert(slots, draw, &page(first)),
        "find" => find_both(slots, draw, &label(first)),
        _ => make_at(
            slots,
            draw,
            word,
            first.parse::<u32>().unwrap_or(u32::MAX),
            second,
        ),
    }
}

/// Makes the call of a row, and looks how many reads and writes there were in all.
fn expect_count(rt: &impl Abort, slots: &mut MemSlots, draw: &RulerDraw, row: &str)
    requires { (mem_state slots.old).count ≡ draw.now.slots }
    ensures { (mem_state slots.new).count ≡ draw.now.slots }
{
    let (call, wanted) = row.rsplit_once(' ').unwrap_or((row, ""));
    let (word, words) = call.split_once(' ').unwrap_or((call, ""));
    let (first, second) = words.split_once(' ').unwrap_or((words, ""));
    let is_made = make(slots, draw, word, first, second).is_ok();
    assert!(rt; is_made && number(wanted) == slots.calls(), "{row}");
}

/// Makes the calls of a table on its free slots, and looks how many reads and writes there were behind each.
fn expect_counts(rt: &impl Abort, alloc: Global, table: &str) {
    let (count, calls) = table.split_once('|').expect(rt, "calls");
    let count = count.parse::<u32>().expect(rt, "a number");
    let params = Params::new(count, 2, DrawKind::Ruler, [0; 32]).expect(rt, "parameters");
    let draw = RulerDraw::new(&params);
    let mut slots = MemSlots::new(alloc, draw.slots(), Vec::new(alloc)).expect(rt, "memory");
    for row in calls.split('|') {
        expect_count(rt, &mut slots, &draw, row);
    }
}

#[test]
fn each_call_reads_and_writes_so_often(rt: HostRuntime) {
    for table in TABLES.split('#') {
        expect_counts(&rt, rt.alloc(), table);
    }
}
