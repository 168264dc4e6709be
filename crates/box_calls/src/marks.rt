//! The lines of differences, as a person sees them.

ghost use Rattle.std.specs.Prelude.{◌≡◌, ◌++◌, OnOk};
ghost use Rattle.dump_streams.specs.Gathered.{gathered_state, IsFlushed};
ghost use Rattle.box_calls.specs.Endings.{IsTold};
ghost use Rattle.box_calls.specs.Marks as model;
ghost use Rattle.box_calls.specs.Marks.{letter, seen, mark_end, mark_text, marks_text, marks_status};
ghost use Rattle.box_calls.specs.Marks.{line_trouble, PutsLines, PrintsMarks};

use crate::place::Place;
use crate::telling::{About, ended};
use crate::trouble::Trouble;
use box_words::{Spelling, Status, shown, terminal_text};
use dump_diff::{Difference, Mark};
use dump_streams::{GatheredSink, TakerFault};
use script_lines::{Sink, SinkFault};
use std::alloc::Global;
use store_base::NoMemory;

/// How the lines of differences are shown.
#[derive(Clone, Copy, Debug, PartialEq, Eq)]
pub struct MarkForm {
    /// A line ends by a zero byte; else by a line feed.
    pub is_zero: bool,
    /// Control bytes are shown as `\x1B`, as on a terminal.
    pub is_visible: bool,
    /// How names are spelled.
    pub spelling: Spelling,
}

/// The letter of a mark, and a space.
fn letter(mark: Mark) -> &'static [u8]
    ensures { result.now ≡ letter mark }
{
    match mark {
        Mark::Removed => b"D ",
        Mark::Added => b"A ",
        Mark::Kind | Mark::Bytes | Mark::Attributes => b"M ",
    }
}

/// Adds bytes.
fn push_bytes(into: &mut Vec<u8>, bytes: &[u8]) -> Result<(), NoMemory>
    ensures { OnOk result (into.new.items ≡ into.old.items ++ bytes.now) }
{
    into.extend_from_slice(bytes)?;
    Ok(())
}

/// Adds bytes as they are shown.
fn push_seen(
    alloc: Global,
    is_visible: bool,
    bytes: &[u8],
    into: &mut Vec<u8>,
) -> Result<(), NoMemory>
    ensures { OnOk result (into.new.items ≡ into.old.items ++ seen is_visible bytes.now) }
{
    if !is_visible {
        return push_bytes(into, bytes);
    }
    match terminal_text(alloc, bytes) {
        Ok(text) => push_bytes(into, text.as_bytes()),
        Err(fault) => Err(fault),
    }
}

/// Adds the end of a line.
fn push_end(form: MarkForm, into: &mut Vec<u8>) -> Result<(), NoMemory>
    ensures { OnOk result (into.new.items ≡ into.old.items ++ mark_end form) }
{
    if form.is_zero {
        push_bytes(into, b"\0")
    } else {
        push_bytes(into, b"\n")
    }
}

/// Adds the line of a difference.
#[tactic(auto, unfolding(crate::specs::Marks::mark_text))]
fn push_line(
    alloc: Global,
    form: MarkForm,
    difference: &Difference,
    into: &mut Vec<u8>,
) -> Result<(), NoMemory>
    ensures { OnOk result (into.new.items ≡ into.old.items ++ mark_text form difference.now) }
{
    push_bytes(into, letter(difference.mark))?;
    let path = shown(alloc, &difference.path, form.spelling)?;
    push_seen(alloc, form.is_visible, &path, into)?;
    push_end(form, into)
}

/// Puts the line of a difference.
fn put_line<W: Sink>(
    alloc: Global,
    form: MarkForm,
    difference: &Difference,
    line: &mut Vec<u8>,
    sink: &mut W,
) -> Result<(), TakerFault>
    ensures { PutsLines (W.state sink.old) (W.state sink.new) (mark_text form difference.now) result }
{
    line.clear();
    if push_line(alloc, form, difference, line).is_err() {
        return Err(TakerFault::NoMemory);
    }
    match sink.put(line) {
        Ok(()) => Ok(()),
        Err(SinkFault) => Err(TakerFault::Failed),
    }
}

/// Puts the lines of differences, one after another.
fn put_lines<W: Sink>(
    alloc: Global,
    form: MarkForm,
    found: &[Difference],
    sink: &mut W,
) -> Result<(), TakerFault>
    ensures { PutsLines (W.state sink.old) (W.state sink.new) (marks_text form found.now) result }
{
    let mut line = Vec::new(alloc);
    for difference in found {
        put_line(alloc, form, difference, &mut line, sink)?;
    }
    Ok(())
}

/// Puts the lines of differences, to the last byte.
pub fn put_all<W: Sink>(
    alloc: Global,
    form: MarkForm,
    found: &[Difference],
    out: &mut GatheredSink<W>,
) -> Result<(), TakerFault>
    ensures lines { PutsLines (gathered_state W.state out.old) (gathered_state W.state out.new)
        (marks_text form found.now) result }
    ensures flushed { OnOk result (IsFlushed W.state out.new) }
{
    put_lines(alloc, form, found, out)?;
    match out.flush() {
        Ok(()) => Ok(()),
        Err(SinkFault) => Err(TakerFault::Failed),
    }
}

/// The trouble where lines were not put.
pub fn line_trouble(fault: TakerFault) -> Trouble
    ensures { result ≡ line_trouble fault }
{
    match fault {
        TakerFault::Failed => Trouble::Output,
        TakerFault::NoMemory => Trouble::NoMemory,
    }
}

/// How a comparison ends that found these differences, where something was left out, or not.
fn marks_status(is_part: bool, found: &[Difference]) -> Status
    ensures { result ≡ marks_status is_part found.now }
{
    if found.is_empty() && !is_part {
        Status::Done
    } else {
        Status::Differs
    }
}

/// Puts a line for each path at which two trees differ, in the order of paths: `D PATH` where the first has an entry
/// alone, `A PATH` where the second has, and `M PATH` where both have and the entries differ.
pub(crate) fn print_marks<W: Sink, E: Sink>(
    place: &Place<'_>,
    form: MarkForm,
    is_part: bool,
    found: &[Difference],
    out: &mut GatheredSink<W>,
    say: &mut E,
) -> Status
    ensures prints { PrintsMarks form is_part found.now (gathered_state W.state out.old)
        (gathered_state W.state out.new) (E.state say.old) (E.state say.new) result }
    ensures flushed { IsTold result → IsFlushed W.state out.new }
{
    match put_all(place.alloc, form, found, out) {
        Ok(()) => marks_status(is_part, found),
        Err(fault) => ended(place, Err(line_trouble(fault)), About::Image, say),
    }
}
