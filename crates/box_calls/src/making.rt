//! How a call ends that makes a folder of the host, and what it says of it.

ghost use Rattle.std.specs.Prelude.{◌≡◌, false};
ghost use Rattle.box_calls.specs.Endings.{Says};
ghost use Rattle.box_calls.specs.Makings.{left_out_status, EndsMade};

use crate::counted::MadeCounts;
use crate::place::Place;
use crate::saying::{say, say_no_memory};
use crate::telling::{About, ended};
use crate::trouble::Trouble;
use box_words::{Message, Status};
use script_lines::Sink;
use std::alloc::{AllocError, Global};

/// How a call ends that made what was asked for, but for so many entries.
pub fn left_out_status(left_out: u64) -> Status
    ensures { result ≡ left_out_status left_out }
{
    if left_out == 0 {
        Status::Done
    } else {
        Status::Differs
    }
}

/// What was made, in words.
fn made_text(alloc: Global, counts: &MadeCounts) -> Result<String, AllocError> {
    let MadeCounts {
        folders,
        files,
        links,
        bytes,
        left_out,
    } = *counts;
    let mut text = format!(in alloc;
        "made {folders} folders, {files} files, {links} links, {bytes} bytes"
    )?;
    if left_out > 0 {
        write!(text, "; left out {left_out} entries")?;
    }
    Ok(text)
}

/// Says what was made.
fn sum_up<E: Sink>(place: &Place<'_>, counts: &MadeCounts, sink: &mut E)
    ensures { Says (E.state sink.old) (E.state sink.new) }
{
    match made_text(place.alloc, counts) {
        Ok(made) => {
            let message = Message {
                things: &[place.file],
                wrong: made.as_str(),
                advice: "",
            };
            say(place.alloc, &message, sink);
        }
        Err(_) => say_no_memory(sink),
    }
}

/// How a call ends by which this was made, if it came to no trouble. That is said, or what was made where the place
/// sums up.
pub(crate) fn end_made<E: Sink>(
    place: &Place<'_>,
    done: Result<(), Trouble>,
    counts: &MadeCounts,
    about: About<'_>,
    sink: &mut E,
) -> Status
    ensures { EndsMade place.now.sums_up done counts.now.left_out result (E.state sink.old)
        (E.state sink.new) }
{
    match done {
        Ok(()) => {
            if place.sums_up {
                sum_up(place, counts, sink);
            }
            left_out_status(counts.left_out)
        }
        Err(trouble) => ended(place, Err(trouble), about, sink),
    }
}

/// How a call ends that did what was asked for, but for so many entries, if it came to no trouble, which is said.
pub fn end_part<E: Sink>(
    place: &Place<'_>,
    done: Result<(), Trouble>,
    left_out: u64,
    about: About<'_>,
    sink: &mut E,
) -> Status
    ensures { EndsMade false done left_out result (E.state sink.old) (E.state sink.new) }
{
    match done {
        Ok(()) => left_out_status(left_out),
        Err(trouble) => ended(place, Err(trouble), about, sink),
    }
}
