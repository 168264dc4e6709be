//! What is said of an image that was made.

ghost use Rattle.box_calls.specs.Creations.{sums_up_stored};
ghost use Rattle.box_calls.specs.Endings.{Says, SaysIf};

use crate::place::Place;
use crate::saying::{say, say_no_memory};
use box_words::{Message, Status};
use image_check::Contents;
use script_lines::Sink;
use std::alloc::{AllocError, Global};

/// What an image holds, as a person is told.
#[derive(Clone, Copy)]
pub struct Holds {
    /// What it holds.
    pub contents: Contents,
    /// How many of its files are symbolic links.
    pub links: u32,
    /// How many entries of its folder are left out.
    pub left_out: u64,
}

/// What was made, in words.
fn stored_text(alloc: Global, holds: &Holds) -> Result<String, AllocError> {
    let Holds {
        contents,
        links,
        left_out,
    } = *holds;
    let counts = contents.counts;
    let (folders, files, bytes) = (
        counts.dirs,
        counts.files.saturating_sub(links),
        counts.bytes,
    );
    let (used, slots) = (contents.used, contents.params.slots());
    let mut text = format!(in alloc;
        "made of {folders} folders, {files} files, {links} links, {bytes} bytes, in {used} of {slots} slots"
    )?;
    if left_out > 0 {
        write!(text, "; left out {left_out} entries")?;
    }
    Ok(text)
}

/// Says what was made.
fn sum_up<E: Sink>(place: &Place<'_>, holds: &Holds, sink: &mut E)
    ensures { Says (E.state sink.old) (E.state sink.new) }
{
    match stored_text(place.alloc, holds) {
        Ok(made) => {
            let message = Message {
                things: &[place.image],
                wrong: made.as_str(),
                advice: "",
            };
            say(place.alloc, &message, sink);
        }
        Err(_) => say_no_memory(sink),
    }
}

/// Says what an image holds, once the call that made it ended so and the image has its name: where the place sums up,
/// and the image was made.
pub fn sum_up_stored<E: Sink>(place: &Place<'_>, status: Status, holds: &Holds, sink: &mut E)
    ensures { SaysIf (sums_up_stored place.now.sums_up status) (E.state sink.old) (E.state sink.new) }
{
    match status {
        Status::Done | Status::Differs if place.sums_up => sum_up(place, holds, sink),
        _ => {}
    }
}
