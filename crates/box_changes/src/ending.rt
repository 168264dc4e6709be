//! How a call ends that changes an image, and what it says of it.

ghost use Rattle.std.specs.Prelude.{◌≡◌, Err};
ghost use Rattle.box_calls.specs.Endings.{Says, SaysIf, Ends};
ghost use Rattle.box_changes.specs.Endings.{open_trouble, apply_trouble, refusal_trouble, change_done, EndsChange};
ghost use Rattle.box_changes.specs.Endings.{EndsBehind};

use box_calls::{
    About, Place, Reason, Trouble, ended, left_out_status, say, say_no_memory, unread,
};
use box_words::{Message, Status};
use disk_model::Disk;
use image_changes::Outcome;
use image_check::{ApplyFault, AttachFault};
use image_reads::unopened;
use script_lines::Sink;
use std::alloc::{AllocError, Global};
use store_core::Store;
use store_model::Refusal;

/// The trouble where an image was not opened.
pub(crate) fn open_trouble(fault: AttachFault) -> Trouble
    ensures { result ≡ open_trouble fault }
{
    unread(unopened(fault))
}

/// The trouble where the store of an image did not carry out a change.
pub(crate) fn apply_trouble(fault: ApplyFault) -> Trouble
    ensures { result ≡ apply_trouble fault }
{
    match fault {
        ApplyFault::NoMemory => Trouble::NoMemory,
        ApplyFault::Disk | ApplyFault::Stopped => Trouble::Failed,
    }
}

/// The trouble that it is that a change is refused: where something stands already it is of this reason.
pub(crate) fn refusal_trouble(there: Reason, refusal: Refusal) -> Trouble
    ensures { result ≡ refusal_trouble there refusal }
{
    match refusal {
        Refusal::Root => Trouble::Refused(Reason::Root),
        Refusal::Parent => Trouble::Refused(Reason::NoParent),
        Refusal::Exists => Trouble::Refused(there),
        Refusal::Missing => Trouble::Nothing,
        Refusal::Inside => Trouble::Refused(Reason::Inside),
        Refusal::Kind => Trouble::Refused(Reason::FolderThere),
        Refusal::NotEmpty => Trouble::Refused(Reason::NotEmpty),
        Refusal::Version => Trouble::Refused(Reason::OldVersion),
        Refusal::NoAttr => Trouble::Refused(Reason::NoAttribute),
        Refusal::Full { need: _, slots: _ }
        | Refusal::Path
        | Refusal::Long
        | Refusal::Syntax
        | Refusal::Gap
        | Refusal::Big => Trouble::Refused(Reason::Long),
    }
}

/// What a change came to that ended so.
pub(crate) fn change_done(there: Reason, done: &Result<Outcome, ApplyFault>) -> Result<(), Trouble>
    ensures { result ≡ change_done there done.now }
{
    match done {
        Ok(Outcome::Done) => Ok(()),
        Ok(Outcome::Refused { path: _, reason }) => Err(refusal_trouble(there, *reason)),
        Ok(Outcome::Full { need: _, slots: _ }) => Err(Trouble::Crowded),
        Err(fault) => Err(apply_trouble(*fault)),
    }
}

/// What the trouble is about.
pub(crate) fn about_of(done: &Result<Outcome, ApplyFault>) -> About<'_> {
    match done {
        Ok(Outcome::Refused { path, reason: _ }) => About::Path(path),
        Ok(Outcome::Full { need, slots }) => About::Slots(*need, *slots),
        _ => About::Image,
    }
}

/// What was there to be said of an image when it was opened, and how full it is now.
#[derive(Clone, Copy)]
pub(crate) struct Fullness {
    /// Whether a recovery was finished when it was opened.
    pub recovered: bool,
    /// How many slots are in use.
    pub used: u32,
    /// How many there are.
    pub slots: u32,
}

impl Fullness {
    /// That of a store, of which this was said when it was opened.
    pub fn of<D: Disk>(store: &Store<D>, recovered: bool) -> Self
        ensures { result.recovered ≡ recovered }
    {
        Fullness {
            recovered,
            used: store.used(),
            slots: store.params().slots(),
        }
    }
}

/// How full an image is, in words.
fn full_text(alloc: Global, full: &Fullness) -> Result<String, AllocError> {
    let Fullness { used, slots, .. } = *full;
    format!(in alloc; "{used} of {slots} slots are in use")
}

/// Says how full an image is.
fn sum_up<E: Sink>(place: &Place<'_>, full: &Fullness, sink: &mut E)
    ensures { Says (E.state sink.old) (E.state sink.new) }
{
    match full_text(place.alloc, full) {
        Ok(text) => {
            let message = Message {
                things: &[place.image],
                wrong: text.as_str(),
                advice: "",
            };
            say(place.alloc, &message, sink);
        }
        Err(_) => say_no_memory(sink),
    }
}

/// Says how full an image is, where the place sums up.
fn sum_up_if<E: Sink>(place: &Place<'_>, full: &Fullness, sink: &mut E)
    ensures { SaysIf place.now.sums_up (E.state sink.old) (E.state sink.new) }
{
    if place.sums_up {
        sum_up(place, full, sink);
    }
}

/// Says that a recovery was finished, if one was.
fn say_recovery<E: Sink>(place: &Place<'_>, recovered: bool, sink: &mut E)
    ensures { SaysIf recovered (E.state sink.old) (E.state sink.new) }
{
    if recovered {
        let message = Message {
            things: &[place.image],
            wrong: "a recovery was pending, and was finished",
            advice: "",
        };
        say(place.alloc, &message, sink);
    }
}

/// Says a trouble, and before it that a recovery was finished, if one was.
pub(crate) fn ended_behind<E: Sink>(
    place: &Place<'_>,
    recovered: bool,
    trouble: Trouble,
    about: About<'_>,
    sink: &mut E,
) -> Status
    ensures { EndsBehind recovered trouble result (E.state sink.old) (E.state sink.new) }
{
    say_recovery(place, recovered, sink);
    ended(place, Err(trouble), about, sink)
}

/// How a call ends that came to this and left so much out, where an image is so full now.
pub(crate) fn end_change<E: Sink>(
    place: &Place<'_>,
    full: &Fullness,
    done: Result<(), Trouble>,
    left_out: u64,
    about: About<'_>,
    sink: &mut E,
) -> Status
    ensures { EndsChange place.now.sums_up full.now.recovered done left_out result (E.state sink.old)
        (E.state sink.new) }
{
    match done {
        Ok(()) => {
            sum_up_if(place, full, sink);
            left_out_status(left_out)
        }
        Err(trouble) => ended_behind(place, full.recovered, trouble, about, sink),
    }
}
