//! How a call ends, and the message that says why, in three parts: which thing, what is wrong, what to do.

ghost use Rattle.std.specs.Prelude.{◌≡◌, Err, OnOk, OnErr};
ghost use Rattle.box_calls.specs.Endings.{Says, Tells, Ends};

use crate::place::Place;
use crate::quoted::Quoted;
use crate::reason::Reason;
use crate::saying::{say, say_no_memory};
use crate::trouble::Trouble;
use box_words::{Message, Status, shown, terminal_text};
use image_create::ladder;
use path_keys::Path;
use script_lines::Sink;
use std::alloc::{AllocError, Global};
use store_base::{MAX_SLOTS, NoMemory};

/// What a trouble is about, besides the image.
#[derive(Clone, Copy)]
pub enum About<'a> {
    /// Nothing.
    Image,
    /// What stands at a path of the image.
    Path(&'a Path),
    /// A symbolic link at a path of the image, and where it leads.
    Link(&'a Path, &'a [u8]),
    /// The number of a line, or of entries.
    Number(u64),
    /// How many slots a tree needs, and how many its image has.
    Slots(u32, u32),
}

/// Why a message was not made: memory ran out.
#[derive(Clone, Copy)]
struct Unmade;

impl From<AllocError> for Unmade {
    fn from(_: AllocError) -> Self {
        Unmade
    }
}

impl From<NoMemory> for Unmade {
    fn from(_: NoMemory) -> Self {
        Unmade
    }
}

impl<'a> About<'a> {
    /// The path.
    fn path(self) -> Option<&'a Path> {
        match self {
            About::Path(path) | About::Link(path, _) => Some(path),
            About::Image | About::Number(_) | About::Slots(_, _) => None,
        }
    }

    /// The number.
    fn number(self) -> u64 {
        match self {
            About::Number(number) => number,
            About::Image | About::Path(_) | About::Link(_, _) | About::Slots(_, _) => 0,
        }
    }

    /// How many slots a tree needs, and how many its image has.
    fn slots(self) -> (u32, u32) {
        match self {
            About::Slots(need, slots) => (need, slots),
            About::Image | About::Path(_) | About::Link(_, _) | About::Number(_) => (0, 0),
        }
    }

    /// Where the link leads.
    fn target(self) -> &'a [u8] {
        match self {
            About::Link(_, target) => target,
            About::Image | About::Path(_) | About::Number(_) | About::Slots(_, _) => &[],
        }
    }
}

/// A path as a message has it.
fn text_of(place: &Place<'_>, path: &Path) -> Result<String, Unmade> {
    let bytes = shown(place.alloc, path, place.spelling)?;
    Ok(terminal_text(place.alloc, bytes.as_slice())?)
}

/// The thing that a message names first.
fn thing_text(place: &Place<'_>, trouble: Trouble) -> Result<String, Unmade> {
    let alloc = place.alloc;
    let thing = match trouble {
        Trouble::Output => String::from_str(alloc, "standard output")?,
        Trouble::File
        | Trouble::Obstacles
        | Trouble::TooMany
        | Trouble::TooMuch
        | Trouble::Moving => String::from_str(alloc, place.file)?,
        _ => String::from_str(alloc, place.image)?,
    };
    Ok(thing)
}

/// What a message names behind it: the path where what stands there is wrong, and else the empty text.
fn second_text(place: &Place<'_>, trouble: Trouble, about: About<'_>) -> Result<String, Unmade> {
    match trouble {
        Trouble::Nothing
        | Trouble::Folder
        | Trouble::Link
        | Trouble::Moving
        | Trouble::Refused(_)
        | Trouble::LongSource => path_text(place, about),
        _ => Ok(String::new(place.alloc)),
    }
}

/// The path that a trouble is about, as a message has it; the empty text for none.
fn path_text(place: &Place<'_>, about: About<'_>) -> Result<String, Unmade> {
    match about.path() {
        Some(path) => text_of(place, path),
        None => Ok(String::new(place.alloc)),
    }
}

/// The path of the folder in which the path is that a trouble is about, as a message has it; the empty text for none.
fn parent_text(place: &Place<'_>, about: About<'_>) -> Result<String, Unmade> {
    match about.path().and_then(|path| path.parent()) {
        Some(parent) => text_of(place, &parent),
        None => Ok(String::new(place.alloc)),
    }
}

/// What is wrong.
fn wrong_of(place: &Place<'_>, trouble: Trouble, about: About<'_>) -> Result<String, Unmade> {
    let alloc = place.alloc;
    let number = about.number();
    let (need, slots) = about.slots();
    let wrong = match trouble {
        Trouble::Link => {
            let target = terminal_text(alloc, about.target())?;
            format!(in alloc; "it is a symbolic link to {target}")?
        }
        Trouble::Obstacles => format!(in alloc; "{number} entries cannot be in an image")?,
        Trouble::NoListing => format!(in alloc; "line {number} is not part of a listing")?,
        Trouble::Full => format!(in alloc; "needs {need} slots, has {slots}")?,
        Trouble::Crowded => {
            format!(in alloc; "needs {need} slots, has {slots}, so nothing was changed")?
        }
        _ => String::from_str(alloc, plain_wrong(trouble))?,
    };
    Ok(wrong)
}

/// What is wrong, where that takes no more than words that stand.
fn plain_wrong(trouble: Trouble) -> &'static str {
    match trouble {
        Trouble::NotImage => "it is not an image, or not all of one",
        Trouble::Damaged => "the image is damaged",
        Trouble::Disk => "the image could not be read",
        Trouble::Changed => "the image changed while it was read",
        Trouble::NoMemory => "memory ran out",
        Trouble::Output => "it could not be written, so what was printed is a part",
        Trouble::File | Trouble::Unwritten => "it could not be written",
        Trouble::Nothing => "no such file or folder",
        Trouble::Folder => "it is a folder",
        Trouble::Digest => "the digest differs",
        Trouble::Host => "it failed",
        Trouble::TooMany => "it has more entries than any image",
        Trouble::Moving => "it changed while it was read",
        Trouble::Input => "it could not be read",
        Trouble::LongListing => "it has more than 1 GiB",
        Trouble::TooMuch => "it holds more than any image",
        Trouble::Refused(reason) => reason.wrong(),
        Trouble::LongSource => "what is put there would have a path that is too long",
        Trouble::Failed => "its disk failed while it was changed",
        Trouble::Link
        | Trouble::Obstacles
        | Trouble::NoListing
        | Trouble::Full
        | Trouble::Crowded => "",
    }
}

/// What to do where a tree needs more slots than its image has.
fn room_advice(alloc: Global, about: About<'_>) -> Result<String, Unmade> {
    let (need, _) = about.slots();
    if need > MAX_SLOTS {
        let advice = "no image has so many, so give a folder that holds less";
        return Ok(String::from_str(alloc, advice)?);
    }
    Ok(format!(in alloc; "give --slots {need} or more, or leave --slots out")?)
}

/// What to do where the tree that an image is to hold needs more slots than it has.
fn resize_advice(place: &Place<'_>, about: About<'_>) -> Result<String, Unmade> {
    let (need, _) = about.slots();
    match ladder(need) {
        Some(slots) => {
            let image = Quoted(place.image);
            Ok(format!(in place.alloc; "hbox resize {image} {slots} makes room")?)
        }
        None => Ok(String::from_str(place.alloc, "no image has so many")?),
    }
}

/// What to do where a change is refused at a path.
fn reason_advice(place: &Place<'_>, reason: Reason, about: About<'_>) -> Result<String, Unmade> {
    let alloc = place.alloc;
    let image = Quoted(place.image);
    let text = path_text(place, about)?;
    let path = Quoted(text.as_str());
    let advice = match reason {
        Reason::FileThere => format!(in alloc; "hbox rm {image} {path} removes it")?,
        Reason::FolderThere => {
            format!(in alloc; "put it into that folder with --to {path}, or give another path")?
        }
        Reason::NoParent => {
            let parent = parent_text(place, about)?;
            let parent = Quoted(parent.as_str());
            format!(in alloc; "hbox mkdir -p {image} {parent} makes it")?
        }
        Reason::OldVersion => {
            format!(in alloc; "hstore {image} upgrade makes it one of version 2")?
        }
        Reason::NoAttribute => {
            format!(in alloc; "hbox attr {image} {path} lists those that it has")?
        }
        _ => String::from_str(alloc, reason.advice())?,
    };
    Ok(advice)
}

/// What to do.
fn advice_of(place: &Place<'_>, trouble: Trouble, about: About<'_>) -> Result<String, Unmade> {
    let alloc = place.alloc;
    let image = Quoted(place.image);
    match trouble {
        Trouble::Nothing => Ok(format!(in alloc; "hbox ls -R {image} lists all that is there")?),
        Trouble::Folder => {
            let path = path_text(place, about)?;
            let path = Quoted(path.as_str());
            Ok(format!(in alloc; "hbox ls {image} {path} lists what is in it")?)
        }
        Trouble::Full => room_advice(alloc, about),
        Trouble::Crowded => resize_advice(place, about),
        Trouble::Refused(reason) => reason_advice(place, reason, about),
        _ => Ok(String::from_str(alloc, plain_advice(trouble))?),
    }
}

/// What to do, where that takes no more than words that stand.
fn plain_advice(trouble: Trouble) -> &'static str {
    match trouble {
        Trouble::Link => "give the path of the file that it leads to",
        Trouble::NotImage => "give the path of a complete image",
        Trouble::Damaged => "take a copy of the image that hbox check finds sound",
        Trouble::Disk => "copy the image to another disk, and try again",
        Trouble::Changed => "try again while no program writes to the image",
        Trouble::NoMemory => "end other programs, and try again",
        Trouble::Output => "look whether the disk is full, or the reader has ended",
        Trouble::File => "look whether the disk is full, or give another FILE",
        Trouble::Digest => "hbox compare tells how the image differs from another",
        Trouble::Host => "try again",
        Trouble::Obstacles => "--skip leaves them out",
        Trouble::TooMany => "give a folder in it that has fewer",
        Trouble::Moving => "try again while nobody changes the folder",
        Trouble::Input => "give a listing on standard input",
        Trouble::NoListing | Trouble::LongListing => "hstore IMAGE dump prints a listing",
        Trouble::Unwritten => "make room on its disk, and try again",
        Trouble::TooMuch => "give a folder that holds less",
        Trouble::LongSource => "give shorter names",
        Trouble::Failed => "all was changed or nothing: copy it to another disk, and look there",
        Trouble::Nothing
        | Trouble::Folder
        | Trouble::Full
        | Trouble::Crowded
        | Trouble::Refused(_) => "",
    }
}

/// Says what is wrong with a thing, and with what stands in it where that has a name, and what to do.
fn say_parts<'a, E: Sink>(
    alloc: Global,
    first: &'a str,
    second: &'a str,
    wrong: &'a str,
    advice: &'a str,
    sink: &mut E,
)
    ensures { Says (E.state sink.old) (E.state sink.new) }
{
    let message = Message {
        things: &[first, second],
        wrong,
        advice,
    };
    say(alloc, &message, sink);
}

/// Says why a call did not do all that it was asked for, where there is memory for it.
fn tell_all<E: Sink>(
    place: &Place<'_>,
    trouble: Trouble,
    about: About<'_>,
    sink: &mut E,
) -> Result<(), Unmade>
    ensures ok { OnOk result (Says (E.state sink.old) (E.state sink.new)) }
    ensures err { OnErr result (sink.new ≡ sink.old) }
{
    let wrong = wrong_of(place, trouble, about)?;
    let advice = advice_of(place, trouble, about)?;
    let first = thing_text(place, trouble)?;
    let second = second_text(place, trouble, about)?;
    say_parts(
        place.alloc,
        first.as_str(),
        second.as_str(),
        wrong.as_str(),
        advice.as_str(),
        sink,
    );
    Ok(())
}

/// Says why a call did not do all that it was asked for.
fn tell<E: Sink>(place: &Place<'_>, trouble: Trouble, about: About<'_>, sink: &mut E)
    ensures { Says (E.state sink.old) (E.state sink.new) }
{
    if tell_all(place, trouble, about, sink).is_err() {
        say_no_memory(sink);
    }
}

/// Says a trouble, unless that was said.
fn tell_new<E: Sink>(place: &Place<'_>, trouble: Trouble, about: About<'_>, sink: &mut E)
    ensures { Tells trouble (E.state sink.old) (E.state sink.new) }
{
    if !trouble.is_said() {
        tell(place, trouble, about, sink);
    }
}

/// How a call ends that came to this. Where that is a trouble, it is said, unless it was said already.
pub fn ended<E: Sink>(
    place: &Place<'_>,
    done: Result<(), Trouble>,
    about: About<'_>,
    sink: &mut E,
) -> Status
    ensures { Ends done result (E.state sink.old) (E.state sink.new) }
{
    match done {
        Ok(()) => Status::Done,
        Err(trouble) => {
            tell_new(place, trouble, about, sink);
            trouble.status()
        }
    }
}

/// The same where the trouble is with the other image.
pub(crate) fn ended_of_other<E: Sink>(place: &Place<'_>, trouble: Trouble, sink: &mut E) -> Status
    ensures { Ends (Err trouble) result (E.state sink.old) (E.state sink.new) }
{
    let other = Place {
        image: place.file,
        ..*place
    };
    ended(&other, Err(trouble), About::Image, sink)
}
