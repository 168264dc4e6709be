//! What is said of files that were not opened.

use crate::output::say;
use box_calls::say as say_message;
use box_words::{Message, Status};
use std::io::{Error, ErrorKind};

/// What a message is about.
#[derive(Clone, Copy)]
pub enum Thing<'a> {
    /// The words, or the program.
    OfCall,
    /// A file of the host.
    File(&'a str),
    /// An image, and a path in it.
    Path(&'a str, &'a str),
}

/// Says what is wrong with a thing, and what to do, and answers the status.
pub fn tell(
    rt: HostRuntime,
    status: Status,
    thing: &Thing<'_>,
    wrong: &str,
    advice: &str,
) -> Status {
    let (first, second) = match *thing {
        Thing::OfCall => ("the words", ""),
        Thing::File(name) => (name, ""),
        Thing::Path(image, path) => (image, path),
    };
    let message = Message {
        things: &[first, second],
        wrong,
        advice,
    };
    say_message(rt.alloc(), &message, &mut say(rt));
    status
}

/// Says that memory ran out at a thing, and answers the status.
pub fn no_memory(rt: HostRuntime, thing: &Thing<'_>) -> Status {
    let (wrong, advice) = ("memory ran out", "end other programs, and try again");
    tell(rt, Status::NoMemory, thing, wrong, advice)
}

/// Says that a file or a folder could not be opened or made, and answers the status.
pub fn unopened(rt: HostRuntime, name: &str, wrong: &str, advice: &str) -> Status {
    tell(rt, Status::NotOpened, &Thing::File(name), wrong, advice)
}

/// What the system answered, in words.
pub fn cause(error: &Error) -> &'static str {
    match error.kind() {
        ErrorKind::NotFound => "no such file or folder",
        ErrorKind::PermissionDenied => "permission denied",
        ErrorKind::AlreadyExists => "something is there already",
        ErrorKind::NotADirectory => "a part of the path is not a folder",
        ErrorKind::IsADirectory => "it is a folder",
        ErrorKind::DirectoryNotEmpty => "it is not empty",
        ErrorKind::ReadOnlyFilesystem => "its disk can only be read",
        ErrorKind::StorageFull | ErrorKind::QuotaExceeded => "no room is left on its disk",
        ErrorKind::OutOfMemory => "memory ran out",
        ErrorKind::InvalidFilename => "the name is too long",
        ErrorKind::InvalidInput => "it is not a plain file",
        ErrorKind::UnexpectedEof => "it became shorter",
        _ => "the system refused it",
    }
}
