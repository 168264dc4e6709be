//! What is reported of a folder of the host: what could not be read, packed or made, and what was left out.

use crate::left_out::LeftOut;
use path_keys::Path;
use std::io::Error;

/// What is spoken of.
#[derive(Clone, Copy, Debug)]
pub enum Thing<'a> {
    /// A path of the image, in the folder.
    Path(&'a Path),
    /// A name of the host, in a folder at a path of the image, that has no path there.
    Name(&'a Path, &'a str),
    /// A path of the host, as it was given.
    Host(&'a str),
}

/// What is said of it.
#[derive(Clone, Copy, Debug, PartialEq, Eq)]
pub enum Remark {
    /// It is left out of what is packed.
    NotPacked(LeftOut),
    /// It cannot be read.
    Unreadable,
    /// It has no path on the host, though it was found there.
    NoHostPath,
    /// It was a link when it was found.
    NoLongerLink,
    /// It is not made: its name is the spelling of no name of the host.
    NoSpelling,
    /// It is not made: its name is not UTF-8.
    NotUtf8,
    /// It is not made: memory ran out.
    NoMemory,
    /// It is a link, and left out.
    LinkLeftOut,
    /// The folder in which a tree is to be made is there, and is no empty folder.
    NotEmpty,
    /// It cannot be made.
    NotMade,
    /// A file whose bytes cannot all be written.
    NotWritten,
    /// Its mode cannot be set.
    ModeNotSet,
    /// The time of its last change cannot be set.
    TimeNotSet,
    /// It was made, and cannot be taken away again.
    Stays,
    /// The folder in which a tree was to be made stood there, and nothing was made in it.
    NothingMade,
    /// The folder in which a tree was made: not all that was made could be taken away again.
    NotAllTakenAway,
    /// The folder in which a tree was made, and which was made itself: it is taken away again.
    TakenAway,
    /// The folder in which a tree was made, and which stood there: what was made in it is taken away again.
    TakenAwayInIt,
}

/// Tells a person, in the words of a program, what is reported. A report that cannot be told is lost.
pub trait Reporter {
    /// Tells what is said of a thing, and what the system answered, if it was asked.
    fn report(&mut self, thing: &Thing<'_>, remark: Remark, error: Option<&Error>);
}
