//! Bytes that a call is given: by standard input, or by a file of the host.

use crate::trouble::{Thing, cause, no_memory, tell, unopened};
use box_words::{ListFault, Origin, Status, listed_names};
use std::fs::File;
use std::io::{Error, ErrorKind, Read};

/// How many bytes are read at once.
const PIECE: usize = 16_384;

/// What standard input is called.
pub const INPUT: &str = "standard input";

/// How many bytes a list of names has at most.
const MOST_LISTED: usize = 1 << 28;

/// Bytes that were read.
#[derive(Drop)]
pub enum Given {
    /// All that there were.
    All(Vec<u8>),
    /// There are more than were to be read.
    TooMany,
}

/// Reads bytes until their end, or until there are more than `most`.
fn read_all<R: Read>(rt: HostRuntime, from: &mut R, most: usize) -> Result<Given, Error> {
    let mut bytes = Vec::new(rt.alloc());
    let mut piece = [0; PIECE];
    for _ in 0..u64::MAX {
        match from.read(&mut piece) {
            Ok(0) => return Ok(Given::All(bytes)),
            Ok(count) => {
                let more = piece.get(..count).unwrap_or(&[]);
                if bytes.extend_from_slice(more).is_err() {
                    return Err(Error::from(ErrorKind::OutOfMemory));
                }
            }
            Err(error) if error.kind() == ErrorKind::Interrupted => {}
            Err(error) => return Err(error),
        }
        if bytes.len() > most {
            return Ok(Given::TooMany);
        }
    }
    Ok(Given::All(bytes))
}

/// Says that bytes could not be read.
fn unread(rt: HostRuntime, status: Status, name: &str, error: &Error) -> Status {
    if error.kind() == ErrorKind::OutOfMemory {
        return no_memory(rt, &Thing::File(name));
    }
    let advice = "look where its bytes come from, and try again";
    tell(rt, status, &Thing::File(name), cause(error), advice)
}

/// What something is called that gives bytes.
pub fn name_of(origin: Origin<'_>) -> &str {
    match origin {
        Origin::Input => INPUT,
        Origin::Host(path) => path,
    }
}

/// Reads all bytes of standard input or of a file, or tells that there are more than `most`.
pub fn given_bytes(rt: HostRuntime, origin: Origin<'_>, most: usize) -> Result<Given, Status> {
    let name = name_of(origin);
    match origin {
        Origin::Input => {
            let mut input = rt.stdin();
            read_all(rt, &mut input, most).map_err(|error| unread(rt, Status::Input, name, &error))
        }
        Origin::Host(path) => {
            let mut file = match File::open(&rt, path) {
                Ok(file) => file,
                Err(error) => {
                    let advice = "give a file that you may read, or - for standard input";
                    return Err(unopened(rt, path, cause(&error), advice));
                }
            };
            read_all(rt, &mut file, most).map_err(|error| unread(rt, Status::Host, name, &error))
        }
    }
}

/// Reads a list of names, each ended by a zero byte.
pub fn given_list(rt: HostRuntime, origin: Origin<'_>) -> Result<Vec<u8>, Status> {
    match given_bytes(rt, origin, MOST_LISTED)? {
        Given::All(bytes) => Ok(bytes),
        Given::TooMany => {
            let advice = "give the names in several calls";
            let thing = Thing::File(name_of(origin));
            Err(tell(rt, Status::Host, &thing, "it has more than 256 MiB", advice))
        }
    }
}

/// The names in a list.
pub fn names_in<'a>(
    rt: HostRuntime,
    origin: Origin<'_>,
    list: &'a [u8],
) -> Result<Vec<&'a str>, Status> {
    let thing = Thing::File(name_of(origin));
    match listed_names(rt.alloc(), list) {
        Ok(names) => Ok(names),
        Err(ListFault::NoMemory) => Err(no_memory(rt, &thing)),
        Err(ListFault::NotUtf8) => {
            let advice = "give names in UTF-8, with a zero byte behind each";
            Err(tell(rt, Status::Words, &thing, "a name is not UTF-8", advice))
        }
    }
}
