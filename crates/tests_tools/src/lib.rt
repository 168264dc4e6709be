//! What the crates of tests share: disks, sources, listings and sinks in memory of which chosen calls fail, and the
//! reading of tables. It stands low, so that each of these crates can stand on it. No program does.
//!
//! A table is one text, whose rows are parted by `#` and their fields by `|`: the proof of a function takes long for
//! many constants. What a text does not spell has a value that a test notices, as `NEVER` for a number, so that a test
//! calls these functions without a way to fail. Only memory may run out: then the test ends.
#![tactic(auto)]

use disk_model::{FailingDisk, MemDisk};
use dump_streams::ListingStream;
use path_keys::Path;
use script_lines::{Command, MAX_LINE, MemSink, MemSource, parse_command};
use std::alloc::Global;
use store_base::{NoMemory, Version};

/// What never comes: the number of a call that is to fail, where none is.
pub const NEVER: u64 = u64::MAX;

/// The room of a sink, in bytes.
const SINK_ROOM: usize = 262_144;

/// The room of a disk's record, in bytes, beside three times the length of its image: a write takes 16 bytes and those
/// that it writes, a sync 16.
const DISK_ROOM: usize = 131_072;

/// The room of the record of a disk on which a store carries out some dozens of commands, in bytes.
const STORE_ROOM: usize = 4_194_304;

/// A disk in memory of so many bytes, all zero, on which a store carries out some dozens of commands.
pub fn zero_disk(alloc: Global, len: u64) -> Result<MemDisk, NoMemory> {
    let zeros = vec![in alloc; 0; len as usize]?;
    MemDisk::new(alloc, &zeros, STORE_ROOM)
}

/// A sink in memory whose puts of these numbers fail.
pub fn sink_of(alloc: Global, failing: &[u64]) -> Result<MemSink, NoMemory> {
    MemSink::new(alloc, SINK_ROOM, Vec::from_slice(alloc, failing)?)
}

/// A source in memory that gives these bytes, at its first takes so many of them at most, and then as many as are asked
/// for. Its takes of these numbers fail.
pub fn source_of(
    alloc: Global,
    bytes: &[u8],
    pieces: &[usize],
    failing: &[u64],
) -> Result<MemSource, NoMemory> {
    let bytes = Vec::from_slice(alloc, bytes)?;
    let pieces = Vec::from_slice(alloc, pieces)?;
    Ok(MemSource::new(bytes, pieces, Vec::from_slice(alloc, failing)?))
}

/// The stream of a listing, whose source gives this many bytes at each of its first takes, and fails at that of this
/// number.
pub fn listing_of(
    alloc: Global,
    text: &[u8],
    piece: usize,
    failing: u64,
) -> Result<ListingStream<MemSource>, NoMemory> {
    let source = source_of(alloc, text, &[piece; 64], &[failing])?;
    match ListingStream::new(alloc, source, Version::Two) {
        Ok(stream) => Ok(stream),
        Err((fault, _)) => Err(fault),
    }
}

/// The lines of a file `/f` of 2,049 bytes.
pub fn long_listing(alloc: Global) -> Result<Vec<u8>, NoMemory> {
    let mut text = Vec::from_slice(alloc, b"write /f 0 ")?;
    text.extend_from_slice(&[b'a'; 4096])?;
    text.extend_from_slice(b"\nwrite /f 2048 0b\n")?;
    Ok(text)
}

/// A disk in memory that has these bytes. Its calls of these numbers fail, and all from the last number on, if there is
/// one.
pub fn disk_of(
    alloc: Global,
    bytes: &[u8],
    failing: &[u64],
    from: Option<u64>,
) -> Result<FailingDisk<MemDisk>, NoMemory> {
    let room = bytes.len().saturating_mul(3).saturating_add(DISK_ROOM);
    let disk = MemDisk::new(alloc, bytes, room)?;
    Ok(FailingDisk::new(disk, Vec::from_slice(alloc, failing)?, from))
}

/// The path that a text spells; the root where it spells none.
pub fn path_of(text: &str) -> Path {
    Path::parse(text.as_bytes()).unwrap_or(Path::root())
}

/// The command that a line spells; `space` where it spells none.
pub fn command_of(line: &str) -> Command {
    let line = line.as_bytes();
    if line.len() > MAX_LINE {
        return Command::Space;
    }
    parse_command(line).unwrap_or(Command::Space)
}

/// The number that a text spells; `NEVER` where it spells none.
pub fn number(text: &str) -> u64 {
    text.parse::<u64>().unwrap_or(NEVER)
}

/// The numbers that a text spells, parted by blanks; `NEVER` for each that it does not have.
pub fn numbers<const N: usize>(text: &str) -> [u64; N] {
    let mut numbers = [NEVER; N];
    for (place, word) in numbers.iter_mut().zip(text.split_whitespace()) {
        *place = number(word);
    }
    numbers
}

/// The fields of a row, at most eight; no text for each that it does not have.
pub fn fields(row: &str) -> [&str; 8] {
    let mut fields = [""; 8];
    for (at, field) in row.split('|').enumerate() {
        if at < 8 {
            fields[at] = field;
        }
    }
    fields
}
