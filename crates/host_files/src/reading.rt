//! Files that are read one after another.

ghost use Rattle.std.specs.Prelude.{◌≡◌, ◌≤◌, length, min, IfOk};

use crate::opened::{open_plain, read_some};
use std::fs::File;
use std::io::{BufRead, BufReader, Error, ErrorKind, Read, Result};

/// How many bytes of a file are read at once.
const ROOM: usize = 65_536;

/// The file that is read, if one is.
#[derive(Drop)]
struct Slot {
    file: Option<File>,
}

impl Read for Slot {
    fn read(&mut self, into: &mut [u8]) -> Result<usize> {
        match &mut self.file {
            Some(file) => file.read(into),
            None => Ok(0),
        }
    }
}

/// Reads plain files, one after another, in large pieces. The room for what is read ahead is made with the first file,
/// and kept for all of them. Of each no more bytes are read than it has when it is opened.
#[derive(Drop)]
pub struct Reading {
    reader: Option<BufReader<Slot>>,
    /// How many bytes of the file may still come.
    left: u64,
}

impl Reading {
    /// Makes a reader that reads no file yet.
    pub fn new() -> Self {
        Reading {
            reader: None,
            left: 0,
        }
    }

    /// Opens the plain file at a path of the host, in the place of the one that was read, and tells how many bytes it
    /// has. After an error none is read.
    pub fn open(&mut self, rt: &HostRuntime, path: &str) -> Result<u64> {
        self.leave();
        let (file, len) = open_plain(rt, path)?;
        let slot = Slot { file: Some(file) };
        match &mut self.reader {
            Some(reader) => *reader.get_mut() = slot,
            None => self.reader = Some(BufReader::with_capacity(rt.alloc(), ROOM, slot)?),
        }
        self.left = len;
        Ok(len)
    }

    /// Closes the file that is read, and forgets what was read ahead.
    fn leave(&mut self) {
        self.left = 0;
        if let Some(reader) = &mut self.reader {
            let ahead = reader.buffer().len();
            reader.consume(ahead);
            reader.get_mut().file = None;
        }
    }

    /// The next bytes of the file that is read; none where as many came as it had when it was opened, or where none is
    /// read. It is an error that it ends before: it became shorter meanwhile.
    pub fn read(&mut self, into: &mut [u8]) -> Result<usize>
        ensures { IfOk result (λ count. count ≤ length into.new) }
    {
        let room = room_for(into.len(), self.left);
        let Some(reader) = &mut self.reader else {
            return Ok(0);
        };
        if room == 0 {
            return Ok(0);
        }
        let count = read_some(reader, &mut into[..room])?;
        if count == 0 {
            return Err(Error::from(ErrorKind::UnexpectedEof));
        }
        self.left = self.left.saturating_sub(count as u64);
        Ok(count)
    }
}

/// How many bytes a buffer of this length takes, where so many may still come.
fn room_for(len: usize, left: u64) -> usize
    ensures { result ≡ min len left }
{
    match usize::try_from(left) {
        Ok(left) => len.min(left),
        Err(_) => len,
    }
}
