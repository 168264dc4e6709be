//! A source over a reader of std, and a sink over a writer of std. They do not tell their bytes.

ghost use Rattle.std.specs.Prelude.{◌≡◌, ◌≤◌, false, [], length, IfSome};

use crate::fault::{SinkFault, SourceFault};
use crate::sink::Sink;
use crate::source::Source;
use std::io::{ErrorKind, Read, Write};
use std::marker::Model;

/// A source over a reader. A read that was interrupted is made again; each other error of the reader is a
/// fault.
#[derive(Drop)]
pub struct StdSource<R> {
    reader: R,
    faults: u64,
}

impl<R> Model for StdSource<R> {
    ghost use Rattle.script_lines.specs.Adapted.{Adapted};

    ghost Value = { Adapted R };

    ghost view = { λ s. record { inner = s.reader; faults = s.faults } };
}

impl<R> StdSource<R> {
    /// A source that reads from this reader. No fault came yet.
    pub fn new(reader: R) -> Self
        ensures { result ≡ record { inner = reader; faults = 0 } }
    {
        StdSource { reader, faults: 0 }
    }

    /// Gives the reader back.
    pub fn into_inner(self) -> R
        ensures { result ≡ self.inner }
    {
        let StdSource { reader, faults: _ } = self;
        reader
    }
}

impl<R: Read> Source for StdSource<R> {
    ghost state = { λ s. record { is_observable = false; left = []; faults = s.faults } };

    fn take(&mut self, into: &mut [u8]) -> Result<usize, SourceFault> {
        let faults = self.faults;
        let Some(count) = read_some(&mut self.reader, into) else {
            self.faults = faults.saturating_add(1);
            return Err(SourceFault);
        };
        Ok(count)
    }
}

/// Reads into the buffer, as often as a read is interrupted, and answers how many bytes came.
fn read_some<R: Read>(reader: &mut R, into: &mut [u8]) -> Option<usize>
    ensures { IfSome result (λ count. count ≤ length into.new) }
{
    for _ in 0..u64::MAX {
        match reader.read(into) {
            Ok(count) => return Some(count),
            Err(error) if error.kind() == ErrorKind::Interrupted => {}
            Err(_) => return None,
        }
    }
    None
}

/// A sink over a writer. A write that was interrupted is made again, and one that takes a part of a piece is
/// followed by one of the rest; each other error of the writer is a fault, and so is a write that takes
/// nothing. A put that succeeds wrote the whole piece and flushed the writer.
#[derive(Drop)]
pub struct StdSink<W> {
    writer: W,
    faults: u64,
}

impl<W> Model for StdSink<W> {
    ghost use Rattle.script_lines.specs.Adapted.{Adapted};

    ghost Value = { Adapted W };

    ghost view = { λ s. record { inner = s.writer; faults = s.faults } };
}

impl<W> StdSink<W> {
    /// A sink that writes to this writer. No fault came yet.
    pub fn new(writer: W) -> Self
        ensures { result ≡ record { inner = writer; faults = 0 } }
    {
        StdSink { writer, faults: 0 }
    }

    /// Gives the writer back.
    pub fn into_inner(self) -> W
        ensures { result ≡ self.inner }
    {
        let StdSink { writer, faults: _ } = self;
        writer
    }
}

impl<W: Write> Sink for StdSink<W> {
    ghost state = { λ s. record { is_observable = false; written = []; faults = s.faults } };

    fn put(&mut self, bytes: &[u8]) -> Result<(), SinkFault> {
        let faults = self.faults;
        if self.writer.write_all(bytes).is_err() || self.writer.flush().is_err() {
            self.faults = faults.saturating_add(1);
            return Err(SinkFault);
        }
        Ok(())
    }
}
