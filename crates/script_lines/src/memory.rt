//! A source and a sink in memory, some of whose calls fail on purpose. What they mean is computed from what they
//! keep.

ghost use Rattle.std.specs.Prelude.{◌≡◌, ◌≤◌, ◌↔◌, IsOk, IsErr, IfOk, OnOk, OnErr, Contains, length};
ghost use Rattle.script_lines.specs.SourceState.{IsTake};
ghost use Rattle.script_lines.specs.SinkState.{IsPut};
ghost use Rattle.script_lines.specs.Memory.{source_state, sink_state, next_count, after_take, after_failed_take};
ghost use Rattle.script_lines.specs.Memory.{IsFailing, after_put, after_failed_put};

use crate::fault::{SinkFault, SourceFault};
use crate::sink::Sink;
use crate::source::Source;
use std::alloc::Global;
use std::marker::Model;
use store_base::NoMemory;

/// A source in memory. It tells its bytes.
#[derive(Drop)]
pub struct MemSource {
    bytes: Vec<u8>,
    start: usize,
    pieces: Vec<usize>,
    failing: Vec<u64>,
    takes: u64,
    faults: u64,
}

impl Model for MemSource {
    ghost use Rattle.std.specs.Prelude.{drop, ◌≤◌, length, vec_len};
    ghost use Rattle.script_lines.specs.Memory.{SourceMemory};

    ghost Value = { SourceMemory };

    ghost view = { λ s. record {
      left = drop s.start s.bytes.items;
      pieces = s.pieces.items;
      failing = s.failing.items;
      takes =
          s.takes;
      faults = s.faults;
    } };

    ghost invariant = { λ s. s.start ≤ vec_len s.bytes };
}

impl MemSource {
    /// A source that has these bytes. Its takes are numbered from 0. Take `k` gives at most `pieces[k]` bytes, though
    /// at least 1 where one is left. Once the pieces are used up, a take gives as many as it asks for. It fails
    /// exactly where `k` stands in `failing`.
    pub fn new(bytes: Vec<u8>, pieces: Vec<usize>, failing: Vec<u64>) -> Self
        ensures { result ≡ record {
          left = bytes.items;
          pieces = pieces.items;
          failing = failing.items;
          takes = 0;
          faults = 0;
        } }
    {
        MemSource {
            bytes,
            start: 0,
            pieces,
            failing,
            takes: 0,
            faults: 0,
        }
    }

    /// How many bytes the next take gives into a buffer of this length.
    fn next_count(&self, room: usize) -> usize
        ensures value { result ≡ next_count self.now room }
        ensures room { result ≤ room }
        ensures left { result ≤ length self.now.left }
    {
        let left = self.bytes.len() - self.start;
        match usize::try_from(self.takes) {
            Ok(take) if take < self.pieces.len() => room.min(self.pieces[take].max(1)).min(left),
            _ => room.min(left),
        }
    }
}

impl Source for MemSource {
    ghost state = { source_state };

    /// Fails exactly where the number of this take stands in the list that it was made with.
    fn take(&mut self, into: &mut [u8]) -> Result<usize, SourceFault>
        ensures contract { IsTake (source_state self.old) (source_state self.new) into.new result }
        ensures fault { IsErr result ↔ Contains self.old.failing self.old.takes }
        ensures count { IfOk result (λ count. count ≡ next_count self.old (length into.old)) }
        ensures ok { IfOk result (λ count. self.new ≡ after_take self.old count) }
        ensures err { OnErr result (self.new ≡ after_failed_take self.old) }
    {
        let fails = self.failing.contains(&self.takes);
        let count = self.next_count(into.len());
        self.takes = self.takes.saturating_add(1);
        if fails {
            self.faults = self.faults.saturating_add(1);
            return Err(SourceFault);
        }
        into[..count].copy_from_slice(&self.bytes[self.start..self.start + count]);
        self.start += count;
        Ok(count)
    }
}

/// A sink in memory. It tells its bytes.
#[derive(Drop)]
pub struct MemSink {
    written: Vec<u8>,
    room: usize,
    failing: Vec<u64>,
    puts: u64,
    faults: u64,
}

impl Model for MemSink {
    ghost use Rattle.std.specs.Prelude.{◌≤◌, length, vec_len, vec_capacity};
    ghost use Rattle.script_lines.specs.Memory.{SinkMemory};

    ghost Value = { SinkMemory };

    ghost view = { λ s. record {
      written = s.written.items;
      room = s.room;
      failing = s.failing.items;
      puts = s.puts;
      faults = s.faults;
    } };

    ghost invariant = { λ s. (vec_len s.written ≤ s.room) × (s.room ≤ vec_capacity s.written) };
}

impl MemSink {
    ghost use Rattle.std.specs.Prelude.{◌≡◌, IfOk, []};

    /// An empty sink with room for so many bytes, all of it taken here. `failing` has the numbers, from 0, of the
    /// puts that fail. A put fails too where it has more bytes than there is room for, and no other does. A put that
    /// fails appends nothing.
    /// `NoMemory`: there is no sink.
    pub fn new(alloc: Global, room: usize, failing: Vec<u64>) -> Result<Self, NoMemory>
        ensures { IfOk result (λ sink. sink ≡ record {
          written = [];
          room = room;
          failing = failing.items;
          puts = 0;
          faults = 0;
        }) }
    {
        let written = Vec::with_capacity(alloc, room)?;
        Ok(MemSink {
            written,
            room,
            failing,
            puts: 0,
            faults: 0,
        })
    }

    /// The bytes that were written.
    pub fn written(&self) -> &[u8]
        ensures { result.now ≡ self.now.written }
    {
        &self.written
    }
}

impl Sink for MemSink {
    ghost state = { sink_state };

    /// Fails exactly where its number is one of those that the sink was made with, or the bytes have no room.
    /// Then nothing is appended.
    fn put(&mut self, bytes: &[u8]) -> Result<(), SinkFault>
        ensures contract { IsPut (sink_state self.old) (sink_state self.new) bytes.now result }
        ensures fault { IsErr result ↔ IsFailing self.old (length bytes.now) }
        ensures ok { OnOk result (self.new ≡ after_put self.old bytes.now) }
        ensures err { OnErr result (self.new ≡ after_failed_put self.old) }
    {
        let fails = self.failing.contains(&self.puts)
            || bytes.len() > self.room - self.written.len();
        self.puts = self.puts.saturating_add(1);
        if fails || self.written.extend_from_slice(bytes).is_err() {
            self.faults = self.faults.saturating_add(1);
            return Err(SinkFault);
        }
        Ok(())
    }
}
