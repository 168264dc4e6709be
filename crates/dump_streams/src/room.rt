//! The room of a line.

ghost use Rattle.std.specs.Prelude.{◌≡◌, ◌++◌, ◌↔◌, [], IfOk, IsTrue, length, min, take};
ghost use Rattle.dump_streams.specs.Rooms.{room_state};

use script_lines::{MAX_TEXT, Sink, SinkFault};
use std::alloc::Global;
use std::marker::Model;
use store_base::NoMemory;

/// Holds a line, and gives it away in pieces.
#[derive(Drop)]
pub struct LineRoom {
    bytes: Vec<u8>,
    /// How many of them were given.
    start: usize,
    faults: u64,
}

impl Model for LineRoom {
    ghost use Rattle.std.specs.Prelude.{drop, ◌≤◌, vec_len};
    ghost use Rattle.dump_streams.specs.Rooms.{Room};

    ghost Value = { Room };

    ghost view = { λ r. record { rest = drop r.start r.bytes.items; faults = r.faults } };

    ghost invariant = { λ r. r.start ≤ vec_len r.bytes };
}

impl LineRoom {
    /// A room that has no line. Its memory is taken here.
    pub fn new(alloc: Global) -> Result<Self, NoMemory>
        ensures { IfOk result (λ room. room ≡ record { rest = []; faults = 0 }) }
    {
        let bytes = Vec::with_capacity(alloc, MAX_TEXT)?;
        Ok(LineRoom {
            bytes,
            start: 0,
            faults: 0,
        })
    }

    /// Whether nothing is left of the line.
    pub fn is_empty(&self) -> bool
        ensures { IsTrue result ↔ self.now.rest ≡ [] }
    {
        self.start == self.bytes.len()
    }

    /// What is left of the line.
    pub fn as_slice(&self) -> &[u8]
        ensures { result.now ≡ self.now.rest }
    {
        &self.bytes[self.start..]
    }

    /// Lets go of the line.
    pub fn clear(&mut self)
        ensures { self.new ≡ record self.old { rest = [] } }
    {
        self.start = 0;
        self.bytes.clear();
    }

    /// Gives the first of the bytes that are left, as many as there is room for.
    pub fn give(&mut self, into: &mut [u8]) -> usize
        ensures count { result ≡ min (length into.new) (length self.old.rest) }
        ensures given { self.old.rest ≡ take result into.new ++ self.new.rest }
        ensures faults { self.new.faults ≡ self.old.faults }
    {
        let count = into.len().min(self.bytes.len() - self.start);
        into[..count].copy_from_slice(&self.bytes[self.start..self.start + count]);
        self.start += count;
        count
    }
}

impl Sink for LineRoom {
    ghost state = { room_state };

    fn put(&mut self, bytes: &[u8]) -> Result<(), SinkFault> {
        if self.bytes.extend_from_slice(bytes).is_err() {
            self.faults = self.faults.saturating_add(1);
            return Err(SinkFault);
        }
        Ok(())
    }
}
