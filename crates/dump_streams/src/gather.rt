//! A sink that gathers bytes, and a taker that gathers the lines of steps.

ghost use Rattle.std.specs.Prelude.{◌≡◌, ◌+◌, ◌≤◌, ◌<◌, [], false, IsTrue, IfOk, IfErr, OnOk, length};
ghost use Rattle.store_base.specs.Counts.{raised};
ghost use Rattle.script_lines.specs.SinkState.{IsPut, IsObservable};
ghost use Rattle.dump_streams.specs.Dumps.{step_line};
ghost use Rattle.dump_streams.specs.Gathered.{gathered_state, gathers_none, CallsSink, IsFlushed, IsFrontOf, GrewFrom};
ghost use Rattle.dump_streams.specs.GatheredLines.{lines_state, GathersLine, TookGathered, BreaksGathered};

use crate::room::LineRoom;
use crate::taker::{Taker, TakerFault};
use crate::{DumpStep, write_step};
use script_lines::{Sink, SinkFault};
use std::alloc::Global;
use std::marker::Model;
use std::snapshot::Snapshot;
use store_base::NoMemory;

/// So many bytes are gathered.
const ROOM: usize = 65_536;

/// Gathers bytes, up to 65,536, and puts them into a sink by one call. All of its memory is taken when it is made.
/// When the bytes end, `flush` has to put those that are still held.
///
/// Its count of faults is its own, and starts at 0. After a fault each further call fails too, and nothing more is
/// put into the sink. How many of the held bytes came there is not known.
#[derive(Drop)]
pub struct GatheredSink<W: Sink> {
    sink: W,
    /// The bytes that are to be put; after a fault those of which a part may have been put.
    held: Vec<u8>,
    is_broken: bool,
    faults: u64,
    /// The sink before the bytes held.
    before: Snapshot<W>,
    /// The sink that it was made over.
    first: Snapshot<W>,
}

impl<W: Sink> Model for GatheredSink<W> {
    ghost use Rattle.std.specs.Prelude.{◌≤◌, vec_len, vec_capacity};
    ghost use Rattle.dump_streams.specs.Gathered.{Gathered, StandsAt, CameFrom, gather_room};

    ghost Value = { Gathered W };

    ghost view = { λ g. record {
      sink = g.sink;
      held = g.held.items;
      is_broken = g.is_broken;
      faults = g.faults;
      before = g.before.value;
      first = g.first.value;
    } };

    ghost invariant = { λ g. (vec_len g.held ≤ gather_room) × (gather_room ≤ vec_capacity g.held)
        × StandsAt W.state g.sink g.held.items g.is_broken g.before.value
        × CameFrom W.state g.first.value g.before.value g.sink g.is_broken g.faults };
}

impl<W: Sink> GatheredSink<W> {
    /// A sink that gathers bytes for this one.
    /// `NoMemory`: the sink is given back.
    pub fn new(alloc: Global, sink: W) -> Result<Self, (NoMemory, W)>
        ensures ok { IfOk result (λ gathered. gathered ≡ gathers_none sink) }
        ensures err { IfErr result (λ refused. refused.1 ≡ sink) }
    {
        let Ok(held) = Vec::with_capacity(alloc, ROOM) else {
            return Err((NoMemory, sink));
        };
        let (before, first) = (Snapshot::of(&sink), Snapshot::of(&sink));
        Ok(GatheredSink {
            sink,
            held,
            is_broken: false,
            faults: 0,
            before,
            first,
        })
    }

    /// Puts the bytes that are held into the sink, by one call, or by none where there are none. Then all bytes that
    /// came are written there.
    /// `SinkFault`: the put failed, or a call before. A prefix of the bytes held may have been written.
    pub fn flush(&mut self) -> Result<(), SinkFault>
        ensures put { IsPut (gathered_state W.state self.old)
            (gathered_state W.state self.new) [] result }
        ensures calls { CallsSink W.state self.old self.new result }
        ensures flushed { OnOk result (IsFlushed W.state self.new) }
        ensures same { self.new.first ≡ self.old.first }
    {
        if self.is_broken {
            return Err(self.refuse());
        }
        if self.held.is_empty() {
            return Ok(());
        }
        if self.sink.put(&self.held).is_err() {
            self.is_broken = true;
            self.faults = 1;
            return Err(SinkFault);
        }
        self.before = Snapshot::of(&self.sink);
        self.held.clear();
        Ok(())
    }

    /// Counts a call that fails, as each does after a fault.
    fn refuse(&mut self) -> SinkFault
        requires { IsTrue self.old.is_broken }
        ensures { self.new ≡ record self.old { faults = raised self.old.faults } }
    {
        self.faults = self.faults.saturating_add(1);
        SinkFault
    }

    /// Makes room for so many bytes, or leaves nothing held where there is none for them.
    fn make_room(&mut self, count: usize) -> Result<(), SinkFault>
        ensures put { IsPut (gathered_state W.state self.old)
            (gathered_state W.state self.new) [] result }
        ensures calls { CallsSink W.state self.old self.new result }
        ensures same { self.new.first ≡ self.old.first }
        ensures room { OnOk result (count ≤ ROOM → length self.new.held + count ≤ ROOM) }
        ensures none { OnOk result (ROOM < count → self.new.held ≡ []) }
    {
        if self.is_broken || count > ROOM - self.held.len() {
            return self.flush();
        }
        Ok(())
    }

    /// Puts bytes into the sink, past the room.
    fn put_through(&mut self, bytes: &[u8]) -> Result<(), SinkFault>
        requires going { self.old.is_broken ≡ false }
        requires none { self.old.held ≡ [] }
        ensures put { IsPut (gathered_state W.state self.old)
            (gathered_state W.state self.new) bytes.now result }
        ensures calls { CallsSink W.state self.old self.new result }
        ensures same { self.new.first ≡ self.old.first }
    {
        let put = self.sink.put(bytes);
        self.before = Snapshot::of(&self.sink);
        if put.is_err() {
            self.is_broken = true;
            self.faults = 1;
            return Err(SinkFault);
        }
        Ok(())
    }

    /// Gives the sink back. It lacks the bytes that are still held; after a fault it may have the first of them.
    pub fn into_sink(self) -> W
        ensures sink { result ≡ self.sink }
        ensures front { IsObservable (W.state result)
            → IsFrontOf (W.state result).written (gathered_state W.state self).written }
        ensures grew { GrewFrom W.state self.first result self.faults }
    {
        let GatheredSink {
            sink,
            held: _,
            is_broken: _,
            faults: _,
            before: _,
            first: _,
        } = self;
        sink
    }
}

impl<W: Sink> Sink for GatheredSink<W> {
    ghost state = { gathered_state W.state };

    /// Holds the piece, behind those that are held or were put.
    /// `SinkFault`: a put into the sink failed, now or before.
    fn put(&mut self, bytes: &[u8]) -> Result<(), SinkFault>
        ensures put { IsPut (gathered_state W.state self.old)
            (gathered_state W.state self.new) bytes.now result }
        ensures calls { CallsSink W.state self.old self.new result }
        ensures same { self.new.first ≡ self.old.first }
    {
        self.make_room(bytes.len())?;
        if bytes.len() > ROOM {
            return self.put_through(bytes);
        }
        let Ok(()) = self.held.extend_from_slice(bytes) else {
            unreachable!()
        };
        Ok(())
    }
}

/// Takes steps, and gathers their lines as `GatheredSink` gathers bytes. When the steps end, `flush` has to put those
/// that are still held.
#[derive(Drop)]
pub struct GatheredLines<W: Sink> {
    gathered: GatheredSink<W>,
    /// The line of a step, before it is gathered.
    line: LineRoom,
}

impl<W: Sink> GatheredLines<W> {
    /// Gathers lines for this sink. All memory but that of a longer line than a listing has is taken here.
    /// `NoMemory`: the sink is given back.
    pub fn new(alloc: Global, sink: W) -> Result<Self, (NoMemory, W)>
        ensures ok { IfOk result (λ lines. lines.gathered ≡ gathers_none sink) }
        ensures err { IfErr result (λ refused. refused.1 ≡ sink) }
    {
        let Ok(line) = LineRoom::new(alloc) else {
            return Err((NoMemory, sink));
        };
        let gathered = GatheredSink::new(alloc, sink)?;
        Ok(GatheredLines { gathered, line })
    }

    /// Gathers the line of a step.
    /// `NoMemory`: the line has no room, and nothing was done. `Failed`: a put into the sink failed, now or before.
    fn take_step(&mut self, step: &DumpStep) -> Result<(), TakerFault>
        ensures line { GathersLine W.state self.old self.new (step_line step.now) result }
        ensures same { self.new.gathered.first ≡ self.old.gathered.first }
    {
        self.line.clear();
        if write_step(&mut self.line, step).is_err() {
            return Err(TakerFault::NoMemory);
        }
        self.put_line()
    }

    /// Gathers the line at hand.
    fn put_line(&mut self) -> Result<(), TakerFault>
        ensures line { GathersLine W.state self.old self.new self.old.line.rest result }
        ensures same { self.new.gathered.first ≡ self.old.gathered.first }
    {
        match self.gathered.put(self.line.as_slice()) {
            Ok(()) => Ok(()),
            Err(SinkFault) => Err(TakerFault::Failed),
        }
    }

    /// Puts the lines that are held into the sink, as `flush` of `GatheredSink`.
    /// `Failed`: the put failed, or a call before.
    pub fn flush(&mut self) -> Result<(), TakerFault>
        ensures put { GathersLine W.state self.old self.new [] result }
        ensures flushed { OnOk result (IsFlushed W.state self.new.gathered) }
        ensures same { self.new.gathered.first ≡ self.old.gathered.first }
    {
        match self.gathered.flush() {
            Ok(()) => Ok(()),
            Err(SinkFault) => Err(TakerFault::Failed),
        }
    }

    /// Gives the sink back, as `into_sink` of `GatheredSink`.
    pub fn into_sink(self) -> W
        ensures sink { result ≡ self.gathered.sink }
        ensures front { IsObservable (W.state result)
            → IsFrontOf (W.state result).written (lines_state W.state self).written }
        ensures grew { GrewFrom W.state self.gathered.first result self.gathered.faults }
    {
        let GatheredLines { gathered, line: _ } = self;
        gathered.into_sink()
    }
}

impl<W: Sink> Taker for GatheredLines<W> {
    ghost took = { TookGathered W.state };

    ghost broke = { BreaksGathered W.state };

    /// Gathers the line of the step.
    /// `NoMemory`: the line has no room, and nothing was done. `Failed`: a put into the sink failed, now or before.
    fn take(&mut self, step: &DumpStep) -> Result<(), TakerFault> {
        self.take_step(step)
    }
}
