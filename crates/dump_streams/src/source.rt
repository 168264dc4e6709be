//! A source that has the lines of a stream.

ghost use Rattle.std.specs.Prelude.{◌≡◌, ◌++◌, ◌<◌, ℕ, List, [], true, false, None, Ok, IfOk, IfErr, OnOk, MatchResult};
ghost use Rattle.std.specs.Prelude.{IsTrue, is_some, length, take};
ghost use Rattle.std.specs.Bool.{OnTrue};
ghost use Rattle.store_model.specs.Trees.{empty_tree};
ghost use Rattle.script_lines.specs.SourceState.{IsTake};
ghost use Rattle.dump_streams.specs.Sources.{source_state, Gave, IsReady};

use crate::fault::StreamFault;
use crate::room::LineRoom;
use crate::stream::DumpStream;
use crate::{DumpStep, write_step};
use script_lines::{SinkFault, Source, SourceFault};
use std::alloc::Global;
use store_base::NoMemory;

/// The lines of the steps of a stream, one after another, as a source. It does not tell its bytes. Its count of
/// faults starts at 0.
///
/// Once the stream failed each take fails, and `fault` tells why.
#[derive(Drop)]
pub struct ListingSource<S: DumpStream> {
    stream: S,
    /// The step that came last.
    step: DumpStep,
    /// What is left of its line.
    line: LineRoom,
    is_ended: bool,
    fault: Option<StreamFault>,
    faults: u64,
}

impl<S: DumpStream> ListingSource<S> {
    /// The lines of what this stream still gives. The room of a line is taken here.
    /// `NoMemory`: the stream is given back.
    pub fn new(alloc: Global, stream: S) -> Result<Self, (NoMemory, S)>
        ensures stream { IfOk result (λ source. source.stream ≡ stream) }
        ensures none { IfOk result (λ source. source.line.rest ≡ []) }
        ensures going { IfOk result (λ source. source.is_ended ≡ false) }
        ensures fault { IfOk result (λ source. source.fault ≡ None) }
        ensures faults { IfOk result (λ source. source.faults ≡ 0) }
        ensures gave { S.came stream empty_tree
            → IfOk result (λ source. Gave S.came S.whole source []) }
        ensures err { IfErr result (λ refused. refused.1 ≡ stream) }
    {
        let Ok(line) = LineRoom::new(alloc) else {
            return Err((NoMemory, stream));
        };
        Ok(ListingSource {
            stream,
            step: DumpStep::new(),
            line,
            is_ended: false,
            fault: None,
            faults: 0,
        })
    }

    /// Why the stream failed, if it did; `NoMemory` too where a line had no room.
    pub fn fault(&self) -> Option<StreamFault>
        ensures { result ≡ self.now.fault }
    {
        self.fault
    }

    /// Gives the stream back.
    pub fn into_stream(self) -> S
        ensures { result ≡ self.stream }
    {
        let ListingSource {
            stream,
            step: _,
            line: _,
            is_ended: _,
            fault: _,
            faults: _,
        } = self;
        stream
    }

    /// Puts the line of the next step in the place of the one before, or none at the end of the stream.
    /// `NoMemory`: the line has no room, or so the stream answers. Others are answers of the stream.
    fn next_line(&mut self) -> Result<(), StreamFault>
        requires going { self.old.is_ended ≡ false }
        requires none { self.old.line.rest ≡ [] }
        ensures ready { (bytes : List ℕ) → Gave S.came S.whole self.old bytes
            → OnOk result (IsReady S.came S.whole self.new bytes) }
        ensures fault { self.new.fault ≡ self.old.fault }
        ensures faults { self.new.faults ≡ self.old.faults }
    {
        self.line.clear();
        if !self.stream.next(&mut self.step)? {
            self.is_ended = true;
            return Ok(());
        }
        match write_step(&mut self.line, &self.step) {
            Ok(()) => Ok(()),
            Err(SinkFault) => Err(StreamFault::NoMemory),
        }
    }

    /// Takes the next line, unless a part of one is left or all lines came, and keeps a fault. It says whether no
    /// fault came, now or before.
    fn is_ready(&mut self) -> bool
        ensures going { IsTrue result → self.new.fault ≡ None }
        ensures ready { (bytes : List ℕ) → Gave S.came S.whole self.old bytes
            → OnTrue result (IsReady S.came S.whole self.new bytes) }
        ensures fault { result ≡ false → IsTrue (is_some self.new.fault) }
        ensures faults { self.new.faults ≡ self.old.faults }
    {
        if self.fault.is_some() {
            return false;
        }
        if self.is_ended || !self.line.is_empty() {
            return true;
        }
        match self.next_line() {
            Ok(()) => true,
            Err(fault) => {
                self.fault = Some(fault);
                false
            }
        }
    }
}

impl<S: DumpStream> Source for ListingSource<S> {
    ghost state = { source_state };

    /// What is given are the lines of the steps that come; at the end of the source they are the whole dump.
    /// `SourceFault`: the stream failed now or before, and `fault` tells why.
    fn take(&mut self, into: &mut [u8]) -> Result<usize, SourceFault>
        ensures contract { IsTake (source_state self.old) (source_state self.new) into.new result }
        ensures given { (bytes : List ℕ) → Gave S.came S.whole self.old bytes
            → IfOk result (λ count. Gave S.came S.whole self.new (bytes ++ take count into.new)) }
        ensures end { (bytes : List ℕ) → Gave S.came S.whole self.old bytes
            → 0 < length into.new → result ≡ Ok 0
            → self.new.is_ended ≡ true }
        ensures fault { MatchResult result (λ count. self.new.fault ≡ None)
            (λ fault. IsTrue (is_some self.new.fault)) }
    {
        // A count is told to be a u64 where it is read.
        let _faults = self.faults;
        if !self.is_ready() {
            self.faults = self.faults.saturating_add(1);
            return Err(SourceFault);
        }
        Ok(self.line.give(into))
    }
}
