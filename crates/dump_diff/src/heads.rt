//! Streams whose next step is at hand.

ghost use Rattle.std.specs.Prelude.{OnOk, IfErr};
ghost use Rattle.store_model.specs.Trees.{Tree, IsTree};
ghost use Rattle.dump_diff.specs.Ahead.{IsAhead};

use dump_streams::{DumpStep, DumpStream, StreamFault};

/// The next step of a stream.
#[derive(Drop)]
pub struct Head {
    /// The step, if there is one, and else any.
    pub step: DumpStep,
    /// Whether there is one.
    pub is_there: bool,
}

impl Head {
    /// Makes a head with no step.
    pub fn new() -> Self {
        Head {
            step: DumpStep::new(),
            is_there: false,
        }
    }

    /// Takes the next step of the stream. The faults are the stream's.
    pub fn fetch<S: DumpStream>(&mut self, stream: &mut S) -> Result<(), StreamFault>
        ensures ahead { (t : Tree) → IsTree t → S.came stream.old t
            → OnOk result (IsAhead (S.came stream.new) (S.whole stream.new) self.new t) }
        ensures failed { (t : Tree) → S.came stream.old t → IfErr result (S.fails stream.new t) }
        ensures keeps { (start : S) → S.keeps start stream.old → S.keeps start stream.new }
    {
        self.is_there = stream.next(&mut self.step)?;
        Ok(())
    }
}
