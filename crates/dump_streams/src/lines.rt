//! Takers that write the lines of steps, or nothing.

ghost use Rattle.std.specs.Prelude.{◌≡◌, [], List, IfErr, ⊤};
ghost use Rattle.dump_streams.specs.Lines.{TookLines, BreaksLine, PutsLine};
ghost use Rattle.dump_streams.specs.Takers.{IsTaken};

use crate::taker::{Taker, TakerFault};
use crate::{DumpStep, write_step};
use script_lines::Sink;

/// Writes the line of each step that it takes.
#[derive(Drop)]
pub struct LineTaker<W: Sink> {
    sink: W,
}

impl<W: Sink> LineTaker<W> {
    /// A taker that writes to this sink.
    pub fn new(sink: W) -> Self
        ensures sink { result.sink ≡ sink }
        ensures none { TookLines W.state result result [] }
    {
        LineTaker { sink }
    }

    /// Gives the sink back, with what was written.
    pub fn into_sink(self) -> W
        ensures { result ≡ self.sink }
    {
        let LineTaker { sink } = self;
        sink
    }
}

impl<W: Sink> Taker for LineTaker<W> {
    ghost took = { TookLines W.state };

    ghost broke = { BreaksLine W.state };

    /// Writes the line of the step.
    /// `Failed`: the sink failed. A prefix of the line may have been written.
    fn take(&mut self, step: &DumpStep) -> Result<(), TakerFault>
        ensures taken { (first : LineTaker W)
            → IsTaken (TookLines W.state first self.old) (TookLines W.state first self.new)
            step.now result }
        ensures broken { IfErr result (BreaksLine W.state self.old self.new step.now) }
        ensures put { PutsLine W.state self.old self.new step.now result }
    {
        match write_step(&mut self.sink, step) {
            Ok(()) => Ok(()),
            Err(_) => Err(TakerFault::Failed),
        }
    }
}

/// Takes all steps and does nothing: to drain a stream into it only tells whether the stream is whole.
#[derive(Clone, Copy, Debug)]
pub struct NoTaker;

impl Taker for NoTaker {
    ghost took = { λ first now steps. ⊤ };

    ghost broke = { λ first now step fault. ⊤ };

    /// Never fails.
    fn take(&mut self, step: &DumpStep) -> Result<(), TakerFault>
        ensures { result ≡ Ok tt }
    {
        let _ = step;
        Ok(())
    }
}
