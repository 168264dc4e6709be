//! The contract of a taker: what is done with each step of a dump.

ghost use Rattle.std.specs.Prelude.{List, IfErr};
ghost use Rattle.dump_streams.specs.Dumps as dumps;
ghost use Rattle.dump_streams.specs.Takers.{IsTaken};
ghost use Rattle.dump_streams.specs.declared.taker.TakerFault.{TakerFault};

use crate::DumpStep;
use thiserror::Error;

/// Why a step was not taken. What the taker answers about the cause is its own affair.
#[derive(Clone, Copy, Debug, PartialEq, Eq, Error)]
pub enum TakerFault {
    /// Memory ran out.
    #[error("memory ran out")]
    NoMemory,
    /// What the step asks for failed.
    #[error("the step was not carried out")]
    Failed,
}

/// Takes the steps of a dump, one after another.
pub trait Taker {
    /// From the first moment to the second these steps were taken, and nothing else was done.
    ghost took: { Self → Self → List dumps.DumpStep → Type 0 };

    /// From the first moment to the second this step was not taken, for this fault, and nothing was done but a part of
    /// it.
    ghost broke: { Self → Self → dumps.DumpStep → TakerFault → Type 0 };

    /// Takes a step of a dump.
    /// After an error a part of it may have been carried out.
    fn take(&mut self, step: &DumpStep) -> Result<(), TakerFault>
        ensures taken { (first : Self) → IsTaken (took first self.old) (took first self.new)
            step.now result }
        ensures broken { IfErr result (broke self.old self.new step.now) };
}
