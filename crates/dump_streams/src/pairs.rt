//! The pairs of a dump, as what takes its steps.

ghost use Rattle.dump_streams.specs.Listed.{TookSteps};
ghost use Rattle.dump_streams.specs.Takers.{BreaksAnyhow};

use crate::taker::{Taker, TakerFault};
use crate::{DumpStep, ListedPairs, PairsFault};

impl Taker for ListedPairs {
    ghost took = { TookSteps };

    ghost broke = { BreaksAnyhow };

    /// Adds the pairs of the step, and counts their pages.
    /// `Failed`: there would be more pairs than can be laid out.
    fn take(&mut self, step: &DumpStep) -> Result<(), TakerFault> {
        match self.add(step) {
            Ok(()) => Ok(()),
            Err(PairsFault::NoMemory) => Err(TakerFault::NoMemory),
            Err(PairsFault::TooMany) => Err(TakerFault::Failed),
        }
    }
}
