//! Leads a stream into a taker.

ghost use Rattle.std.specs.Prelude.{◌≡◌, []};
ghost use Rattle.store_model.specs.Trees.{Tree};
ghost use Rattle.dump_streams.specs.Draining.{Drains};

use crate::DumpStep;
use crate::fault::StreamFault;
use crate::stream::DumpStream;
use crate::taker::{Taker, TakerFault};
use thiserror::Error;

/// Why the steps of a stream were not all taken.
#[derive(Clone, Copy, Debug, PartialEq, Eq, Error)]
pub enum DrainFault {
    /// The stream ended before its dump did.
    #[error(transparent)]
    Stream(StreamFault),
    /// A step was not taken.
    #[error(transparent)]
    Taker(TakerFault),
}

impl From<StreamFault> for DrainFault {
    ghost use Rattle.dump_streams.specs.declared.draining.DrainFault.TheVariants as drains;

    ghost from_gives = { λ cause fault. fault ≡ drains.Stream cause };

    fn from(fault: StreamFault) -> Self {
        DrainFault::Stream(fault)
    }
}

impl From<TakerFault> for DrainFault {
    ghost use Rattle.dump_streams.specs.declared.draining.DrainFault.TheVariants as drains;

    ghost from_gives = { λ cause fault. fault ≡ drains.Taker cause };

    fn from(fault: TakerFault) -> Self {
        DrainFault::Taker(fault)
    }
}

/// Takes all steps of a stream from which none came.
/// `Stream`: the stream ended before its dump did, and what came of it was taken. `Taker`: what came before the step
/// was taken; a part of the step may be carried out.
pub fn drain<S: DumpStream, T: Taker>(stream: &mut S, taker: &mut T) -> Result<(), DrainFault>
    ensures drains { Drains S.came S.whole S.fails T.took T.broke stream.old stream.new
        taker.old taker.new result }
    ensures keeps { (start : S) → S.keeps start stream.old → S.keeps start stream.new }
{
    let mut step = DumpStep::new();
    for _ in 0..u64::MAX {
        if !stream.next(&mut step)? {
            return Ok(());
        }
        taker.take(&step)?;
    }
    Err(DrainFault::Stream(StreamFault::TooLong))
}
