//! Why two dumps were not compared.

ghost use Rattle.std.specs.Prelude.{◌≡◌};

use dump_streams::StreamFault;
use store_base::NoMemory;
use thiserror::Error;

/// Why two dumps were not compared.
#[derive(Clone, Copy, Debug, PartialEq, Eq, Error)]
pub enum CompareFault {
    /// The first stream ended before its dump did.
    #[error("the first dump: {0}")]
    First(StreamFault),
    /// The second stream ended before its dump did.
    #[error("the second dump: {0}")]
    Second(StreamFault),
    /// The two dumps have 2^64 - 1 steps together, or more: so many are compared at most.
    #[error("the dumps have too many steps")]
    TooLong,
    /// Memory ran out for the differences.
    #[error(transparent)]
    NoMemory(NoMemory),
}

impl From<NoMemory> for CompareFault {
    ghost use Rattle.dump_diff.specs.declared.fault.CompareFault.TheVariants as faults;

    ghost from_gives = { λ cause fault. fault ≡ faults.NoMemory cause };

    fn from(fault: NoMemory) -> Self {
        CompareFault::NoMemory(fault)
    }
}
