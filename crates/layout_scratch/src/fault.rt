//! Why pages were not laid out.

ghost use Rattle.std.specs.Prelude.{◌≡◌};
ghost use Rattle.layout_scratch.specs.declared.fault.ScratchFault.TheVariants as faults;

use store_base::NoMemory;
use thiserror::Error;

/// Why a layout was not made.
#[derive(Clone, Copy, Debug, PartialEq, Eq, Error)]
pub enum ScratchFault {
    /// The pages are more than the slots.
    #[error("{need} pages do not fit {slots} slots")]
    Full {
        /// How many pages the pairs have.
        need: u32,
        /// How many slots there are.
        slots: u32,
    },
    /// Memory ran out.
    #[error("out of memory")]
    NoMemory,
}

impl From<NoMemory> for ScratchFault {
    ghost from_gives = { λ _ fault. fault ≡ faults.NoMemory };

    fn from(_: NoMemory) -> Self {
        ScratchFault::NoMemory
    }
}
