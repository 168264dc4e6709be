//! Why an image was not written.

ghost use Rattle.std.specs.Prelude.{◌≡◌};
ghost use Rattle.image_writer.specs.declared.fault.WriteFault.TheVariants as faults;

use store_base::{DiskFault, NoMemory};
use thiserror::Error;

/// Why an image was not written. The disk is no image then, unless the very last sync failed.
#[derive(Clone, Copy, Debug, PartialEq, Eq, Error)]
pub enum WriteFault {
    /// The disk failed.
    #[error("the disk failed")]
    Disk,
    /// Memory ran out.
    #[error("out of memory")]
    NoMemory,
    /// The pages are more than the slots.
    #[error("{need} pages do not fit {slots} slots")]
    Full {
        /// How many pages the pairs have.
        need: u32,
        /// How many slots there are.
        slots: u32,
    },
}

impl From<DiskFault> for WriteFault {
    ghost from_gives = { λ _ fault. fault ≡ faults.Disk };

    fn from(_: DiskFault) -> Self {
        WriteFault::Disk
    }
}

impl From<NoMemory> for WriteFault {
    ghost from_gives = { λ _ fault. fault ≡ faults.NoMemory };

    fn from(_: NoMemory) -> Self {
        WriteFault::NoMemory
    }
}
