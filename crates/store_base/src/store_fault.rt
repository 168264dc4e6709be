//! Why a call on slots, pages or pairs failed.

ghost use Rattle.std.specs.Prelude.{◌≡◌};
ghost use Rattle.store_base.specs.declared.store_fault.Fault.TheVariants as faults;

use crate::fault::{DiskFault, NoMemory};
use std::alloc::{AllocError, AllocFailed};
use thiserror::Error;

/// Why a call on slots, pages or pairs could not be carried out. Each call says what stands then.
#[derive(Clone, Copy, Debug, PartialEq, Eq, Error)]
pub enum Fault {
    /// The disk failed. The slots, pages or pairs that were called have counted it.
    #[error("the disk failed")]
    Disk,
    /// Memory ran out.
    #[error("out of memory")]
    NoMemory,
}

impl From<DiskFault> for Fault {
    ghost from_gives = { λ _ fault. fault ≡ faults.Disk };

    fn from(_: DiskFault) -> Self {
        Fault::Disk
    }
}

impl From<NoMemory> for Fault {
    ghost from_gives = { λ _ fault. fault ≡ faults.NoMemory };

    fn from(_: NoMemory) -> Self {
        Fault::NoMemory
    }
}

impl From<AllocError> for Fault {
    ghost from_gives = { λ _ fault. fault ≡ faults.NoMemory };

    fn from(_: AllocError) -> Self {
        Fault::NoMemory
    }
}

impl<T: Drop> From<AllocFailed<T>> for Fault {
    ghost from_gives = { λ _ fault. fault ≡ faults.NoMemory };

    fn from(_: AllocFailed<T>) -> Self {
        Fault::NoMemory
    }
}
