//! Why a disk was not taken as a store, and why a command was not carried out.

ghost use Rattle.std.specs.Prelude.{◌≡◌};
ghost use Rattle.image_check.specs.declared.fault.AttachFault.TheVariants as attach;
ghost use Rattle.image_check.specs.declared.fault.ApplyFault.TheVariants as apply;

use store_base::{DiskFault, Fault, NoMemory};
use thiserror::Error;

/// Why a disk was not taken as a store. `Store::attach` says what stands then.
#[derive(Clone, Copy, Debug, PartialEq, Eq, Error)]
pub enum AttachFault {
    /// The disk failed. What it reads still represents the tree that it did, if it did so.
    #[error("the disk failed")]
    Disk,
    /// Memory ran out. Nothing was written.
    #[error("out of memory")]
    NoMemory,
    /// Its header, as recovery would leave it, is that of no image of its length. Nothing was written.
    #[error("this is no image")]
    NotImage,
    /// It is an image, but even recovered it would hold no tree. Nothing was written.
    #[error("the image is damaged")]
    Damaged,
}

impl From<DiskFault> for AttachFault {
    ghost from_gives = { λ _ fault. fault ≡ attach.Disk };

    fn from(_: DiskFault) -> Self {
        AttachFault::Disk
    }
}

impl From<NoMemory> for AttachFault {
    ghost from_gives = { λ _ fault. fault ≡ attach.NoMemory };

    fn from(_: NoMemory) -> Self {
        AttachFault::NoMemory
    }
}

impl From<Fault> for AttachFault {
    ghost use Rattle.image_check.specs.Faults.{attach_fault_of};

    ghost from_gives = { λ cause fault. fault ≡ attach_fault_of cause };

    fn from(fault: Fault) -> Self {
        match fault {
            Fault::Disk => AttachFault::Disk,
            Fault::NoMemory => AttachFault::NoMemory,
        }
    }
}

/// Why a command was not carried out. The tree is as it was.
#[derive(Clone, Copy, Debug, PartialEq, Eq, Error)]
pub enum ApplyFault {
    /// The disk failed. If that came at a write or a sync, or after one, the store is stopped.
    #[error("the disk failed")]
    Disk,
    /// Memory ran out. Nothing was written, and the next command may go on.
    #[error("out of memory")]
    NoMemory,
    /// The store is stopped, and nothing was called.
    #[error("the store is stopped")]
    Stopped,
}

impl From<DiskFault> for ApplyFault {
    ghost from_gives = { λ _ fault. fault ≡ apply.Disk };

    fn from(_: DiskFault) -> Self {
        ApplyFault::Disk
    }
}

impl From<Fault> for ApplyFault {
    ghost use Rattle.image_check.specs.Faults.{apply_fault_of};

    ghost from_gives = { λ cause fault. fault ≡ apply_fault_of cause };

    fn from(fault: Fault) -> Self {
        match fault {
            Fault::Disk => ApplyFault::Disk,
            Fault::NoMemory => ApplyFault::NoMemory,
        }
    }
}
