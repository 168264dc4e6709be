//! Why a disk was not formatted.
ghost use Rattle.std.specs.Prelude.{◌≡◌};
ghost use Rattle.gate_journal.specs.declared.fault.JournalFault.TheVariants as faults;

use store_base::DiskFault;
use thiserror::Error;

/// Why a disk was not formatted. `Journal::format` says what stands then.
#[derive(Clone, Copy, Debug, PartialEq, Eq, Error)]
pub enum JournalFault {
    /// The disk failed.
    #[error("the disk failed")]
    Disk,
    /// The disk begins as an image does.
    #[error("the disk is an image already")]
    AlreadyImage,
    /// The disk's length is not that of an image of the parameters.
    #[error("the disk has not the length of an image of these parameters")]
    WrongLength,
}

impl From<DiskFault> for JournalFault {
    ghost from_gives = { λ _ fault. fault ≡ faults.Disk };

    fn from(_: DiskFault) -> Self {
        JournalFault::Disk
    }
}
