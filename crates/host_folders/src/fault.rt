//! What can go wrong with a folder.

ghost use Rattle.std.specs.Prelude.{◌≡◌};
ghost use Rattle.host_folders.specs.Faults.{find_fault, stream_fault};

use dump_streams::StreamFault;
use thiserror::Error;

/// Why a folder gave no answer.
#[derive(Clone, Copy, Debug, PartialEq, Eq, Error)]
pub enum FolderFault {
    /// Memory ran out.
    #[error("memory ran out")]
    NoMemory,
    /// A folder, a file or a link cannot be read.
    #[error("the folder cannot be read")]
    Unreadable,
}

impl From<FolderFault> for StreamFault {
    ghost from_gives = { λ cause fault. fault ≡ stream_fault cause };

    /// The fault of a stream that reads from the folder.
    fn from(fault: FolderFault) -> Self {
        match fault {
            FolderFault::NoMemory => StreamFault::NoMemory,
            FolderFault::Unreadable => StreamFault::Unreadable,
        }
    }
}

/// Why not all that stands in a folder was found.
#[derive(Clone, Copy, Debug, PartialEq, Eq, Error)]
pub enum FindFault {
    /// Memory ran out.
    #[error("memory ran out")]
    NoMemory,
    /// A folder cannot be read.
    #[error("the folder cannot be read")]
    Unreadable,
    /// The folder told more entries than are looked for.
    #[error("the folder has too many entries")]
    TooMany,
}

impl From<FolderFault> for FindFault {
    ghost from_gives = { λ cause fault. fault ≡ find_fault cause };

    fn from(fault: FolderFault) -> Self {
        match fault {
            FolderFault::NoMemory => FindFault::NoMemory,
            FolderFault::Unreadable => FindFault::Unreadable,
        }
    }
}
