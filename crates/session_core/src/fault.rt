//! Why a call on sessions gave no answer.

ghost use Rattle.std.specs.Prelude.{◌≡◌};
ghost use Rattle.session_core.specs.declared.fault.SessionFault.TheVariants as faults;

use std::alloc::AllocFailed;
use store_base::NoMemory;
use store_core::ApplyFault;
use thiserror::Error;

/// Why a call on sessions gave no answer. The sessions are as they were. Of the first four a call answers the first
/// that holds, and it answers these before `Disk` or `NoMemory`.
#[derive(Clone, Copy, Debug, PartialEq, Eq, Error)]
pub enum SessionFault {
    /// The store is stopped, and nothing was called.
    #[error("the store is stopped")]
    Stopped,
    /// 64 sessions are live, the most there may be.
    #[error("too many sessions")]
    Crowded,
    /// No live session has the number.
    #[error("no such session")]
    Unknown,
    /// The session has 64 questions, or 64 changes, the most it may have.
    #[error("too many questions or changes")]
    Many,
    /// The disk failed. The store is stopped where that came at a write or a sync, or after one.
    #[error("the disk failed")]
    Disk,
    /// Memory ran out. Nothing was written.
    #[error("out of memory")]
    NoMemory,
}

impl From<ApplyFault> for SessionFault {
    ghost use Rattle.session_core.specs.SessionCalls.{session_fault_of};

    ghost from_gives = { λ cause fault. fault ≡ session_fault_of cause };

    fn from(fault: ApplyFault) -> Self {
        match fault {
            ApplyFault::Disk => SessionFault::Disk,
            ApplyFault::NoMemory => SessionFault::NoMemory,
            ApplyFault::Stopped => SessionFault::Stopped,
        }
    }
}

impl From<NoMemory> for SessionFault {
    ghost from_gives = { λ _ fault. fault ≡ faults.NoMemory };

    fn from(_: NoMemory) -> Self {
        SessionFault::NoMemory
    }
}

impl<T: Drop> From<AllocFailed<T>> for SessionFault {
    ghost from_gives = { λ _ fault. fault ≡ faults.NoMemory };

    fn from(_: AllocFailed<T>) -> Self {
        SessionFault::NoMemory
    }
}
