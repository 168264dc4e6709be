//! What can go wrong outside the store: the disk fails, or memory runs out.

use std::alloc::{AllocError, AllocFailed};
use thiserror::Error;

/// A read, a write or a sync of a disk failed.
/// A call answers it only where the disk's count of faults rose during the call.
#[derive(Clone, Copy, Debug, PartialEq, Eq, Error)]
#[error("the disk failed")]
pub struct DiskFault;

/// Memory ran out. Each call that answers it says what stands then.
#[derive(Clone, Copy, Debug, PartialEq, Eq, Error)]
#[error("out of memory")]
pub struct NoMemory;

impl From<AllocError> for NoMemory {
    fn from(_: AllocError) -> Self {
        NoMemory
    }
}

impl<T: Drop> From<AllocFailed<T>> for NoMemory {
    fn from(_: AllocFailed<T>) -> Self {
        NoMemory
    }
}
