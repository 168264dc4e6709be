//! Why an image was not read to the end.

ghost use Rattle.std.specs.Prelude.{◌≡◌};
ghost use Rattle.image_reads.specs.Faults.{unopened_fault, ended_by};
ghost use Rattle.image_reads.specs.Faults as model;

use dump_streams::{DrainFault, TakerFault};
use image_check::{ApplyFault, AttachFault};
use thiserror::Error;

/// Why an image was not read, or not to the end.
#[derive(Clone, Copy, Debug, PartialEq, Eq, Error)]
pub enum ReadFault {
    /// The disk's header, as recovery would leave it, is that of no image of its length. Nothing was put out.
    #[error("this is no image")]
    NotImage,
    /// It is an image, but even recovered it would hold no tree. Nothing was put out.
    #[error("the image is damaged")]
    Damaged,
    /// The disk failed.
    #[error("the disk failed")]
    Disk,
    /// Memory ran out.
    #[error("out of memory")]
    NoMemory,
    /// The disk gave what no store has, though it was found whole before: its bytes changed meanwhile.
    #[error("the image changed while it was read")]
    Changed,
    /// What the image was read into failed: a sink, or a builder.
    #[error("what was read could not be put out")]
    Output,
}

/// Why an image is not read that was not opened.
pub fn unopened(fault: AttachFault) -> ReadFault
    ensures { result ≡ unopened_fault fault }
{
    match fault {
        AttachFault::Disk => ReadFault::Disk,
        AttachFault::NoMemory => ReadFault::NoMemory,
        AttachFault::NotImage => ReadFault::NotImage,
        AttachFault::Damaged => ReadFault::Damaged,
    }
}

/// Why an opened image is not read to its end whose store told this fault, or none: then the disk gave what no store
/// has.
pub fn store_fault(fault: Option<ApplyFault>) -> ReadFault
    ensures { result ≡ model.store_fault fault }
{
    match fault {
        None => ReadFault::Changed,
        Some(ApplyFault::NoMemory) => ReadFault::NoMemory,
        Some(ApplyFault::Disk | ApplyFault::Stopped) => ReadFault::Disk,
    }
}

/// Why an image is not read to its end of which a step was not taken.
pub fn taker_fault(fault: TakerFault) -> ReadFault
    ensures { result ≡ model.taker_fault fault }
{
    match fault {
        TakerFault::Failed => ReadFault::Output,
        TakerFault::NoMemory => ReadFault::NoMemory,
    }
}

/// How reading an opened image ends whose steps were taken so, and whose store told this fault: with this value.
pub fn ended<T: Copy>(
    drained: Result<(), DrainFault>,
    fault: Option<ApplyFault>,
    value: T,
) -> Result<T, ReadFault>
    ensures { result ≡ ended_by drained fault value }
{
    match drained {
        Ok(()) => Ok(value),
        Err(DrainFault::Taker(cause)) => Err(taker_fault(cause)),
        Err(DrainFault::Stream(_)) => Err(store_fault(fault)),
    }
}
