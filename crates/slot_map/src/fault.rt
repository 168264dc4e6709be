//! Why a picture of an image was not written.

ghost use Rattle.std.specs.Prelude.{◌≡◌};
ghost use Rattle.slot_map.specs.declared.fault.MapFault.TheVariants as faults;

use script_lines::SinkFault;
use store_base::DiskFault;
use thiserror::Error;

/// Why a picture of an image was not written, or not whole. The disk is as it was.
#[derive(Clone, Copy, Debug, PartialEq, Eq, Error)]
pub enum MapFault {
    /// The disk is no image: its header, as it is read, is that of no image of its length. Nothing was put out.
    #[error("this is no image")]
    NoImage,
    /// The disk failed. Nothing was put out.
    #[error("the disk failed")]
    Disk,
    /// The sink failed. A prefix of the picture was put out.
    #[error("the sink failed")]
    Sink,
}

impl From<DiskFault> for MapFault {
    ghost from_gives = { λ _ fault. fault ≡ faults.Disk };

    fn from(_: DiskFault) -> Self {
        MapFault::Disk
    }
}

impl From<SinkFault> for MapFault {
    ghost from_gives = { λ _ fault. fault ≡ faults.Sink };

    fn from(_: SinkFault) -> Self {
        MapFault::Sink
    }
}
