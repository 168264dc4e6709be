//! Why an image was not mirrored.

ghost use Rattle.std.specs.Prelude.{◌≡◌};
ghost use Rattle.mirror_copy.specs.Faults.{first_fault};
ghost use Rattle.mirror_copy.specs.declared.fault.MirrorFault.TheVariants as faults;

use image_check::AttachFault;
use store_base::{NoMemory, Params};
use thiserror::Error;

/// Why an image was not mirrored. Where several hold, the first of them in this order is the answer, but for faults
/// and want of memory, which come where they come. `mirror` says what stands then.
#[derive(Clone, Copy, Debug, Error)]
pub enum MirrorFault {
    /// The header of the first disk, as recovery would leave it, is that of no image of its length.
    #[error("the first is no image")]
    FromNotImage,
    /// The first is an image, but even recovered it would hold no tree.
    #[error("the first image is damaged")]
    FromDamaged,
    /// The header of the second disk, as recovery would leave it, is that of no image of its length.
    #[error("the second is no image")]
    ToNotImage,
    /// The images have other parameters, or are of other versions of the format.
    #[error("the images have other parameters or versions")]
    Unequal {
        /// The parameters of the first.
        from: Params,
        /// The parameters of the second.
        to: Params,
    },
    /// The first disk failed.
    #[error("the first disk failed")]
    FromDisk,
    /// The second disk failed.
    #[error("the second disk failed")]
    ToDisk,
    /// Memory ran out.
    #[error("out of memory")]
    NoMemory,
}

impl From<AttachFault> for MirrorFault {
    ghost from_gives = { λ cause fault. fault ≡ first_fault cause };

    /// Why there is no first image.
    fn from(fault: AttachFault) -> Self {
        match fault {
            AttachFault::Disk => MirrorFault::FromDisk,
            AttachFault::NoMemory => MirrorFault::NoMemory,
            AttachFault::NotImage => MirrorFault::FromNotImage,
            AttachFault::Damaged => MirrorFault::FromDamaged,
        }
    }
}

impl From<NoMemory> for MirrorFault {
    ghost from_gives = { λ _ fault. fault ≡ faults.NoMemory };

    fn from(_: NoMemory) -> Self {
        MirrorFault::NoMemory
    }
}
