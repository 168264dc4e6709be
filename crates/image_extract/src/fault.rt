//! Why a tree of an image was not made.

ghost use Rattle.std.specs.Prelude.{◌≡◌};
ghost use Rattle.image_extract.specs.Faults as model;
ghost use Rattle.image_extract.specs.Faults.{built_by};

use host_builder::BuildFault;
use image_check::ApplyFault;
use image_reads::{ReadFault, store_fault, taker_fault};
use path_keys::Path;
use thiserror::Error;

/// Why the tree of an image was not made.
#[derive(Clone, Copy, Debug, Error)]
pub enum ExtractFault {
    /// Nothing stands at the path with this number, and something at each one before it. The builder was not called.
    #[error("nothing stands at a path that was asked for")]
    Missing(usize),
    /// This path has none on the host, and such are not skipped. The builder was told of it.
    #[error("a path has none on the host")]
    NoName(Path),
    /// The image was not read to its end, or the builder failed.
    #[error(transparent)]
    Read(ReadFault),
}

/// How making a tree of an opened image ends that was built so, and whose store told this fault.
pub(crate) fn built(
    built: Result<(), BuildFault>,
    fault: Option<ApplyFault>,
) -> Result<(), ExtractFault>
    ensures { result ≡ built_by built fault }
{
    match built {
        Ok(()) => Ok(()),
        Err(cause) => Err(extract_fault(&cause, fault)),
    }
}

/// Why a tree was not made that was not built, where the store told this fault, or none.
fn extract_fault(cause: &BuildFault, fault: Option<ApplyFault>) -> ExtractFault
    ensures { result ≡ model.extract_fault cause.now fault }
{
    match cause {
        BuildFault::NoName(path) => ExtractFault::NoName(*path),
        BuildFault::Builder(cause) => ExtractFault::Read(taker_fault(*cause)),
        BuildFault::Stream(_) => ExtractFault::Read(store_fault(fault)),
    }
}
