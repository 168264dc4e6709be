//! Why the changes of a put end before the last.

use dump_streams::StreamFault;
use path_keys::Path;
use thiserror::Error;

/// Why a source was not put to its end.
#[derive(Clone, Copy, Debug, Error)]
pub enum PutFault {
    /// The stream of the source ended before its dump was whole.
    #[error(transparent)]
    Source(StreamFault),
    /// This path of the source is longer, at its place, than a path may be.
    #[error("a path of the source is too long at its place")]
    TooLong(Path),
}

impl From<StreamFault> for PutFault {
    ghost use Rattle.std.specs.Prelude.{◌≡◌};
    ghost use Rattle.image_puts.specs.declared.fault.PutFault.TheVariants as puts;

    ghost from_gives = { λ cause fault. fault ≡ puts.Source cause };

    fn from(fault: StreamFault) -> Self {
        PutFault::Source(fault)
    }
}
