//! Why no image was made of a folder.

ghost use Rattle.std.specs.Prelude.{◌≡◌};
ghost use Rattle.image_create.specs.declared.fault.CreateFault.TheVariants as creates;
ghost use Rattle.image_create.specs.Faults as model;

use dump_streams::StreamFault;
use path_keys::Path;
use store_base::NoMemory;
use thiserror::Error;
use tree_writer::TreeFault;

/// Why no image was made of a folder. The disk is no image then, unless the very last sync failed.
#[derive(Clone, Copy, Debug, Error)]
pub enum CreateFault {
    /// A call of the disk failed.
    #[error("the disk failed")]
    Disk,
    /// Memory ran out.
    #[error("out of memory")]
    NoMemory,
    /// The folder's tree has more pages than there are slots.
    #[error("{need} pages do not fit {slots} slots")]
    Full {
        /// How many pages the tree has.
        need: u32,
        /// How many slots there are.
        slots: u32,
    },
    /// A call of the folder failed, which the folder counted.
    #[error("the folder cannot be read")]
    Unreadable,
    /// No image can hold what the folder told at this path, or it told another length of the file there than the file
    /// had when it was read.
    #[error("a path of the folder changed while it was read")]
    Moving(Path),
    /// From what the folder told other slots follow than were chosen.
    #[error("the folder changed while it was read")]
    OtherSlots,
    /// There are more pairs than are counted.
    #[error("there are too many pairs")]
    TooMany,
}

impl From<NoMemory> for CreateFault {
    ghost from_gives = { λ _ fault. fault ≡ creates.NoMemory };

    fn from(_: NoMemory) -> Self {
        CreateFault::NoMemory
    }
}

/// Why no image was made of a folder whose stream ended so at the entry of this path.
pub(crate) fn stream_fault(cause: StreamFault, at: Option<Path>) -> CreateFault
    ensures { result ≡ model.stream_fault cause at }
{
    match cause {
        StreamFault::NoMemory => CreateFault::NoMemory,
        StreamFault::Unreadable => CreateFault::Unreadable,
        StreamFault::NoDump => CreateFault::Moving(at.unwrap_or(Path::root())),
        StreamFault::TooLong => CreateFault::TooMany,
    }
}

/// Why no image was made of a folder whose tree was not written for this reason, where it is about this path.
pub(crate) fn tree_fault(cause: TreeFault, path: &Path) -> CreateFault
    ensures { result ≡ model.tree_fault cause path.now }
{
    match cause {
        TreeFault::Disk => CreateFault::Disk,
        TreeFault::NoMemory => CreateFault::NoMemory,
        TreeFault::Full { need, slots } => CreateFault::Full { need, slots },
        TreeFault::Changed => CreateFault::Moving(*path),
        TreeFault::TooMany => CreateFault::TooMany,
    }
}
