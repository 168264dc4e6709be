//! Why the image of a tree was not written.

ghost use Rattle.std.specs.Prelude.{◌≡◌};
ghost use Rattle.tree_writer.specs.declared.fault.TreeFault.TheVariants as faults;
ghost use Rattle.tree_writer.specs.Faults.{tree_fault};

use image_writer::WriteFault;
use store_base::NoMemory;
use thiserror::Error;

/// Why the image of a tree was not written. The disk is no image then, unless the very last sync failed.
#[derive(Clone, Copy, Debug, PartialEq, Eq, Error)]
pub enum TreeFault {
    /// The disk failed.
    #[error("the disk failed")]
    Disk,
    /// Memory ran out.
    #[error("out of memory")]
    NoMemory,
    /// The pages are more than the slots.
    #[error("{need} pages do not fit {slots} slots")]
    Full {
        /// How many pages the tree has.
        need: u32,
        /// How many slots there are.
        slots: u32,
    },
    /// The last file that began has other than the bytes that were told.
    #[error("the file has another length than was told")]
    Changed,
    /// There would be more than 268,435,456 pairs, which is more than are counted.
    #[error("there are too many pairs")]
    TooMany,
}

impl From<WriteFault> for TreeFault {
    ghost from_gives = { λ fault result. result ≡ tree_fault fault };

    fn from(fault: WriteFault) -> Self {
        match fault {
            WriteFault::Disk => TreeFault::Disk,
            WriteFault::NoMemory => TreeFault::NoMemory,
            WriteFault::Full { need, slots } => TreeFault::Full { need, slots },
        }
    }
}
