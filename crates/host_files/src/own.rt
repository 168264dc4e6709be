//! Files of the host, told apart.

use std::fs::Metadata;
use std::os::unix::fs::MetadataExt;

/// A file of the host, by the device that it stands on and its number there: it is the same under each of its names.
#[derive(Clone, Copy, Debug, PartialEq, Eq)]
pub struct FileId {
    device: u64,
    number: u64,
}

impl FileId {
    /// The file of which the system tells this.
    pub fn of(metadata: &Metadata) -> FileId {
        FileId {
            device: metadata.dev(),
            number: metadata.ino(),
        }
    }
}
