//! What was found in a folder.

ghost use Rattle.std.specs.Prelude.{◌≡◌, ◌<◌, option_map, slice_get, IfSome};
ghost use Rattle.host_folders.specs.Facts.{attribute_of};
ghost use Rattle.host_folders.specs.FoundEntries.{own_attributes};

use crate::attribute::{Attribute, present_at};
use path_keys::Path;

/// What stands at a path of a folder.
#[derive(Clone, Copy, Debug, PartialEq, Eq)]
pub enum FoundKind {
    /// A folder.
    Folder,
    /// A file, which had so many bytes when it was found.
    File(u32),
    /// A symbolic link. Its attribute `link` says where it leads: the folder tells it when it is asked. It has no
    /// other.
    Link,
}

/// A folder, a file or a link that was found.
#[derive(Clone, Copy, Debug)]
pub struct Found {
    /// Its path below the folder that is packed, in the spelling of the image.
    pub path: Path,
    /// What it is.
    pub kind: FoundKind,
    /// Whether the attribute `mode` is to say that it may be executed.
    pub is_executable: bool,
    /// The seconds since 1970 that the attribute `mtime` is to say, if it is to say some.
    pub seconds: Option<u64>,
}

impl Found {
    /// The attribute at an index among those that a folder or a file is to get, in the order of names; nothing behind
    /// the last.
    pub fn attribute(&self, at: usize) -> Option<Attribute>
        ensures value { option_map attribute_of result
            ≡ slice_get (own_attributes self.now) at }
        ensures few { IfSome result (λ attribute. at < usize.MAX) }
    {
        let all = [
            Attribute::mark(b"mode", self.is_executable),
            Attribute::number(b"mtime", self.seconds),
        ];
        present_at(&all, at)
    }
}
