//! What a path's first pair says.

ghost use Rattle.std.specs.Prelude.{◌≡◌, ◌↔◌, IfSome, Some, IsTrue, [], false};
ghost use Rattle.store_model.specs.Paths as paths;
ghost use Rattle.tree_pairs.specs.Fronts.{IsFirst};
ghost use Rattle.tree_pairs.specs.Seen as seen;
ghost use Rattle.tree_pairs.specs.Seen.{MayFollow};

use crate::{Kind, is_inline, kind_under};
use path_keys::Path;
use store_base::Key;
use store_model::Version;

/// A path, and what stands there.
#[derive(Clone, Copy, Debug)]
pub struct Entry {
    /// The path.
    pub path: Path,
    /// What stands there.
    pub kind: Kind,
}

impl Entry {
    /// The root, before the first entry of a tree.
    pub fn root() -> Self
        ensures { result ≡ record { path = []; kind = Kind.Directory } }
    {
        Entry {
            path: Path::root(),
            kind: Kind::Directory,
        }
    }

    /// Whether an entry may stand at a path, behind this one as the last: its parent is the root, the last path if
    /// that is a directory, or strictly above it. All paths above the last one are directories, and what stands in
    /// any other directory has come before.
    pub fn may_precede(&self, path: &Path) -> bool
        requires { paths.is_root path.now ≡ false }
        ensures { IsTrue result ↔ MayFollow self.now.path self.now.kind path.now }
    {
        let Some(parent) = path.parent() else {
            return false;
        };
        self.path < *path
            && (parent.is_root()
                || (parent == self.path && self.kind == Kind::Directory)
                || self.path.is_inside(&parent))
    }
}

/// The entry that a first pair names; `None` exactly where it is no path's first pair under the version.
pub fn first_in(key: &Key, value: &[u8], version: Version) -> Option<Entry>
    ensures found { IfSome result
        (λ entry. IsFirst version entry.path entry.kind key.now value.now) }
    ensures only { (path : paths.Path) (kind : Kind) → IsFirst version path kind key.now value.now
        → result ≡ Some (record { path = path; kind = kind }) }
{
    match Path::of_key(key)? {
        (path, 0) => Some(Entry {
            path,
            kind: kind_under(value, version)?,
        }),
        _ => None,
    }
}

/// How many bytes of what stands at a path are in its first pair: all of a file's, or none.
pub fn size_in_first(kind: Kind, version: Version) -> u32
    ensures { result ≡ seen.size_in_first version kind }
{
    match kind {
        Kind::File(len) if is_inline(version, len) => len,
        _ => 0,
    }
}
