//! What a tree holds, counted.

ghost use Rattle.std.specs.Prelude.{◌+◌, ◌<◌, ◌≤◌, IfSome, IsSome};
ghost use Rattle.store_model.specs.Trees.{file_limit};
ghost use Rattle.tree_pairs.specs.Kinds.{IsKind};
ghost use Rattle.tree_pairs.specs.Counts.{CountsMore};

use crate::Kind;

/// How much a tree holds.
#[derive(Clone, Copy, Debug, PartialEq, Eq)]
pub struct Counts {
    /// How many directories there are, without the root.
    pub dirs: u32,
    /// How many files there are.
    pub files: u32,
    /// How many bytes the files have together.
    pub bytes: u64,
}

/// The counts with one entry more; `None` only where they would pass their types.
pub fn counted(counts: Counts, kind: Kind) -> Option<Counts>
    requires { IsKind kind }
    ensures more { IfSome result (λ more. CountsMore counts kind more) }
    ensures fits { counts.dirs + counts.files < u32.MAX
        → counts.bytes + file_limit ≤ u64.MAX → IsSome result }
{
    match kind {
        Kind::Directory => Some(Counts {
            dirs: counts.dirs.checked_add(1)?,
            ..counts
        }),
        Kind::File(len) => Some(Counts {
            files: counts.files.checked_add(1)?,
            bytes: counts.bytes.checked_add(u64::from(len))?,
            ..counts
        }),
    }
}
