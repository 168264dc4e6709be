//! The kinds of commit that a settle ends with.

ghost use Rattle.std.specs.Prelude.{◌≡◌};
ghost use Rattle.page_store.specs.CommitKinds.{params_by};

use store_base::{Params, Version};

/// Which commit a settle ends with.
#[derive(Clone, Copy)]
pub enum CommitKind {
    /// Commits the slots that differ.
    Plain,
    /// Commits the slots that differ, and version 2 with them.
    Upgrade,
}

impl CommitKind {
    /// The parameters of an image after such a commit, which had these before.
    pub fn params(self, before: &Params) -> Params
        ensures { result ≡ params_by self before.now }
    {
        match self {
            CommitKind::Plain => *before,
            CommitKind::Upgrade => before.with_version(Version::Two),
        }
    }
}
