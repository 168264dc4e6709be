//! The pairs that a check comes to, as they are taken.

ghost use Rattle.std.specs.Prelude.{◌≡◌, [], refl};
ghost use Rattle.std.proofs.Common.{◌∙◌};
ghost use Rattle.image_check.specs.TreePairs.{TookPairs, TellsTree};

use store_base::Key;
use store_model::Version;
use table_walk::TakesPairs;
use tree_pairs::{Counts, TreeReader};

/// Pairs that came one after another, read until one was refused. No list of them is kept.
#[derive(Clone, Copy, Debug)]
pub(crate) struct TreePairs {
    /// What read them.
    reader: TreeReader,
    /// Whether it refused one of them.
    is_refused: bool,
}

impl TreePairs {
    /// No pair, for a reader of this version.
    pub(crate) fn new(version: Version) -> TreePairs
        ensures version { result.reader.version ≡ version }
        ensures none { TookPairs result [] }
    {
        TreePairs {
            reader: TreeReader::new(version),
            is_refused: false,
        }
    }

    /// What the tree holds whose pairs were taken; `None` exactly where they are no tree's under the reader's version.
    pub(crate) fn counts(&self) -> Option<Counts>
        ensures { TellsTree self.now result }
    {
        if self.is_refused || !self.reader.is_whole() {
            return None;
        }
        Some(self.reader.counts())
    }
}

impl TakesPairs for TreePairs {
    ghost took = { λ pairs s. TookPairs pairs s };

    ghost keeps = { λ old new. new.reader.version ≡ old.reader.version };

    ghost keeps_refl = { λ pairs. refl };

    ghost keeps_trans = { λ old mid new first second. second ∙ first };

    fn take(&mut self, key: &Key, value: &[u8]) {
        if !self.is_refused {
            self.is_refused = !self.reader.add(key, value);
        }
    }
}
