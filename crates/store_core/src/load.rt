//! How an empty store is loaded with the pairs of a tree.

ghost use Rattle.std.specs.Prelude.{◌≡◌, ◌≤◌, length};
ghost use Rattle.store_model.specs.Trees.{Tree, empty_tree};
ghost use Rattle.store_model.specs.Pairs as model;
ghost use Rattle.store_model.specs.Pages.{IsTreeUnder};
ghost use Rattle.layout_scratch.specs.Sorting.{sorted_limit};
ghost use Rattle.store_core.specs.Loads.{Loads};

use crate::store::Store;
use disk_model::Disk;
use image_check::ApplyFault;
use layout_scratch::DrawnPairs;
use node_pages::PairList;
use staged_tree::{LoadAnswer, load_list};

impl<D: Disk> Store<D> {
    /// Loads an empty store with the tree that has these pairs, at most 268,435,456 of them, by rising key.
    ///
    /// Its layout is computed from nothing, and the d slots that hold its pages are committed together, by 5d + 2
    /// writes and 5 syncs; the empty tree takes none. Each image that a crash at any moment of the call may leave
    /// represents the empty tree or this one. `Full` comes exactly where its pages are more than the slots.
    ///
    /// After a fault the store is empty. `Disk`: the disk failed. If that came at a write or a sync, or after one,
    /// the store is stopped, and the disk represents the one tree or the other. `NoMemory`: nothing was written.
    /// `Stopped`, exactly where the store was stopped before: nothing was called.
    pub fn load(&mut self, pairs: &PairList) -> Result<LoadAnswer, ApplyFault>
        requires empty { self.old.tree ≡ empty_tree }
        requires few { length pairs.now ≤ sorted_limit }
        requires pairs { (t : Tree)
            × (IsTreeUnder t self.old.params × (pairs.now ≡ model.pairs t self.old.params)) }
        ensures call { (t : Tree) → IsTreeUnder t self.old.params
            → pairs.now ≡ model.pairs t self.old.params
            → Loads D.state t self.old self.new result }
    {
        let drawn = DrawnPairs::new(self.known.params(), pairs, &[]);
        self.load_drawn(&drawn)
    }

    /// As `load`, by pairs with the levels of their keys: none is drawn that is known under the image's parameters.
    pub fn load_drawn(&mut self, pairs: &DrawnPairs<'_>) -> Result<LoadAnswer, ApplyFault>
        requires empty { self.old.tree ≡ empty_tree }
        requires few { length pairs.now ≤ sorted_limit }
        requires pairs { (t : Tree)
            × (IsTreeUnder t self.old.params × (pairs.now ≡ model.pairs t self.old.params)) }
        ensures call { (t : Tree) → IsTreeUnder t self.old.params
            → pairs.now ≡ model.pairs t self.old.params
            → Loads D.state t self.old self.new result }
    {
        if self.is_stopped() {
            return Err(ApplyFault::Stopped);
        }
        let result = load_list(self.alloc, &mut self.pairs, self.known.params(), pairs);
        if result.is_ok() {
            let pairs = &self.pairs;
            self.known.move_on(pairs.pages.disk());
        }
        result
    }
}
