//! How a store is asked for its pairs one after another.

ghost use Rattle.std.specs.Prelude.{[]};
ghost use Rattle.store_core.specs.Walks.{StandsAfter, WalksOn};

use crate::store::Store;
use disk_model::Disk;
use image_check::ApplyFault;
use pair_stream::PairStream;
use staged_tree::pull_next;
use store_base::{Key, Value};

/// Where a walk over the pairs of a store stands. It is of use while the store's tree and parameters stay as they are:
/// after a change of the tree nothing is known of what it gives.
///
/// It takes no memory but its own, and holds a page of the store.
#[derive(Drop)]
pub struct PairsWalk {
    pub(crate) stream: PairStream,
}

impl<D: Disk> Store<D> {
    /// A walk that stands before the first pair. Nothing is called.
    pub fn walk(&self) -> PairsWalk
        ensures { StandsAfter self.now.tree self.now.params [] result }
    {
        PairsWalk {
            stream: PairStream::new(self.params().height()),
        }
    }

    /// Gives the next pair of a walk; `None` exactly where it gave all pairs. Each page of the pairs is asked for
    /// once, and no search goes down. The store stays as it is, and the disk is only read. It takes no memory but for
    /// its caches.
    ///
    /// `Disk`: the disk failed. `NoMemory`: memory ran out. `Stopped`, exactly where the store was stopped before:
    /// nothing was called. After each of them the walk stands where it stood.
    pub fn next_of(&mut self, walk: &mut PairsWalk) -> Result<Option<(Key, Value)>, ApplyFault>
        ensures call { WalksOn D.state self.old self.new walk.old walk.new result }
    {
        if self.is_stopped() {
            return Err(ApplyFault::Stopped);
        }
        let result = pull_next(&mut self.pairs, &mut walk.stream);
        if result.is_ok() {
            let pairs = &self.pairs;
            self.known.move_on(pairs.pages.disk());
        }
        result
    }
}
