//! How a store is asked for its pairs from a key on.

ghost use Rattle.store_core.specs.Walks.{StartsWalk};

use crate::store::Store;
use crate::walks::PairsWalk;
use disk_model::Disk;
use image_check::ApplyFault;
use staged_tree::start_stream;
use store_base::Key;

impl<D: Disk> Store<D> {
    /// A walk that stands before the first pair whose key is not below the given one, found by one search from the top.
    /// The store stays as it is, and the disk is only read. It takes no memory but for its caches.
    ///
    /// `Disk`: the disk failed. `NoMemory`: memory ran out. `Stopped`, exactly where the store was stopped before:
    /// nothing was called.
    pub fn walk_from(&mut self, key: &Key) -> Result<PairsWalk, ApplyFault>
        ensures call { StartsWalk D.state key.now self.old self.new result }
    {
        if self.is_stopped() {
            return Err(ApplyFault::Stopped);
        }
        match start_stream(&mut self.pairs, self.known.params(), key) {
            Ok(stream) => {
                let pairs = &self.pairs;
                self.known.move_on(pairs.pages.disk());
                Ok(PairsWalk { stream })
            }
            Err(fault) => Err(fault),
        }
    }
}
