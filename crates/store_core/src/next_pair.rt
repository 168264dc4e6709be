//! How a store is asked for its pairs.

ghost use Rattle.store_core.specs.Loads.{TellsNextPair};

use crate::store::Store;
use disk_model::Disk;
use image_check::ApplyFault;
use staged_tree::find_next;
use store_base::{Key, Value};

impl<D: Disk> Store<D> {
    /// Finds the first pair whose key is not below the given one; `None` where every key is below it. The store stays
    /// as it is, and the disk is only read. It takes no memory but for its caches.
    ///
    /// `Disk`: the disk failed. `NoMemory`: memory ran out. `Stopped`, exactly where the store was stopped before:
    /// nothing was called.
    pub fn next_pair(&mut self, key: &Key) -> Result<Option<(Key, Value)>, ApplyFault>
        ensures call { TellsNextPair D.state key.now self.old self.new result }
    {
        if self.is_stopped() {
            return Err(ApplyFault::Stopped);
        }
        let result = find_next(&mut self.pairs, key);
        if result.is_ok() {
            let pairs = &self.pairs;
            self.known.move_on(pairs.pages.disk());
        }
        result
    }
}
