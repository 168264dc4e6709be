//! How a store becomes one of version 2.

ghost use Rattle.std.specs.Prelude.{◌≡◌, false};
ghost use Rattle.store_model.specs.declared.version.Version.TheVariants.{One};
ghost use Rattle.store_core.specs.StoreCalls.{Upgrades};

use crate::store::Store;
use disk_model::Disk;
use image_check::ApplyFault;
use staged_tree::upgrade_list;
use store_model::Version;

impl<D: Disk> Store<D> {
    /// Makes the image one of version 2 that holds the same tree, and answers once that is durable. An image of
    /// version 2 stays as it is, and nothing is called.
    ///
    /// Where d slots differ between the two versions of the tree's layout it makes 5d + 5 writes and 5 syncs, also
    /// where none does. Each image that a crash at any moment of the call may leave represents the tree under version 1
    /// or under version 2. No tree takes more pages than it took: an upgrade is never full.
    ///
    /// After a fault tree and parameters are as they were. `Disk`: the disk failed. If that came at a write or a
    /// sync, or after one, the store is stopped, and the disk represents the tree under the one version or the other.
    /// `NoMemory`: nothing was written. `Stopped`, exactly where the store was stopped before: nothing was called.
    pub fn upgrade(&mut self) -> Result<(), ApplyFault>
        ensures call { Upgrades D.state self.old self.new result }
    {
        if self.is_stopped() {
            return Err(ApplyFault::Stopped);
        }
        match self.params().version() {
            Version::One => self.upgrade_running(),
            Version::Two => Ok(()),
        }
    }

    /// Upgrades a store that is not stopped, and whose image is of version 1.
    fn upgrade_running(&mut self) -> Result<(), ApplyFault>
        requires runs { self.old.is_stopped ≡ false }
        requires version { self.old.params.version ≡ One }
        ensures call { Upgrades D.state self.old self.new result }
    {
        let result = upgrade_list(&mut self.pairs);
        if result.is_ok() {
            let pairs = &self.pairs;
            self.known.upgrade(pairs.pages.disk());
        }
        result
    }
}
