//! How a store carries out a group of changes.

ghost use Rattle.std.specs.Prelude.{◌<◌, ◌^◌, length, map};
ghost use Rattle.script_lines.specs.Sessions.{change_of};
ghost use Rattle.store_core.specs.StoreCalls.{AppliesAll};

use crate::store::Store;
use disk_model::Disk;
use image_check::ApplyFault;
use script_lines::Change;
use staged_tree::{GroupAnswer, carry_out_all};

impl<D: Disk> Store<D> {
    /// Carries out a group of changes, one after another: all of them together, or none where one is refused. It
    /// answers once what they changed is durable.
    ///
    /// `full` is tested after each change. Changes that are all carried out and change d slots together make 5d + 2
    /// writes and 5 syncs; a group that is refused, or changes no slot, makes none. Each image that a crash at any
    /// moment of the call may leave represents the tree before the whole group or the one after it.
    ///
    /// After a fault the tree is as it was. `Disk`: the disk failed. If that came at a write or a sync, or after one,
    /// the store is stopped, and the disk represents the one tree or the other. `NoMemory`: nothing was written.
    /// `Stopped`, exactly where the store was stopped before: nothing was called.
    pub fn apply_all(&mut self, changes: &[Change]) -> Result<GroupAnswer, ApplyFault>
        requires few { length changes.now < 2 ^ 32 }
        ensures call { AppliesAll D.state (map change_of changes.now) self.old self.new result }
    {
        if self.is_stopped() {
            return Err(ApplyFault::Stopped);
        }
        let result = carry_out_all(&mut self.pairs, self.known.params(), changes);
        if result.is_ok() {
            let pairs = &self.pairs;
            self.known.move_on(pairs.pages.disk());
        }
        result
    }
}
