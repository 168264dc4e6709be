//! How a store carries out the changes of a stream.

ghost use Rattle.std.specs.Prelude.{[]};
ghost use Rattle.store_core.specs.Streams.{AppliesStream};

use crate::store::Store;
use disk_model::Disk;
use image_check::ApplyFault;
use staged_tree::{ChangeStream, GroupAnswer, carry_out_stream};

impl<D: Disk> Store<D> {
    /// Carries out the changes of a stream from which none came, one after another as they come: all of them together,
    /// or none where one is refused. A change whose guard (`When`) does not let it be when its turn comes, on the tree
    /// after those before it, is passed over: it changes nothing, and is not refused. No change is kept once it is
    /// carried out, and memory grows with the pages that change. It answers once what they changed is durable.
    ///
    /// Pages are counted at the end alone: `Full` comes exactly where all changes came, none is refused, and the tree
    /// after them has more pages than slots. A refusal tells how many changes came before it, with those passed over;
    /// `Full` tells how many came.
    /// The inner fault is the stream's, which ended before its last change. After a refusal and after that nothing is
    /// changed, and nothing was written.
    ///
    /// Changes that are all carried out and change d slots together make 5d + 2 writes and 5 syncs; where no slot is
    /// changed none is made. Each image that a crash at any moment of the call may leave represents the tree before the
    /// whole stream or the one after it.
    ///
    /// After a fault the tree is as it was. `Disk`: the disk failed. If that came at a write or a sync, or after one,
    /// the store is stopped, and the disk represents the one tree or the other. `NoMemory`: nothing was written; it
    /// comes too where the tree has more than 262,144 pages behind one of the changes, and after 4,294,967,295 of them.
    /// `Stopped`, exactly where the store was stopped before: nothing was called.
    pub fn apply_stream<S: ChangeStream>(
        &mut self,
        stream: &mut S,
    ) -> Result<Result<GroupAnswer, S::Fault>, ApplyFault>
        requires begins { S.came stream.old [] }
        ensures call { AppliesStream (S.came stream.new) (S.whole stream.new) (S.fails stream.new)
            D.state self.old self.new result }
        ensures keeps { (start : S) → S.keeps start stream.old → S.keeps start stream.new }
    {
        if self.is_stopped() {
            return Err(ApplyFault::Stopped);
        }
        let result = carry_out_stream(&mut self.pairs, self.known.params(), stream);
        if result.is_ok() {
            let pairs = &self.pairs;
            self.known.move_on(pairs.pages.disk());
        }
        result
    }
}
