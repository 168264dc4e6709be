//! The contract of a stream: the steps of a dump, one after another.

ghost use Rattle.store_model.specs.Trees.{Tree};
ghost use Rattle.dump_streams.specs.Streams.{IsNext};
ghost use Rattle.dump_streams.specs.declared.fault.StreamFault.{StreamFault};

use crate::DumpStep;
use crate::fault::StreamFault;

/// The steps of the dump of a tree, one after another.
pub trait DumpStream {
    /// The steps that came so far are the dump of this tree.
    ghost came: { Self → Tree → Type 0 };

    /// The stream told that its dump is whole, and that it is the dump of this tree.
    ghost whole: { Self → Tree → Type 0 };

    /// The second moment came of the first by calls of `next`.
    ghost keeps: { Self → Self → Type 0 };

    /// After the steps of the dump of this tree the stream told this fault, and what was the cause.
    ghost fails: { Self → Tree → StreamFault → Type 0 };

    /// Puts the next step into `into`; `false` where the dump is whole, and then any step may stand there.
    ///
    /// After an error nothing is promised of what the stream gives.
    fn next(&mut self, into: &mut DumpStep) -> Result<bool, StreamFault>
        ensures next { IsNext (came self.old) (came self.new) (whole self.new) (fails self.new)
            into.new result }
        ensures keeps { (start : Self) → keeps start self.old → keeps start self.new };
}
