//! The contract of a stream of changes.

ghost use Rattle.std.specs.Prelude.{List};
ghost use Rattle.script_lines.specs.Sessions.{change_of};
ghost use Rattle.staged_tree.specs.ChangeStreams.{GivesChange};
ghost use Rattle.staged_tree.specs.Guards.{Guarded};

use crate::guards::When;
use script_lines::Change;

/// Changes of a tree, one after another. None of them depends on the tree but by its guard (`When`).
pub trait ChangeStream {
    /// Why it ends before its last change.
    type Fault;

    /// These changes came so far.
    ghost came: { Self → List Guarded → Type 0 };

    /// The stream told that it has no more, and that these are its changes.
    ghost whole: { Self → List Guarded → Type 0 };

    /// After these changes the stream told this fault.
    ghost fails: { Self → List Guarded → Self.Fault → Type 0 };

    /// The second moment came of the first by calls of `next`.
    ghost keeps: { Self → Self → Type 0 };

    /// Puts the next change into `into`, and tells when it is carried out; `None` where there is no more, and then any
    /// change may stand there.
    ///
    /// After a fault nothing is promised of what the stream gives.
    fn next(&mut self, into: &mut Change) -> Result<Option<When>, Self::Fault>
        ensures next { GivesChange (came self.old) (came self.new) (whole self.new) (fails self.new)
            (change_of into.new) result }
        ensures keeps { (start : Self) → keeps start self.old → keeps start self.new };
}
