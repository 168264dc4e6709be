//! A list of changes as a stream.

ghost use Rattle.std.specs.Prelude.{◌≡◌, map};
ghost use Rattle.staged_tree.specs.Listed.{guarded_of, HasGiven, AreListed, KeepsListed};

use crate::change_stream::ChangeStream;
use crate::guards::When;
use script_lines::Change;
use std::marker::Model;

/// The changes of a list, each with its guard, as a stream that never fails.
#[derive(Drop)]
pub struct ListedChanges<'a> {
    changes: &'a [(When, Change)],
    given: usize,
}

impl<'a> Model for ListedChanges<'a> {
    ghost use Rattle.std.specs.Prelude.{◌≤◌, length, map};
    ghost use Rattle.staged_tree.specs.Listed.{ListedState, guarded_of};

    ghost Value = { ListedState };

    ghost view = { λ s. record { changes = map guarded_of s.changes.now; given = s.given } };

    ghost invariant = { λ s. s.given ≤ length s.changes.now };
}

impl<'a> ListedChanges<'a> {
    /// These changes, of which none came.
    pub fn new(changes: &'a [(When, Change)]) -> Self
        ensures { result ≡ record { changes = map guarded_of changes.now; given = 0 } }
    {
        ListedChanges { changes, given: 0 }
    }
}

impl<'a> ChangeStream for ListedChanges<'a> {
    type Fault = ();

    ghost came = { HasGiven };

    ghost whole = { AreListed };

    ghost fails = { λ state changes fault. ⊥ };

    ghost keeps = { KeepsListed };

    /// It is never refused.
    fn next(&mut self, into: &mut Change) -> Result<Option<When>, ()> {
        let Some((when, change)) = self.changes.get(self.given) else {
            return Ok(None);
        };
        *into = change.copy();
        self.given += 1;
        Ok(Some(*when))
    }
}
