//! The changes of a plan, as a stream.

ghost use Rattle.std.specs.Prelude.{◌≡◌, []};
ghost use Rattle.image_sync.specs.PlannedChanges.{AreAll, HasGiven, KeepsPlan};

use dump_diff::{KeptStep, Removal};
use script_lines::Change;
use store_core::{ChangeStream, When};
use synced_trees::SyncPlan;

/// The changes of a plan, one after another: first what takes away and cuts, and then what makes and writes. It never
/// fails.
#[derive(Drop)]
pub struct PlannedChanges<'a> {
    removals: &'a [Removal],
    additions: &'a [KeptStep],
    removed: usize,
    added: usize,
}

impl<'a> PlannedChanges<'a> {
    /// The changes of this plan, of which none came.
    pub fn new(plan: &'a SyncPlan) -> Self
        ensures removals { result.removals.now ≡ plan.now.removals.items }
        ensures additions { result.additions.now ≡ plan.now.additions.items }
        ensures given { HasGiven result [] }
        ensures keeps { KeepsPlan result result }
    {
        PlannedChanges {
            removals: plan.removals(),
            additions: plan.additions(),
            removed: 0,
            added: 0,
        }
    }
}

impl<'a> ChangeStream for PlannedChanges<'a> {
    type Fault = ();

    ghost came = { HasGiven };

    ghost whole = { AreAll };

    ghost fails = { λ stream changes fault. ⊥ };

    ghost keeps = { KeepsPlan };

    /// It is never refused.
    fn next(&mut self, into: &mut Change) -> Result<Option<When>, ()> {
        if let Some(removal) = self.removals.get(self.removed) {
            *into = removal.change();
            self.removed += 1;
            return Ok(Some(When::Always));
        }
        let Some(step) = self.additions.get(self.added) else {
            return Ok(None);
        };
        *into = step.change();
        self.added += 1;
        Ok(Some(When::Always))
    }
}
