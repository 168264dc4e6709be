//! Carries out a plan on a store.

ghost use Rattle.std.specs.Prelude.{◌≡◌};
ghost use Rattle.synced_trees.specs.Plans.{plan_commands};
ghost use Rattle.image_sync.specs.Carrying as model;
ghost use Rattle.image_sync.specs.Carrying.{CarriesOut};

use crate::planned::PlannedChanges;
use disk_model::Disk;
use store_core::{ApplyFault, GroupAnswer, Store};
use store_model::Refusal;
use synced_trees::SyncPlan;

/// How carrying out a plan ended. But for `Done` nothing was changed.
#[derive(Clone, Copy, Debug, PartialEq, Eq)]
pub enum SyncAnswer {
    /// All of it was carried out.
    Done,
    /// A change is refused for this reason: `Version`, since an image of version 1 has no attributes. No other reason
    /// comes on the tree that the plan was made of.
    Refused(Refusal),
    /// The tree after it has `need` pages, which are more than the `slots`.
    Full {
        /// How many pages it has.
        need: u32,
        /// How many slots there are.
        slots: u32,
    },
}

/// Carries out a plan on a store whose tree it was made of, in one commit, or none of it. It answers once what it
/// changed is durable. Pages are counted at the end alone. Each image that a crash at any moment may leave represents
/// the tree before all of it or the one after.
///
/// After a fault the tree is as it was. `Disk`: the disk failed. If that came at a write or a sync, or after one, the
/// store is stopped, and the disk represents the one tree or the other. `NoMemory`: nothing was written. `Stopped`,
/// exactly where the store was stopped before: nothing was called.
pub fn carry_out<D: Disk>(store: &mut Store<D>, plan: &SyncPlan) -> Result<SyncAnswer, ApplyFault>
    ensures { CarriesOut D.state (plan_commands plan.now) store.old store.new result }
{
    let mut changes = PlannedChanges::new(plan);
    match store.apply_stream(&mut changes) {
        Ok(Ok(answer)) => Ok(sync_answer(answer)),
        Ok(Err(())) => unreachable!(),
        Err(fault) => Err(fault),
    }
}

/// How it ended where a group is answered so.
fn sync_answer(answer: GroupAnswer) -> SyncAnswer
    ensures { result ≡ model.sync_answer answer }
{
    match answer {
        GroupAnswer::Done => SyncAnswer::Done,
        GroupAnswer::Refused {
            index: _,
            reply: Refusal::Full { need, slots },
        } => SyncAnswer::Full { need, slots },
        GroupAnswer::Refused { index: _, reply } => SyncAnswer::Refused(reply),
    }
}
