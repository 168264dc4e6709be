//! What a tree becomes where another is laid over it or put in its place, and the changes that lead there.
//!
//! Start at `plan_sync`: it walks two dumps once, and gives what leads from the first tree to what the second tells.
//! `specs/Syncing.antt` says what is reached, at each path and each attribute. The commands (`specs/Taken.antt`) are
//! made of the differences that `dump_diff` finds: what is gone or makes room is pruned and cut, attributes are taken
//! away, and then come those steps of the second dump that the first tree lacks. The laws say that none of them is
//! refused, and where they lead. So it is with the script that `hstore-tree diff --script` writes.
#![tactic(auto)]

mod laws;
mod plan;

pub use laws::{
    commands_of_differences_lead_to_what_is_told, one_tree_holds_what_is_told,
    scripts_of_differences_lead_to_the_second_tree,
};
pub use plan::{PlanFault, SyncPlan, plan_sync};
