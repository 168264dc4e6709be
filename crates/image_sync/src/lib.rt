//! Makes an image hold what a folder of the host holds. Start at `carry_out`.
//!
//! What is to change is planned before (`synced_trees`), and lies in memory; carrying it out is one commit, or none.
#![tactic(auto)]

mod carrying;
mod planned;

pub use carrying::{SyncAnswer, carry_out};
pub use planned::PlannedChanges;
