//! What an image holds, in numbers: its parameters, its counts, its digest, and whether a recovery is pending. Start at
//! `sum_up`.
//!
//! The image is seen as recovery would leave it, and its disk is only read. No call takes memory. This crate must not
//! know what a page holds.
#![tactic(auto)]

mod journal;
mod summary;

pub use journal::has_empty_journal;
pub use summary::{Summary, SummaryFault, sum_up};
