//! The word that puts the tree of a source over the tree of an image, in one commit.
//!
//! `put` carries the steps of the source out as they come, so that no more than one is held. What it means is a
//! definition over trees, in `tree_changes`. This crate knows no files of a host: a source is a stream of the steps of
//! a dump.
#![tactic(auto)]

mod fault;
mod put_changes;
mod puts;

pub use fault::PutFault;
pub use put_changes::PutChanges;
pub use puts::put;
