//! The words of a program for people that change an image: each in one commit, or not at all.
//!
//! `remove`, `make_directories`, `make_with_parents`, `move_to`, `set_attribute` and `unset_attribute` change an opened
//! store. What each means is a definition over trees, in `tree_changes`; what a crash leaves, and what a fault does, is
//! said by the store's own record. This crate knows no words of a command line, and no files of a host.
#![tactic(auto)]

mod attributes;
mod directories;
mod moves;
mod outcome;
mod parent_changes;
mod path_changes;
mod removal;
mod way;

pub use attributes::{set_attribute, unset_attribute};
pub use directories::{make_directories, make_with_parents};
pub use moves::move_to;
pub use outcome::{Outcome, outcome_of};
pub use removal::{Removal, remove};
pub use way::Way;
