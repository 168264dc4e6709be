//! The image of a tree, written to a disk while the steps of the tree's dump come: each byte of it once.
//!
//! Start at `TreeWriter`. Each step's pairs go to the disk at once, so that no pair is kept. A file's first pair has
//! its length, and stands before its bytes: so the length is told when the file begins, and whether so many bytes came
//! is looked at when its last ones did.
#![tactic(auto)]

mod fault;
mod file;
mod pairs;
mod steps;
mod writer;

pub use fault::TreeFault;
pub use writer::TreeWriter;
