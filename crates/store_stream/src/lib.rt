//! An opened store as a stream of the steps of a dump: each pair of its tree is pulled once.
//!
//! Start at `StoreStream`, the stream of all of the tree. `PartsStream` is that of what is at some paths and below
//! them,
//! and reads just these stretches of the pairs. `RootedStream` makes of a stream that of what lies below a path, with
//! the path
//! for the root. What the pairs make is in `PairSteps`, and how they are pulled in `store_core`. This crate does not
//! know what is done with the steps.
#![tactic(auto)]

mod laws;
mod part_paths;
mod parts;
mod place;
mod rooted;
mod stream;

pub use laws::a_part_has_all_below_its_path;
pub use parts::PartsStream;
pub use rooted::RootedStream;
pub use stream::StoreStream;
