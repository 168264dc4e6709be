//! Sorted lists of pairs: what each offers (`OrderedPairs`, where to start), and the list in memory (`MapPairs`).
#![tactic(auto)]

mod map;
mod ordered;

pub use map::MapPairs;
pub use ordered::OrderedPairs;
