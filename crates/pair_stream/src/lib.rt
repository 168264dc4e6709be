//! The pairs of a list, in order, read page by page from any pages that hold the list.
//!
//! Start at `PairStream`. Each level of the list is read from its first cell to its last, and no search goes down: the
//! next cell of a level tells which group comes next on the level below. A stream may start at a key, which one search
//! finds. This crate does not know how a list is changed, and keeps one page.
#![tactic(auto)]

mod group_reads;
mod places;
mod starts;
mod stream;

pub use places::PairStream;
