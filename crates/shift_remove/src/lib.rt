//! Removal from an ordered hash table (Amble and Knuth 1974) by backward shift: no mark of the page stays, and the
//! slots are those of the pages that are left. Start at `remove`.
#![tactic(auto)]

mod shift;

pub use shift::remove;
