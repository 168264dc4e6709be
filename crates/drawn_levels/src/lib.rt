//! Levels of keys that are drawn once, and kept for a second pass over the same keys.
//!
//! Start at `KnownLevels`. What a draw costs is a digest of the key. Whoever goes twice over keys, first to count their
//! pages and then to write them, pays it once. Whether a level is kept or drawn again can't be told from an answer:
//! each is proved to be the level that the parameters draw.
#![tactic(auto)]

mod kept;
mod known;
mod laws;
mod run;

pub use known::KnownLevels;
pub use laws::levels_are_the_same_under_other_slots;
