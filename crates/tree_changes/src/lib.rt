//! What `put`, `rm`, `mv`, `mkdir` and `attr` mean, as definitions over trees, and the steps that lead there.
//!
//! Each definition says what stands at each path after a word, and why a word is refused at a path. The steps are
//! changes that are carried out one after another, each where its condition holds. The laws say that they lead to the
//! tree that is meant, or stop where the word is refused. This crate knows no store: `image_changes` carries the steps
//! out.
#![tactic(auto)]

mod laws;

pub use laws::{
    a_standing_tells_its_tree, attributes_are_meant, makings_are_meant, moves_are_meant,
    parents_are_meant, puts_are_meant, removals_are_meant,
};
