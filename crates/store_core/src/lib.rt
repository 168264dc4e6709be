//! The store: a tree of directories and files in a disk image, as one value.
//!
//! Start at `Store`. `attach` makes a store of a disk: it checks the image whole and recovers it. `apply` carries out
//! a command, as the definitions' step says. `apply_all` carries out a group of changes together, or none of them: it
//! stages them one after another, and settles once. `apply_stream` does so with the changes of a stream, as they come,
//! each where its guard (`When`) lets it be, and counts their pages at the end alone. `upgrade` makes the image one of
//! version 2. `next_pair` finds the first pair from a key on, and `load` fills an empty store with the pairs of a whole
//! tree, as `load_drawn` does by levels that were drawn before. `walk`, `walk_from` and `next_of` give the pairs one
//! after another, page by page.
//!
//! No part of the tree is in memory between two commands. What a command does with the pages of the tree is in
//! `staged_tree`. After every command nothing is staged.
#![tactic(auto)]

mod apply;
mod attach;
mod group;
mod known;
mod load;
mod next_pair;
mod store;
mod stream;
mod upgrade;
mod walk_start;
mod walks;

pub use image_check::{ApplyFault, AttachFault};
pub use staged_tree::{ChangeStream, GroupAnswer, ListedChanges, LoadAnswer, When};
pub use store::Store;
pub use walks::PairsWalk;
