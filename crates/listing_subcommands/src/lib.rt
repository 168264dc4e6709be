//! The subcommands `dump`, which prints the tree of an image as lines, and `load`, which makes a tree of such lines.
//! Start at `dump_image` and `load_image`.
//!
//! A dump goes from place to place of the store's pairs, and keeps nothing of the tree. A load reads its listing to the
//! end, and then lays the tree out at once, by one commit.
#![tactic(auto)]

mod dump;
mod load;

pub use dump::dump_image;
pub use load::load_image;
