//! What the subcommands of `hbox` that change an image do with things that are open, how they end, and what they say.
//! Start at `Changed` and `remove_paths`.
//!
//! Each opens the image for writing, which finishes what a crash left pending, and makes one commit, or none. With
//! each status but `Done` and `Differs` the recovered image is as it was, unless its disk failed. How calls end and
//! what they say is `box_calls`', and what the words mean `tree_changes`'. This crate must not know how a file is
//! opened, nor how a tree is kept.
#![tactic(auto)]

mod asking;
mod attributes;
mod change;
mod ending;
mod making;
mod moving;
mod noted;
mod removing;
mod telling;

pub use attributes::{set_attribute, unset_attribute};
pub use change::Changed;
pub use image_changes::Removal;
pub use making::make_folders;
pub use moving::move_path;
pub use removing::remove_paths;
pub use telling::{Value, list_attributes, print_attribute};
