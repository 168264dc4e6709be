//! The exact check: whether an image is the layout of a tree, and what that tree holds. Start at `check`.
//!
//! Five conditions are tested on the slots that recovery would leave, page by page (`layout_conditions`): what each
//! slot holds and in which order (`check_order`), the groups of pages from the highest level down (`walk_groups`), and
//! whether the pairs of level 0 are a tree's (`TreeReader`). Only layouts meet them. Nothing is written, no list is
//! made, and no memory is taken: the slots are seen through a view (`gate_journal`).
#![tactic(auto)]

mod contents;
mod fault;
mod image;
mod pairs;
mod slots;
mod verdict;

pub use contents::Contents;
pub use fault::{ApplyFault, AttachFault};
pub use image::{check, find_image};
pub use slots::{check_slots, find_contents};
pub use tree_pairs::Counts;
pub use verdict::Verdict;
