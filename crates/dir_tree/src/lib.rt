//! Directories, attributes and moves, over any list of pairs that holds a tree.
//!
//! Start at `make`, `remove` and `list`. They make a directory, remove a file or an empty directory, and list the
//! children of a directory. `kind_of` says what stands at a path, and `set_attr` and those beside it are the calls on
//! attributes. A listing jumps from child to child and reads nothing that lies deeper.
//!
//! `rename` and `prune` move and remove whole subtrees, by `next_within` and `take_subtree`. The pairs of a subtree
//! stand together, so each call walks over one stretch of the list and nothing recurses.
#![tactic(auto)]

mod attributes;
mod changing;
mod kinds;
mod listing;
mod moving;
mod pruning;
mod subtree;

pub use attributes::{attr, attrs, set_attr, unset_attr};
pub use changing::{make, refusal_to_make, remove};
pub use kinds::{Kind, kind_of};
pub use listing::list;
pub use moving::rename;
pub use pruning::prune;
pub use subtree::{next_within, take_subtree};
