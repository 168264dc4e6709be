//! The list layer: the B-skip-list, a sorted list of pairs over any pages (Golovin).
//!
//! Start at `SkipList`. A search goes from the top level down, one group a level, and remembers for the next call
//! where it ended (`walk`). A change goes down from the key's own level (`pair_changes`): on each level it sets the
//! key's cells in a group, cuts a group in two or joins two (`levels`). It reads one group of a level or two, and
//! never the list. `skip_groups` has the calls on a single group.
#![tactic(auto)]

mod levels;
mod next;
mod pair_changes;
mod put_place;
mod skip_list;
mod walk;

pub use ordered_pairs::{MapPairs, OrderedPairs};
pub use skip_list::SkipList;
