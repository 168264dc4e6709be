//! Whether a table holds a list, found without memory for its pages: whether its slots are in order, where a page lies,
//! and the pairs of its groups of pages. No call allocates, and none writes. A fault of the slots ends a call with that
//! fault.
//!
//! `check_order` looks at the slots. They are in order where each is free or holds a page, and whatever a page had to
//! pass on its probe sequence, from its start to where it lies, is of smaller label. The slots are looked at once
//! round, from behind a slot that no page passes: a free one, or else that of the greatest label. An array of fixed
//! size keeps for each page how far the smaller labels are known to reach before it. A page behind it then jumps over
//! these at once, and no page that comes later looks at what was jumped over. So the looks and the starts that are
//! drawn are at most four for each slot, whatever the slots hold. Where slots are looked at in order, several are read
//! by one call (`Window`).
//!
//! `sort_entries` and `find_page` are an index of the pages by their labels, in an array that the caller has. An entry
//! tells the digest of a page's label, a number of 64 bits, and the slot of the page. The caller digests the labels, by
//! the same function for the entries and for the lookups. Entries are noted in any order, sorted once by their digests,
//! and found by binary search. The page that an entry names is read and compared, so two labels of one digest only cost
//! a read.
//!
//! `walk_groups` walks over the groups, from the start of each level down to level 0.
#![tactic(auto)]

mod bar;
mod check;
mod content;
mod entry;
mod find;
mod fronts;
mod guide;
mod lookup;
mod progress;
mod read;
mod round;
mod sink;
mod walk;
mod way;
mod window;

pub use check::check_order;
pub use entry::{Entry, sort_entries};
pub use find::find_page;
pub use sink::TakesPairs;
pub use walk::walk_groups;
