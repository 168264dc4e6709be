//! An ordered hash table in the slots (Amble and Knuth 1974): pages under their labels, by search, insertion
//! and overwriting.
//!
//! Start at `find` and `insert`. The slots hold a finite map from labels to pages: no page lies in two slots, a slot
//! without one is zero, and whatever a page had to pass on its probe sequence, from its start to where it lies, is of
//! smaller label. One table alone has this order for a map, so the slots tell nothing of its history (Blelloch and
//! Golovin 2007).
//!
//! A fault of the slots ends a call with that fault. What stands after a fault of a call that writes is not
//! promised: such calls work on slots that are then thrown away. No call allocates.
#![tactic(auto)]

mod change;
mod mem_slots;
mod order;
mod round;
mod search;
mod steps;

pub use change::{insert, insert_from, overwrite};
pub use mem_slots::MemSlots;
pub use order::{OrderSlots, order_of};
pub use round::next_slot;
pub use search::{find, find_from, holds};
pub use steps::Steps;
