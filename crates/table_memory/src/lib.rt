//! What is kept in memory of the table of an image: slots that were read, and what was found in it.
//!
//! Start at `SlotCache` and `PageMemo`. `SlotCache` keeps the slots that were read last, each as the table of the
//! disk has it, so that they are not read again. `PageMemo` remembers what was found under a label, so that it is not
//! looked up again. `Finder` remembers the slot where a page was found last, which is looked at first, and the starts
//! that were drawn last. Nothing is searched for here, and nothing is written to a disk.
#![tactic(auto)]

mod boxed;
mod changed;
mod differing;
mod finder;
mod maps;
mod memo;
mod slot_cache;
mod spares;
mod told;

pub use boxed::{Boxed, behind};
pub use changed::ChangedSlots;
pub use differing::find_changes;
pub use finder::Finder;
pub use maps::empty;
pub use memo::{PageMemo, memo_place};
pub use slot_cache::{SlotCache, read_slot, tell_slot};
pub use spares::Spares;
pub use told::Told;
