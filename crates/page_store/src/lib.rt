//! The pages of the store in the table of an image, changed in memory and settled at once. Start at `Staged`.
//!
//! A `Staged` keeps what was changed since the last settle, each label with its page or with none. Until a settle
//! nothing is written. A settle carries the changes out on an overlay of the slots that they touch, and commits the
//! slots whose bytes differ, so that the table is again the placement of the pages; a crash leaves the old pages or the
//! new ones. A settle that upgrades makes the image one of version 2 with them.
//!
//! Slots that were written lie over those of the disk (`Overlay`), which are read through a cache. A page that is
//! remembered is not looked up again, and a search looks first into the slot where the page was found last. Where
//! searches go far, an index tells where all pages lie. `table_memory` remembers slots and pages, and finds which
//! written slots differ.
#![tactic(auto)]

mod carry;
mod changes;
mod commit_kind;
mod fault;
mod index;
mod label_order;
mod locate;
mod lookup;
mod overlay;
mod prepare;
mod staged;
mod write_back;

pub use fault::SettleFault;
pub use staged::Staged;
pub use table_memory::SlotCache;
