//! Pages that come by rank while pairs come by key, and the slot that each gets at once. No page is kept but the last
//! one of a level.
//!
//! Start at `OpenPage`: it takes the cells of a level one after another, and hands out each page that no later cell
//! comes into. Pages of level 0 come in the order of their labels when pairs come in the order of their keys; the keys
//! above level 0 (`RaisedKey`) then give the levels above in the same way. `KeptPairs` is what has to be kept for both.
//! `FreeSlots` gives each page that comes the first free slot of its probe sequence. This crate does not know where the
//! bytes of a page go.
#![tactic(auto)]

mod free;
mod kept;
mod laws;
mod open;
mod raised;

pub use free::FreeSlots;
pub use kept::KeptPairs;
pub use laws::{closed_pages_stay, raised_keys_tell_the_levels_above};
pub use open::OpenPage;
pub use raised::RaisedKey;
