//! The layout of a list of pairs, computed from nothing: the pairs are sorted by their keys, cut into groups and
//! pages, and the pages placed by rank.
//!
//! Start at `build`. This is the plain program of the layout: what a store in place must come to, and what loads many
//! pairs at once: `build_drawn`, by levels that were drawn while the pages were counted.
#![tactic(auto)]

mod count;
mod counter;
mod cut;
mod drawn;
mod fault;
mod from_pairs;
mod groups;
mod layout;
mod place;
mod ranked;

pub use counter::PageCounter;
pub use drawn::DrawnPairs;
pub use fault::ScratchFault;
pub use from_pairs::{build, build_drawn, build_sorted};
pub use layout::Layout;
