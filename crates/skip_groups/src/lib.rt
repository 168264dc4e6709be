//! One group of the skip list: the cells of a level that one key, or the start, leads, in the pages that hold them.
//!
//! Start at `search_group`. A group is searched, read and changed through any `Pages`, one page at a time and none
//! behind a page with room. Nothing here knows the list that has the group: no draw, and no other level.
#![tactic(auto)]

mod cells;
mod group;
mod group_search;
mod new_cells;
mod set_group;
mod wanted;

pub use cells::{append_own, lead_behind};
pub use group::{is_last, label_in_group};
pub use group_search::search_group;
pub use new_cells::NewCells;
pub use set_group::{change_run, part_group, read_new_cells};
pub use wanted::{Wanted, pair_of};
