//! The page layer: pages and their bytes, the groups that they hold, and stores of pages.
//!
//! Start at `Page` and `Pages`. A page holds the cells of one run of a group under its label. It is kept as the slot
//! that it has in an image, so that it is written by one copy; cells are read from it where they are asked for. A
//! group's cells are one run of bytes (`Cells`), cut into pages (`cut_group`). `Pages` is the trait of a finite map
//! from labels to pages, and `MapPages` the one in memory. This crate does not know where a page lies in a table.
#![tactic(auto)]

mod cell;
mod cell_area;
mod cell_bytes;
mod cells;
mod group;
mod map;
mod page;
mod pages;
mod reveal;
mod sequence;

pub use cell::{Cell, CellRef};
pub use cell_area::room;
pub use cells::Cells;
pub use group::{append_group, cut_group, join_group};
pub use map::MapPages;
pub use page::{Page, decode_page, encode_page, label_in, page_label};
pub use pages::Pages;
pub use reveal::{reveal_key, reveal_lead, reveal_pair, reveal_value};
pub use sequence::{PageList, PairList, Sequence};
