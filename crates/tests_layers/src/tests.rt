//! The tests, a module for each kind of what is tested, and what they share: keys, labels, the layout of directories,
//! and a draw, pages and pairs that count the calls on them.

mod calls;
mod counted_draw;
mod counted_pages;
mod counted_pairs;
mod disks;
mod layouts;
mod pages;
mod pair_streams;
mod samples;
mod scripts;
mod skip_lists;
mod tables;
mod walks;
