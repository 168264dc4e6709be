//! The image of pairs that come in the order of their keys, written to a disk in one pass: each byte once.
//!
//! Start at `ImageWriter`. Each page is written at once into the first free slot of its probe sequence. Byte 0 is
//! written last, by itself, when all the rest is durable: until then the disk is no image. This crate does not know
//! what the pairs spell.
#![tactic(auto)]

mod fault;
mod fill;
mod laws;
mod level;
mod pairs;
mod place;
mod rest;
mod upper;
mod writer;

pub use fault::WriteFault;
pub use fill::{fill_free, write_header_rest, zero_journal};
pub use laws::pairs_of_a_tree_give_its_layout;
pub use level::place_level;
pub use pairs::write_pairs;
pub use place::{place_closed, place_page};
pub use rest::seal;
pub use upper::{place_left, place_upper};
pub use writer::ImageWriter;
