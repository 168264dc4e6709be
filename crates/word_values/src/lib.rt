//! The numbers, draws and seeds that words of a command line spell. Unaware of which words these are.
#![tactic(auto)]

mod values;

pub use values::{draw_kind, number_in, seed_of};
