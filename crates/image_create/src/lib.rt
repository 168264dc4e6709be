//! An image made of a folder of the host, in one pass over what its files hold.
//!
//! `count_found` counts the pages of what was found, and `ladder` says how many slots these ask for. `create` reads
//! each file once, and writes each block of the image once. This crate must not know how the host is asked.
#![tactic(auto)]

mod counting;
mod creating;
mod fault;
mod keys;
mod kinds;
mod laws;
mod lead;
mod slots;

pub use counting::{Counted, TooMany, count_found};
pub use creating::{Created, Plan, create, create_empty};
pub use fault::CreateFault;
pub use laws::{the_ladder_by_examples, the_ladder_has_the_least_slots};
pub use slots::ladder;
