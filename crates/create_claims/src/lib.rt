//! What the host has again of a folder of which an image was made. A contract of what two calls do after one another,
//! for readers: no program calls this.
#![tactic(auto)]

mod again;

pub use again::{Again, AgainFault, Target, create_then_extract};
