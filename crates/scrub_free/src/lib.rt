//! The repair of an image: recovers the journal, and makes each free slot of the table zero. Start at `scrub`.
//!
//! A slot whose byte 0 is 0 is free. In the layout of a tree it is zero throughout, so what stands behind that byte is
//! a trace of no tree. The image that scrubbing would leave is checked first, through a view; only where it is the
//! layout of a tree is anything written. A crash at any moment leaves an image that scrubbing turns into that same
//! layout.
#![tactic(auto)]

mod call;
mod image;
mod laws;
mod slots;
mod view;

pub use call::scrub;
pub use laws::a_second_scrub_ends_in_the_same_layout;
