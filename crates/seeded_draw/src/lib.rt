//! The draws of the store: where the probe sequence of a page's label starts, and on how many levels of
//! the lists a key stands. Start at `Draw`: the crates above are proved for any type with this trait.
#![tactic(auto)]

mod any;
mod draw;
mod front;
mod ruler;
mod sha;

pub use any::AnyDraw;
pub use draw::Draw;
pub use front::Front;
pub use ruler::RulerDraw;
pub use sha::{ShaDraw, level_of_digest, start_of_digest};
