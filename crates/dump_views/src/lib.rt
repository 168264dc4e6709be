//! Views of a dump: the bytes of one file of it, and the columns of a list of what it holds.
//!
//! Start at `ContentTaker`. It takes the steps of a dump one after another, wherever these come from.
#![tactic(auto)]

mod columns;
mod content;
pub mod laws;
mod same;
mod times;

pub use columns::push_aligned;
pub use content::{ContentTaker, Standing};
pub use same::is_same_path;
pub use times::push_utc;
