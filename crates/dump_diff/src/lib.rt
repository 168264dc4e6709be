//! What is different between two dumps, and the script that leads from one tree to the other.
//!
//! Start at `compare`. It compares two streams in one pass, step by step in the order of their places: path by
//! path, and at each path first what stands there, by offsets, and then its attributes, by name. It keeps no more
//! than one step of each. The first step at a path that one dump has alone, or that the other has otherwise,
//! tells how the path differs. Of a difference only names are kept: a path, and the names of attributes.
//!
//! `compare_keeping` keeps besides what the second dump has and the first lacks, so that one walk over each is enough
//! to make the second tree of the first.
//!
//! The script is written from the differences and a second pass over the second dump: first what is taken away and cut,
//! and then what is made and written.
#![tactic(auto)]

mod comparing;
mod difference;
mod differences;
mod fault;
mod heads;
mod keeping;
mod kept_step;
mod laws;
mod lines;
mod losses;
mod order;
mod removal;
mod script;

pub use comparing::{Compared, compare, compare_keeping};
pub use difference::{AttributeDifference, Difference, Mark, Side};
pub use differences::Differences;
pub use fault::CompareFault;
pub use kept_step::{KeptPart, KeptStep};
pub use laws::no_mark_says_that_trees_are_equal;
pub use lines::write_differences;
pub use losses::Losses;
pub use removal::{Removal, removals};
pub use script::{AdditionTaker, write_removals};
