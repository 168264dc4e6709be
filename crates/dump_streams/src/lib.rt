//! Dumps, step after step: what a dump is, where its steps come from, and what takes them.
//!
//! Start at `DumpStep`. A dump is the steps that make a tree, path after path in their order, each with its attributes
//! after it. So the last step tells which may be the next, and the first steps of a dump are a dump.
//!
//! A `DumpStream` gives the steps of a dump one after another, and keeps no more than one. A `Taker` does something
//! with each of them. `drain` leads a stream into a taker, to the stream's end. Both know nothing of each other.
//!
//! - `ListingStream` reads a listing, and `LineTaker` writes one. `ListingReader` tells whether steps are those of a
//!   dump, and keeps no list of the paths.
//! - `PairSteps` makes the steps of the pairs of a tree as they come. A directory's pair is the step that makes it, and
//!   an attribute's pair the one that sets it. A file that stands in its first pair is written by one step. The first
//!   pair of another file tells how many bytes its blocks have, and these are gathered to pieces of 2,048 bytes. So no
//!   pair is looked at twice, and none ahead of its turn.
//! - `ListedPairs` takes the steps of a dump that others judged. It keeps the pairs of the tree, while its pages fit,
//!   and of each level of the list how many pages it has.
#![tactic(auto)]

mod draining;
mod fault;
mod first;
mod gather;
mod laws;
mod lines;
mod listed_pairs;
mod listing;
mod maker;
mod pairs;
mod reader;
mod reading;
mod room;
mod source;
mod step;
mod steps;
mod stream;
mod taken;
mod taker;
mod writing;

pub use draining::{DrainFault, drain};
pub use fault::StreamFault;
pub use gather::{GatheredLines, GatheredSink};
pub use laws::{every_dump_is_a_script, every_front_of_a_dump_is_a_dump, every_listing_runs};
pub use lines::{LineTaker, NoTaker};
pub use listed_pairs::{ListedPairs, PairsFault};
pub use listing::ListingStream;
pub use reader::{DUMP_PIECE, ListingReader};
pub use reading::drain_listing;
pub use source::ListingSource;
pub use step::{DumpStep, Step, read_step, write_step};
pub use steps::PairSteps;
pub use stream::DumpStream;
pub use taken::Taken;
pub use taker::{Taker, TakerFault};
pub use writing::write_dump;
