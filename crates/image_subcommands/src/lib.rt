//! The subcommands that need no store: `format`, `wipe`, `check` and `scrub`, each a call on a disk, a source and a
//! sink; the mirror of an image, which is a call on two disks and a sink; and how a call of any subcommand ends: its
//! status and its outcome.
//!
//! Start at `check_disk` and `Outcome`. Each subcommand has a file with its call, and a file of specs/ with what it
//! promises. `command_line` says which words ask for it.
#![tactic(auto)]

mod check;
pub mod examples;
mod format;
mod mirror;
mod outcome;
mod report;
mod scrub;
mod status;
pub mod table;
mod wipe;

pub use check::check_disk;
pub use format::format_disk;
pub use mirror::{PairOutcome, top_pair};
pub use outcome::Outcome;
pub use scrub::scrub_disk;
pub use status::{Status, ended_status};
pub use wipe::wipe_disk;
