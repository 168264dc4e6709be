//! The store as one call: words, an image, a script in; replies, a status and the image out.
//!
//! Start at `top`. It serves the words `format SLOTS HEIGHT DRAW SEED`, `format2` with the same arguments, `run`,
//! `session`, `check`, `scrub`, `wipe`, `upgrade`, `dump`, `load` and `big NUMBER COUNT`. Other words end with
//! `Status::Usage`. Each subcommand has a file with its call, and a file of specs/ with what it promises: `upgrade`
//! here, `run`, `session` and `big` in `script_runs`, `dump` and `load` in `listing_subcommands`, those that need no
//! store in `image_subcommands`.
#![tactic(auto)]

mod call;
mod uncalled;
mod upgrade;

pub use call::top;
pub use command_line::{Access, FileRequest, Wanted, Words, pair_words, wanted_file, wanted_len};
pub use image_subcommands::{Outcome, PairOutcome, Status, top_pair};
