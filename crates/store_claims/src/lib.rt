//! The sentences of docs/PROMISES.md. Each is a proved function over disks, sources and sinks in memory that calls the
//! program. Its contract says the sentence in bytes, scripts, replies, lines, statuses and trees, and of the image of a
//! tree. Start at `a_script_is_answered` for scripts, at `a_session_is_answered` for sessions, at `a_listing_is_loaded`
//! for dumps and loads, and at `check` for what is done to a whole image.
//!
//! Nearly all of them call `top` in one way, over one kind of machine; `call_anything` calls it on any disk, and
//! `mirror` comes to the program by `top_pair`. What leads from the program's records to a sentence stands in lemmas
//! over these records alone, in proofs/, a file a sentence.
#![tactic(auto)]

mod again;
mod answered;
mod big;
mod call;
mod checks;
mod crash;
mod dumped;
mod equal;
mod faults;
mod groups;
mod hold;
mod images;
mod load_crash;
mod loaded;
mod machines;
mod mirrors;
mod refused;
mod removed;
mod runs;
mod same;
mod session_answered;
mod session_crash;
mod upgraded;

pub use again::{Copied, a_dump_is_loaded_again};
pub use answered::a_script_is_answered;
pub use big::{TwoRuns, big_is_a_run, commands_of_big_stay};
pub use checks::{Judged, check, check_then_run};
pub use crash::{Crash, a_crash_loses_nothing, run_behind};
pub use dumped::a_dump_says_its_tree;
pub use equal::{Images, Making, equal_contents_have_equal_bytes, make_image};
pub use faults::call_anything;
pub use groups::groups_are_whole;
pub use images::{Remade, Scrubs, scrub, scrub_cut_short, wipe, wipe_then_format};
pub use load_crash::a_crash_leaves_all_of_a_load_or_nothing;
pub use loaded::a_listing_is_loaded;
pub use machines::{Disk, Ended, Machine, no_script, one_word};
pub use mirrors::{Mirrored, mirror};
pub use refused::{Shortened, refused_lines_may_be_left_out};
pub use removed::{Removal, what_was_removed_is_gone};
pub use runs::check_behind_runs;
pub use same::{LoadAndRun, a_load_is_a_run};
pub use session_answered::a_session_is_answered;
pub use session_crash::a_crash_leaves_whole_groups;
pub use upgraded::an_upgraded_image_is_the_one_made_so;
