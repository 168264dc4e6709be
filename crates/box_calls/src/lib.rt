//! What each subcommand of `hbox` does with things that are open, how it ends, and what it says. Start at `Ended`,
//! `Trouble` and `get_file`.
//!
//! Data goes to the first sink, and all that is said to the second. `Trouble` is the one place that turns faults of the
//! libraries into statuses and messages. This crate must not know how a file is opened, nor what a terminal is.
#![tactic(auto)]

mod check;
mod counted;
mod create;
mod extract;
mod folders;
mod get;
mod images;
mod info;
mod lines;
mod list;
mod making;
mod map;
mod marks;
mod pack;
mod place;
mod plan;
mod quoted;
mod reads;
mod reason;
mod saying;
mod show;
mod stored;
mod telling;
mod trouble;
mod unpack;
mod wanted;

pub use check::{check_image, printed};
pub use create::{create_empty_image, create_image};
pub use extract::extract_paths;
pub use folders::{PackFault, Packed, compare_with_folder, is_refused, unpacked};
pub use get::{Target, get_file};
pub use images::compare_with_image;
pub use info::print_info;
pub use list::list_path;
pub use making::{end_part, left_out_status};
pub use map::draw_map;
pub use marks::{MarkForm, line_trouble, put_all};
pub use pack::{break_off, pack_listing};
pub use place::{Compared, Ended, Listed, Made, Place, Printed, Stored};
pub use plan::{PlanFault, Planned, plan_image, unplanned};
pub use quoted::Quoted;
pub use reads::unread;
pub use reason::Reason;
pub use saying::{say, say_no_memory};
pub use show::print_plan;
pub use stored::{Holds, sum_up_stored};
pub use telling::{About, ended};
pub use trouble::Trouble;
pub use unpack::unpack_listing;
pub use wanted::{stored_of, wanted_of};
