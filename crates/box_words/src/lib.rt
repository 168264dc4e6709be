//! What a line of words asks `hbox` for, and how a call ends. It knows no disk, no file and no store. Start at `read`
//! and `Status`.
#![tactic(auto)]

mod attr;
mod call;
mod cutting;
mod fault;
mod get;
mod given;
mod help;
mod line;
mod list;
mod message;
mod options;
mod origin;
mod paths;
mod rm;
mod said;
mod shape;
mod status;
mod subcommands;
mod tree_edits;
mod visible;

pub use attr::{Deed, MAX_VALUE, NewValue, value_of};
pub use call::Call;
pub use get::Named;
pub use help::{Help, version_line};
pub use line::{Asked, WordsFault, read};
pub use list::{ListFault, listed_names};
pub use message::Message;
pub use options::{Common, PLAIN_WAIT, Taken, Times};
pub use origin::Origin;
pub use paths::{PathWordFault, Spelling, image_path, shown};
pub use shape::{Seed, Shape};
pub use status::{Status, codes_are_distinct};
pub use subcommands::summary_of;
pub use visible::{Visible, terminal_text};
pub use word_values::seed_of;
