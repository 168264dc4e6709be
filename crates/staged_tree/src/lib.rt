//! The tree of a store as a list over staged pages, and what is carried out on it. Start at `TreeList`.
//!
//! `carry_out_look` and `carry_out_change` carry out a command, as the definitions' step says: one that looks at the
//! tree, and one that changes it. `carry_out_all` carries out a group of changes together, or none of them: it stages
//! them one after another, and settles once. `carry_out_stream` does so with the changes of a stream (`ChangeStream`),
//! as they come, each where its guard (`When`) lets it be, and counts their pages at the end alone; `ListedChanges` is
//! such a stream. `upgrade_list` makes the list one of version 2. `find_next` finds the first pair from a key on,
//! `start_stream` and `pull_next` give the pairs one after another, page by page, and `load_list` fills the list of the
//! empty tree with the pairs of a whole tree.
//!
//! A command works on the skip list in the staged pages of the table, and reads the pages that it asks for. What it
//! changed is settled at once, and only the slots that differ are written. After every call nothing is staged.
#![tactic(auto)]

mod change_stream;
mod commands;
mod group;
mod guards;
mod listed_changes;
mod load;
mod next_pair;
mod streamed;
mod upgrade;
mod used_slots;
mod walks;

pub use change_stream::ChangeStream;
pub use commands::{TreeList, TreePages, carry_out_change, carry_out_look, lacks_version};
pub use group::{GroupAnswer, carry_out_all};
pub use guards::When;
pub use listed_changes::ListedChanges;
pub use load::{LoadAnswer, load_list};
pub use next_pair::find_next;
pub use streamed::carry_out_stream;
pub use upgrade::upgrade_list;
pub use walks::{pull_next, start_stream};
