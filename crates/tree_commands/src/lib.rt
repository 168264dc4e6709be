//! The commands on a tree, over any list of pairs that holds it. Start at `answer`, which answers those that look at
//! the tree, and at `change`, which carries out those that change it. Pages are not counted here, so no command is
//! refused as full. Nor is one refused for the image's version.
#![tactic(auto)]

mod changes;
mod looks;
mod parts;

pub use changes::change;
pub use looks::answer;
pub use parts::is_on_attributes;
pub use script_lines::reveal;
