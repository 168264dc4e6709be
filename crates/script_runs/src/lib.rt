//! Scripts and commands over an image: the subcommands `run`, which answers a script of commands, `session`, which
//! answers a script of calls on sessions, and `big`, which carries out the commands that a number gives.
//!
//! Start at `run_image`. `run` and `big` share one loop, `answer_all`, over a `Work`: what asks for one thing after
//! another. The lines of sessions have a loop of their own. Each subcommand has a file with its call; what the three
//! promise stands in specs/ScriptCall.antt.
#![tactic(auto)]

mod big;
mod calls;
mod generated;
mod lines;
mod run;
mod script;
mod session;
mod work;

pub use big::big_image;
pub use run::run_image;
pub use session::session_image;
