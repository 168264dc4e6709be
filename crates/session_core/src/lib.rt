//! Sessions over a store. A session asks questions and stages changes. Its commit carries out all of these changes or
//! none, and only where its questions still have the answers that they had.
//!
//! Start at `Sessions`. At most 64 sessions are live at a time, each under a number. A question sees the tree as it
//! was last committed, and not what its session staged. Nothing but a commit writes to the disk.
#![tactic(auto)]

mod commit;
mod committed;
mod fault;
mod law;
mod live;
mod notes;
mod sessions;

pub use committed::Committed;
pub use fault::SessionFault;
pub use law::every_history_is_serial;
pub use sessions::Sessions;
