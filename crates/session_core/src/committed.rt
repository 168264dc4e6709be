//! What a commit answers.

use script_lines::Reply;
use store_model::Refusal;

/// What a commit answers. Whichever it is, the session has ended.
#[derive(Debug, Drop)]
pub enum Committed {
    /// The changes were carried out together, and are durable.
    Ok,
    /// A question has another answer than it had, and nothing was carried out.
    Conflict {
        /// The number of the first such question, from 0.
        question: u32,
        /// The reply that it had.
        was: Reply,
        /// The reply that it has now.
        now: Reply,
    },
    /// A change is refused where they are carried out one after another, and nothing was carried out.
    Refused {
        /// The number of the first such change, from 0.
        index: u32,
        /// Why it is refused.
        reply: Refusal,
    },
}
