//! How a word ends.

ghost use Rattle.std.specs.Prelude.{◌≡◌};
ghost use Rattle.image_changes.specs.Outcomes as model;

use path_keys::Path;
use script_lines::Reply;
use store_core::GroupAnswer;
use store_model::Refusal;

/// How a word ended. But for `Done` nothing was changed.
#[derive(Clone, Copy, Debug)]
pub enum Outcome {
    /// It was carried out, in one commit.
    Done,
    /// It is refused at this path, for this reason.
    Refused {
        /// The path in the image.
        path: Path,
        /// Why.
        reason: Refusal,
    },
    /// The tree that is meant has more pages than the image has slots.
    Full {
        /// The number of its pages.
        need: u32,
        /// The number of slots.
        slots: u32,
    },
}

/// A refusal at a path.
pub(crate) fn refused_at(path: &Path, reason: Refusal) -> Outcome
    ensures { result ≡ model.refused_at path.now reason }
{
    match reason {
        Refusal::Full { need, slots } => Outcome::Full { need, slots },
        _ => Outcome::Refused {
            path: *path,
            reason,
        },
    }
}

/// How a word ended whose changes were answered so, where a change at this path came last.
pub fn outcome_of(path: &Path, answer: GroupAnswer) -> Outcome
    ensures { result ≡ model.outcome_of path.now answer }
{
    match answer {
        GroupAnswer::Done => Outcome::Done,
        GroupAnswer::Refused { index: _, reply } => refused_at(path, reply),
    }
}

/// How a word ended whose one command, at this path, has this reply.
pub(crate) fn outcome_of_reply(path: &Path, reply: &Reply) -> Outcome
    ensures { result ≡ model.outcome_of_reply path.now reply.now }
{
    match reply {
        Reply::No(reason) => refused_at(path, *reason),
        _ => Outcome::Done,
    }
}
