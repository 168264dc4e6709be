//! The commands that a number gives, as a work for the loop.

ghost use Rattle.std.specs.Prelude.{◌≡◌, ◌<◌, ◌+◌, ◌^◌, ◌∷◌, []};
ghost use Rattle.script_lines.specs.Replies.{reply_of};
ghost use Rattle.script_runs.specs.Generations.{count_refused};

use crate::work::{Asked, Work};
use image_subcommands::Status;
use script_lines::{Command, Generator, Reply};

/// The commands that a number gives, so many of them.
#[derive(Drop)]
pub struct Generated {
    /// What gives them.
    pub generator: Generator,
    /// How many are still to come.
    pub left: u32,
    /// How many of the replies were refusals. There are never more than replies.
    pub refused: u32,
}

/// How many refusals there are with one reply more.
fn with_reply(refused: u32, reply: &Reply) -> u32
    ensures { refused + 1 < 2 ^ 32 → result ≡ refused + count_refused (reply_of reply.now ∷ []) }
{
    match reply {
        Reply::No(_) => refused.saturating_add(1),
        Reply::Ok
        | Reply::Bytes(_)
        | Reply::Listing(_)
        | Reply::Attrs(_)
        | Reply::Space { .. }
        | Reply::Digest(_) => refused,
    }
}

impl Work for Generated {
    ghost use Rattle.script_runs.specs.Generations.{generator_trees, GeneratedKept, GeneratedDue, GeneratedEnds};

    ghost told = { λ _. Unit {0} };

    ghost trees = { λ work start. generator_trees start work };

    ghost left = { λ work. work.left };

    ghost live = { λ _. Unit {0} };

    ghost kept = { λ start first now done. GeneratedKept start first now done };

    ghost due = { λ start first now done asked. GeneratedDue start first now done asked };

    ghost ends = { λ start first new done status. GeneratedEnds start first new done status };

    fn next(&mut self, command: &mut Command) -> Result<Asked, Status> {
        if self.left == 0 {
            return Ok(Asked::End);
        }
        self.left -= 1;
        *command = self.generator.next();
        Ok(Asked::Placed)
    }

    fn answered(&mut self, reply: &Reply) -> Result<(), Status> {
        self.refused = with_reply(self.refused, reply);
        Ok(())
    }
}
