//! The one call of the program with the word `session`. Every sentence on sessions comes to the program by it.

ghost use Rattle.std.specs.Prelude.{IfOk};
ghost use Rattle.script_lines.specs.Memory.{source_state, sink_state};
ghost use Rattle.image_subcommands.specs.Outside.{outside_of};
ghost use Rattle.image_subcommands.specs.Statuses.{Subcommand as words};
ghost use Rattle.script_runs.specs.ScriptCall.{AnswersScript};
ghost use Rattle.script_runs.specs.SessionRuns.{session_texts};
ghost use Rattle.store_claims.specs.Machines.{meaning};
ghost use Rattle.store_claims.specs.Groups.{committed_trees};

use crate::{Disk, Ended, one_word};
use script_lines::{MemSink, MemSource};
use session_core::every_history_is_serial;
use std::alloc::Global;
use store_base::NoMemory;
use store_top::top;

/// Answers a script of calls on sessions, on an image, as the program does. The trees that it leads to are those of
/// the groups that its lines commit: so the law of sessions says.
///
/// `NoMemory`: nothing was called.
pub(crate) fn hold(
    alloc: Global,
    disk: Disk,
    source: MemSource,
    sink: MemSink,
) -> Result<Ended, NoMemory>
    ensures { IfOk result
        (AnswersScript words.Session session_texts committed_trees meaning source_state sink_state
        (outside_of disk source sink)) }
{
    every_history_is_serial();
    let words = one_word(alloc, "session")?;
    Ok(top(alloc, &words, disk, source, sink))
}
