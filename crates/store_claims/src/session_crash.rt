//! A crash leaves whole groups, and each that was acknowledged.

ghost use Rattle.std.specs.Prelude.{IfOk};
ghost use Rattle.store_model.specs.Parameters.{Parameters};
ghost use Rattle.store_model.specs.Trees.{Tree};
ghost use Rattle.store_model.specs.Images.{Represents};
ghost use Rattle.disk_model.specs.DiskState.{MayLeaveOnly};
ghost use Rattle.disk_model.specs.Memory.{memory_state};
ghost use Rattle.script_runs.specs.SessionRuns.{session_texts};
ghost use Rattle.store_claims.specs.Acknowledged.{KeepsAcknowledged};
ghost use Rattle.store_claims.specs.Crashes.{LosesNothing};
ghost use Rattle.store_claims.specs.Groups.{committed_trees};

use crate::hold::hold;
use crate::{Crash, run_behind};
use disk_model::{FailingDisk, MemDisk};
use script_lines::{MemSink, MemSource};
use std::alloc::Global;
use store_base::NoMemory;

/// Answers a script of calls on sessions on a disk that fails from its call `from` on, and then runs no line on an
/// image that a crash may have left, whichever of these it is. Where the run ends with 0 the image is, byte for byte,
/// that of the tree of the groups that just the lines commit whose replies were written, or those of one line more:
/// by `groups_are_whole` each group is in it whole or not at all, and each whose commit was answered `ok` is in it.
/// Where the crash came at some moment before, what it left is an image of the tree of the groups that some of the
/// lines commit, and the run leaves the one of that tree. The run ends with 0 unless a call of it fails or memory is
/// short. The first call keeps what it acknowledged, however it ends.
///
/// `NoMemory`: there was none for the run's disk and sink, or for the word `session` or `run`.
pub fn a_crash_leaves_whole_groups(
    alloc: Global,
    disk: MemDisk,
    from: u64,
    source: MemSource,
    sink: MemSink,
    left: &[u8],
) -> Result<Crash, NoMemory>
    ensures first { (t : Tree) (p : Parameters)
        → MayLeaveOnly (memory_state disk) (λ image. Represents image t p) →
        IfOk result (λ crash. KeepsAcknowledged (session_texts t source.left p)
        (committed_trees t source.left p) t p source sink crash.first) }
    ensures next { (t : Tree) (p : Parameters)
        → MayLeaveOnly (memory_state disk) (λ image. Represents image t p) →
        IfOk result (LosesNothing (session_texts t source.left p)
        (committed_trees t source.left p) p disk sink left.now) }
{
    let failing = FailingDisk::new(disk, Vec::new(alloc), Some(from));
    let first = hold(alloc, failing, source, sink)?;
    let next = run_behind(alloc, left)?;
    Ok(Crash { first, next })
}
