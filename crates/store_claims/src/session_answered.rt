//! Sessions answer their script, at their costs, and what they acknowledged stays.

ghost use Rattle.std.specs.Prelude.{IfOk};
ghost use Rattle.std.specs.List.{concat};
ghost use Rattle.store_model.specs.Parameters.{Parameters};
ghost use Rattle.store_model.specs.Trees.{Tree};
ghost use Rattle.store_model.specs.Images.{Represents};
ghost use Rattle.store_model.specs.Scripts.{lines};
ghost use Rattle.disk_model.specs.DiskState.{MayLeaveOnly};
ghost use Rattle.script_runs.specs.Costs.{CountsRun};
ghost use Rattle.script_runs.specs.SessionRuns.{session_texts};
ghost use Rattle.store_claims.specs.Acknowledged.{KeepsAcknowledged};
ghost use Rattle.store_claims.specs.Answered.{AnswersWhole};
ghost use Rattle.store_claims.specs.Machines.{bytes_of, meaning};
ghost use Rattle.store_claims.specs.Nothing.{HasNoTree, DoesNothing};
ghost use Rattle.store_claims.specs.Groups.{committed_tree, committed_trees};

use crate::hold::hold;
use crate::{Disk, Ended};
use script_lines::{MemSink, MemSource};
use std::alloc::Global;
use store_base::NoMemory;

/// Answers a script of calls on sessions, on an image. With status 0 each of its lines was answered, and the image is
/// that of the tree of the groups that the lines commit, whatever pieces the script came in: what was only staged is
/// not in it. However the call ends, each group that was acknowledged stays: with status 0, 3, 4 or 6 the image is that
/// of the tree of the groups that just the lines commit that were carried out, durably, and each status tells which
/// lines they are.
///
/// It makes just the writes and syncs of opening the image, and for each commit whose group changes d slots 5 d + 2
/// writes and 5 syncs; other lines make none. Where the disk fails it makes no more than with the line in progress.
///
/// On bytes that are the image of no tree it does nothing, as a run: nothing is taken, answered or written, and it ends
/// with 7 or 8, by what the bytes are, unless the disk fails or memory is short.
///
/// `NoMemory`: nothing was called.
pub fn a_session_is_answered(
    alloc: Global,
    disk: Disk,
    source: MemSource,
    sink: MemSink,
) -> Result<Ended, NoMemory>
    ensures answered { (t : Tree) (p : Parameters) → Represents (bytes_of disk) t p
        → IfOk result (AnswersWhole (concat (session_texts t source.left p))
        (committed_tree t (lines source.left) p) p disk source sink) }
    ensures acknowledged { (t : Tree) (p : Parameters)
        → MayLeaveOnly (meaning disk) (λ image. Represents image t p)
        → IfOk result (KeepsAcknowledged (session_texts t source.left p)
        (committed_trees t source.left p) t p source sink) }
    ensures costs { (t : Tree) (p : Parameters) → Represents (bytes_of disk) t p
        → IfOk result (λ after. CountsRun after.status after.done (committed_trees t source.left p) p
        (meaning disk) (meaning after.disk)) }
    ensures nothing { HasNoTree (bytes_of disk) → IfOk result (DoesNothing disk source sink) }
{
    hold(alloc, disk, source, sink)
}
