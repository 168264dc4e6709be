//! A run answers its script, at its costs. What it acknowledged stays, and a refused line leaves no trace.

ghost use Rattle.std.specs.Prelude.{◌≡◌, ◌≢◌, IfOk};
ghost use Rattle.std.specs.List.{AllByRecursion};
ghost use Rattle.store_model.specs.Parameters.{Parameters};
ghost use Rattle.store_model.specs.Trees.{Tree};
ghost use Rattle.store_model.specs.Images.{Represents};
ghost use Rattle.store_model.specs.Commands.{Command};
ghost use Rattle.store_model.specs.Scripts.{lines, replies};
ghost use Rattle.disk_model.specs.DiskState.{MayLeaveOnly};
ghost use Rattle.script_runs.specs.Costs.{CountsRun};
ghost use Rattle.script_runs.specs.Runs.{run_texts, run_trees};
ghost use Rattle.store_claims.specs.Acknowledged.{KeepsAcknowledged};
ghost use Rattle.store_claims.specs.Answered.{AnswersScript};
ghost use Rattle.store_claims.specs.Machines.{bytes_of, meaning};
ghost use Rattle.store_claims.specs.Nothing.{HasNoTree, DoesNothing};
ghost use Rattle.store_claims.specs.Refusals.{IsRefusal, IsAtRest, IsUntouched, IsOneLine, AnswersFull};

use crate::machines::{Disk, Ended, one_word};
use script_lines::{MemSink, MemSource};
use std::alloc::Global;
use store_base::NoMemory;
use store_top::{Status, top};

/// Runs a script on an image. With status 0 each of its lines was answered, and the image is that of the tree that the
/// lines leave, whatever pieces the script came in. However the run ends, each line that was acknowledged stays: with
/// status 0, 3, 4 or 6 the image is that of the tree after just the lines that were carried out, durably, and each
/// status tells which lines they are.
///
/// A run makes just the writes and syncs of opening the image, and for each line that changes d slots 5 d + 2 writes
/// and 5 syncs; other lines make none. Where the disk fails it makes no more than with the line in progress. Where all
/// lines are refused and there is nothing to be recovered, no byte of the image is changed, and no write is made,
/// unless a call of the disk fails. A run of one command that ends with 0 answers `full` exactly where nothing else
/// refuses the command and the pages of the new tree are more than the slots, and then tells both numbers.
///
/// On bytes that are the image of no tree nothing is taken, answered or written, and a crash leaves what it might have
/// left before; the run ends with 7 or 8, by what the bytes are, unless the disk fails or memory is short.
///
/// `NoMemory`: nothing was called.
pub fn a_script_is_answered(
    alloc: Global,
    disk: Disk,
    source: MemSource,
    sink: MemSink,
) -> Result<Ended, NoMemory>
    ensures answered { (t : Tree) (p : Parameters) → Represents (bytes_of disk) t p
        → IfOk result (AnswersScript t p disk source sink) }
    ensures acknowledged { (t : Tree) (p : Parameters)
        → MayLeaveOnly (meaning disk) (λ image. Represents image t p)
        → IfOk result (KeepsAcknowledged (run_texts t source.left p)
        (run_trees t source.left p) t p source sink) }
    ensures costs { (t : Tree) (p : Parameters) → Represents (bytes_of disk) t p
        → IfOk result (λ after. CountsRun after.status after.done (run_trees t source.left p) p
        (meaning disk) (meaning after.disk)) }
    ensures untouched { (t : Tree) (p : Parameters) → IsAtRest (bytes_of disk) t p
        → AllByRecursion IsRefusal (replies t (lines source.left) p)
        → IfOk result (λ after. after.status ≢ Status.DiskFault → IsUntouched disk after.disk) }
    ensures full { (command : Command) (t : Tree) (p : Parameters) → Represents (bytes_of disk) t p
        → IsOneLine source.left command
        → IfOk result (λ after. after.status ≡ Status.Done → AnswersFull command t p sink after) }
    ensures nothing { HasNoTree (bytes_of disk) → IfOk result (DoesNothing disk source sink) }
{
    let words = one_word(alloc, "run")?;
    Ok(top(alloc, &words, disk, source, sink))
}
