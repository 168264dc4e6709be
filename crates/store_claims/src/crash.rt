//! A crash loses nothing of what was acknowledged, and tells nothing.

ghost use Rattle.std.specs.Prelude.{IfOk};
ghost use Rattle.store_model.specs.Parameters.{Parameters};
ghost use Rattle.store_model.specs.Trees.{Tree};
ghost use Rattle.store_model.specs.Images.{Represents};
ghost use Rattle.disk_model.specs.DiskState.{MayLeaveOnly};
ghost use Rattle.disk_model.specs.Memory.{memory_state};
ghost use Rattle.script_runs.specs.Runs.{run_texts, run_trees};
ghost use Rattle.store_claims.specs.Acknowledged.{KeepsAcknowledged};
ghost use Rattle.store_claims.specs.Crashes.{LosesNothing, RunsBehind};

use crate::answered::a_script_is_answered;
use crate::machines::{Ended, calm, no_script, one_word};
use disk_model::{FailingDisk, MemDisk};
use script_lines::{MemSink, MemSource};
use std::alloc::Global;
use store_base::NoMemory;
use store_top::top;

/// The room of the record of the disk that the second run is on, in bytes: a write takes 16 and those that it writes.
const ROOM: usize = 4_194_304;

/// A call that a crash cut short, and the run after it.
#[derive(Drop)]
pub struct Crash {
    /// The call on the disk that fails.
    pub first: Ended,
    /// The run of no line on the image that the crash left.
    pub next: Ended,
}

/// Runs a script on a disk that fails from its call `from` on, and then no line on an image that a crash may have
/// left, whichever of these it is. Where the second run ends with 0 the image is, byte for byte, the one that is left
/// without a crash by just the lines whose replies were written, or by one line more. Where the crash came at some
/// moment before, what it left is an image of the tree after some of the lines, and the second run leaves the one of
/// that tree. The second run ends with 0 unless a call of it fails or memory is short. The first keeps what it
/// acknowledged, however it ends.
///
/// `NoMemory`: there was none for the second run's disk and sink, or for the word `run`.
pub fn a_crash_loses_nothing(
    alloc: Global,
    disk: MemDisk,
    from: u64,
    source: MemSource,
    sink: MemSink,
    left: &[u8],
) -> Result<Crash, NoMemory>
    ensures first { (t : Tree) (p : Parameters)
        → MayLeaveOnly (memory_state disk) (λ image. Represents image t p) →
        IfOk result (λ crash. KeepsAcknowledged (run_texts t source.left p)
        (run_trees t source.left p) t p source sink crash.first) }
    ensures next { (t : Tree) (p : Parameters)
        → MayLeaveOnly (memory_state disk) (λ image. Represents image t p) →
        IfOk result (LosesNothing (run_texts t source.left p)
        (run_trees t source.left p) p disk sink left.now) }
{
    let words = one_word(alloc, "run")?;
    let failing = FailingDisk::new(disk, Vec::new(alloc), Some(from));
    let first = top(alloc, &words, failing, source, sink);
    let next = run_behind(alloc, left)?;
    Ok(Crash { first, next })
}

/// Runs no line on this image, on a disk of its own, on which no call is to fail. So a crash is recovered from.
///
/// `NoMemory`: there was none for the disk and the sink, or for the word `run`.
pub fn run_behind(alloc: Global, image: &[u8]) -> Result<Ended, NoMemory>
    ensures { (t : Tree) (p : Parameters) → Represents image.now t p
        → IfOk result (RunsBehind t p) }
{
    let disk = calm(alloc, MemDisk::new(alloc, image, ROOM)?);
    let sink = MemSink::new(alloc, 0, Vec::new(alloc))?;
    a_script_is_answered(alloc, disk, no_script(alloc), sink)
}
