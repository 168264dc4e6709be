//! A crash leaves all of a load or nothing.

ghost use Rattle.std.specs.Prelude.{IfOk};
ghost use Rattle.store_model.specs.Parameters.{Parameters};
ghost use Rattle.store_model.specs.Trees.{Tree, empty_tree};
ghost use Rattle.store_model.specs.Images.{Represents};
ghost use Rattle.disk_model.specs.DiskState.{MayLeaveOnly};
ghost use Rattle.disk_model.specs.Memory.{memory_state};
ghost use Rattle.listing_subcommands.specs.LoadCall.{Lists};
ghost use Rattle.store_claims.specs.LoadCrashes.{LeavesAllOrNothing};

use crate::loaded::a_listing_is_loaded;
use crate::{Crash, run_behind};
use disk_model::{FailingDisk, MemDisk};
use script_lines::{MemSink, MemSource};
use std::alloc::Global;
use store_base::NoMemory;

/// Loads a listing into an empty image on a disk that fails from its call `from` on, and then runs no line on an
/// image that a crash may have left, whichever of these it is. Where the run ends with 0 the image is, byte for byte,
/// that of the empty tree or that of the tree that the lines say; it is the latter where the crash came after a load
/// that succeeded. The run ends with 0 unless a call of it fails or memory is short.
///
/// `NoMemory`: there was none for the run's disk and sink, or for the word `load` or `run`.
pub fn a_crash_leaves_all_of_a_load_or_nothing(
    alloc: Global,
    disk: MemDisk,
    from: u64,
    source: MemSource,
    sink: MemSink,
    left: &[u8],
) -> Result<Crash, NoMemory>
    ensures { (t : Tree) (p : Parameters)
        → MayLeaveOnly (memory_state disk) (λ image. Represents image empty_tree p)
        → Lists t p source.left
        → IfOk result (LeavesAllOrNothing t p disk left.now) }
{
    let failing = FailingDisk::new(disk, Vec::new(alloc), Some(from));
    let first = a_listing_is_loaded(alloc, failing, source, sink)?;
    let next = run_behind(alloc, left)?;
    Ok(Crash { first, next })
}
