//! What a mirror leaves, also where it is cut short, and what it costs.

ghost use Rattle.store_model.specs.Parameters.{Parameters};
ghost use Rattle.store_model.specs.Trees.{Tree};
ghost use Rattle.store_model.specs.Images.{Represents};
ghost use Rattle.gate_journal.specs.Headers.{IsImageWith};
ghost use Rattle.script_lines.specs.Memory.{sink_state};
ghost use Rattle.image_subcommands.specs.Statuses.{IsMirrored};
ghost use Rattle.store_claims.specs.Mirrors.{MirrorsEqual, FailsApart, MirrorsAllOrNone, MirrorsEither, CostsOfMirror};
ghost use Rattle.store_claims.specs.Machines.{meaning};

use crate::Disk;
use script_lines::MemSink;
use std::alloc::Global;
use store_top::{PairOutcome, top_pair};

/// How a mirror ended, with the disks and the sink that it was given.
pub type Mirrored = PairOutcome<Disk, Disk, MemSink>;

/// Mirrors one image onto another, whatever is pending on the two disks and which of their calls fail. With status 0
/// and 4 the second is the image of the tree that the first represents, and the line says in how many slots they
/// differed. Where a call of the first failed the second was only read, and a call of the second fails only where the
/// first represents a tree. Cut short at any moment, by a failure of any call or by a crash, the second recovers to
/// what it was or to the first, where what was pending on it did so too. Where the second has nothing to be recovered,
/// the mirror takes 5 d + 2 writes and 6 syncs if d slots differ, and one sync if none does.
pub fn mirror(alloc: Global, from: Disk, to: Disk, sink: MemSink) -> Mirrored
    ensures equal { (t : Tree) (p : Parameters) → Represents (meaning from).bytes t p
        → IsMirrored result.status → MirrorsEqual t p (meaning from).bytes result.status (meaning to)
        (meaning result.to) (sink_state sink) (sink_state result.sink) }
    ensures failed { FailsApart (meaning from) (meaning result.from) (meaning to) (meaning result.to) }
    ensures cut_short { (t : Tree) (p : Parameters) → Represents (meaning from).bytes t p
        → IsImageWith (meaning to).bytes p → MirrorsAllOrNone t p (meaning to) (meaning result.to) }
    ensures either { (t u : Tree) (p : Parameters) → Represents (meaning from).bytes t p
        → Represents (meaning to).bytes u p → MirrorsEither t u p (meaning to) (meaning result.to) }
    ensures costs { (p : Parameters) → IsImageWith (meaning from).bytes p
        → IsImageWith (meaning to).bytes p
        → CostsOfMirror p (meaning from).bytes result.status (meaning to) (meaning result.to) }
{
    top_pair(alloc, from, to, sink)
}
