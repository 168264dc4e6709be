//! The call that mirrors an image.

ghost use Rattle.mirror_copy.specs.MirrorCalls.{Mirrors};

use crate::compare::compare_slots;
use crate::fault::MirrorFault;
use crate::pair::judge_pair;
use crate::rewrite::rewrite;
use disk_model::Disk;
use gate_journal::SlotChanges;
use std::alloc::Global;
use store_base::DiskFault;

/// Makes the second image what recovery leaves of the first, and answers in how many slots they differed, each as
/// recovery leaves it. Both disks are handed back, and the first is only read.
///
/// `FromNotImage` and `ToNotImage` are the answers to a disk whose header, as recovery would leave it, is that of no
/// image of its length; `FromDamaged` that to a first image that holds no tree; `Unequal` that to images of other
/// parameters or versions. The first is checked whole before the second is looked at, so where several of these hold
/// the first of them is the answer. The second may be damaged. `FromDisk` and `ToDisk` come only where that disk
/// failed. After each of these but `ToDisk`, and after `NoMemory`, nothing was written to the second.
///
/// Each slot that differs is kept in memory, and nothing else is; all of it is taken before the second is written, and
/// the first is not read from then on. Then the second is recovered, and the slots that differ are written in one
/// commit. Each image of the second that a crash at any moment of the call may leave is one that a crash before it
/// might have left, or recovers to what the second did or to what the first does. What it reads after `ToDisk`
/// recovers so too: mirror it again. After Ok it is durable, and reads what recovery leaves of the first. With d
/// slots that differ that takes 5d + 2 writes and 5 syncs, or none of either where d is 0, besides those of recovery.
pub fn mirror<A: Disk, B: Disk>(
    alloc: Global,
    from: A,
    mut to: B,
) -> (A, B, Result<u32, MirrorFault>)
    ensures { Mirrors (A.state from) (A.state result.0) (B.state to) (B.state result.1) result.2 }
{
    let (from, judged) = judge_pair(from, &mut to);
    let params = match judged {
        Ok(params) => params,
        Err(fault) => return (from, to, Err(fault)),
    };
    let (from, mut to, compared) = compare_slots(alloc, from, to, &params);
    let changes = match compared {
        Ok(changes) => changes,
        Err(fault) => return (from, to, Err(fault)),
    };
    let mirrored = match rewrite(&mut to, &params, &changes) {
        Ok(()) => Ok(changes.count()),
        Err(DiskFault) => Err(MirrorFault::ToDisk),
    };
    (from, to, mirrored)
}
