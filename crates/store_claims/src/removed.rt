//! What was removed is gone.

ghost use Rattle.std.specs.Prelude.{◌≡◌, IfOk, length};
ghost use Rattle.store_model.specs.Parameters.{Parameters};
ghost use Rattle.store_model.specs.Paths.{Path};
ghost use Rattle.store_model.specs.Trees.{Tree};
ghost use Rattle.store_model.specs.Images.{layout, Represents};
ghost use Rattle.store_model.specs.Scripts.{lines, tree_after};
ghost use Rattle.store_claims.specs.Removals.{RemovesAt};
ghost use Rattle.store_claims.specs.Machines.{bytes_of};

use crate::answered::a_script_is_answered;
use crate::machines::{Disk, Ended, calm};
use script_lines::{MemSink, MemSource};
use std::alloc::Global;
use store_base::NoMemory;
use store_top::Status;

/// Two runs on one disk.
#[derive(Drop)]
pub struct Removal {
    /// How the first run ended.
    pub first: Status,
    /// The bytes of the image after it.
    pub image: Vec<u8>,
    /// The second run.
    pub second: Ended,
}

/// Runs two scripts on a disk, one after the other. Where the first leaves nothing at a path, and the second works
/// there and below it alone and prunes the path at last, the image after the second is the one after the first,
/// byte for byte, if both end with 0. The first image is then that of the tree that the first script leaves, and each
/// line of the second was carried out.
///
/// `NoMemory`: there was none for the image's copy, or for the word `run`.
pub fn what_was_removed_is_gone(
    alloc: Global,
    disk: Disk,
    first: MemSource,
    second: MemSource,
    sink: MemSink,
) -> Result<Removal, NoMemory>
    ensures first { (t : Tree) (p : Parameters) → Represents (bytes_of disk) t p
        → IfOk result (λ runs. runs.first ≡ Status.Done
        → runs.image.items ≡ layout (tree_after t (lines first.left) p) p) }
    ensures second { (t : Tree) (p : Parameters) → Represents (bytes_of disk) t p
        → IfOk result (λ runs. runs.first ≡ Status.Done → runs.second.status ≡ Status.Done
        → runs.second.done ≡ length (lines second.left)) }
    ensures gone { (at : Path) (t : Tree) (p : Parameters) → Represents (bytes_of disk) t p
        → RemovesAt at t p first.left second.left
        → IfOk result (λ runs. runs.first ≡ Status.Done → runs.second.status ≡ Status.Done
        → bytes_of runs.second.disk ≡ runs.image.items) }
{
    let before = a_script_is_answered(alloc, disk, first, sink)?;
    let memory = before.disk.into_disk();
    let image = Vec::from_slice(alloc, memory.bytes())?;
    let second = a_script_is_answered(alloc, calm(alloc, memory), second, before.sink)?;
    Ok(Removal {
        first: before.status,
        image,
        second,
    })
}
