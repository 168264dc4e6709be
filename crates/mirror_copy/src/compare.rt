//! In which slots two images differ.

ghost use Rattle.std.specs.Prelude.{◌≡◌, ◌<◌, ◌++◌, ◌∷◌, [], OnOk};
ghost use Rattle.store_model.specs.Parameters.{image_len};
ghost use Rattle.mirror_copy.specs.MirrorCalls.{GetsOrFails, FindsDifferences, ComparesSlots};

use crate::fault::MirrorFault;
use disk_model::Disk;
use gate_journal::View;
use std::alloc::Global;
use store_base::{Fault, NoMemory, Params, ReadSlots};
use store_model::{BLOCK, Slot};
use table_memory::{Boxed, ChangedSlots};

/// Reads slot `at` into the buffer. A fault of the disk below is answered as this one.
fn get_slot<S: ReadSlots>(
    slots: &mut S,
    at: u32,
    into: &mut Slot,
    failed: MirrorFault,
) -> Result<(), MirrorFault>
    requires { at < (S.state slots.old).count }
    ensures call { GetsOrFails (S.state slots.old) (S.state slots.new) at into.new failed result }
    ensures follows { S.follows slots.old slots.new }
{
    match slots.get(at, into) {
        Ok(()) => Ok(()),
        Err(Fault::Disk) => Err(failed),
        Err(Fault::NoMemory) => Err(MirrorFault::NoMemory),
    }
}

/// Keeps a slot with its number, behind those that are kept.
/// `NoMemory`: the list may be spoilt.
fn keep(
    alloc: Global,
    kept: &mut Vec<(u32, Boxed<Slot>)>,
    at: u32,
    slot: &Slot,
) -> Result<(), NoMemory>
    ensures { OnOk result (kept.new.items ≡ kept.old.items ++ (at, slot.now) ∷ []) }
{
    kept.push((at, Boxed::new(alloc, *slot)?))?;
    Ok(())
}

/// The slots of the first that differ from the second's, one by one, each with the first's bytes. There have to be as
/// many slots in both. Memory is taken for each slot that differs, and for no other.
fn find_differences<S: ReadSlots, T: ReadSlots>(
    alloc: Global,
    from: &mut S,
    to: &mut T,
    slots: u32,
) -> Result<ChangedSlots, MirrorFault>
    requires first { (S.state from.old).count ≡ slots }
    requires second { (T.state to.old).count ≡ slots }
    ensures call { FindsDifferences (S.state from.old) (S.state from.new) (T.state to.old)
        (T.state to.new) result }
    ensures first { S.follows from.old from.new }
    ensures second { T.follows to.old to.new }
{
    let mut changed = Vec::new(alloc);
    let (mut first, mut second) = ([0; BLOCK], [0; BLOCK]);
    for at in 0..slots {
        get_slot(from, at, &mut first, MirrorFault::FromDisk)?;
        get_slot(to, at, &mut second, MirrorFault::ToDisk)?;
        if first != second {
            keep(alloc, &mut changed, at, &first)?;
        }
    }
    Ok(ChangedSlots { slots: changed })
}

/// Finds the slots of the first image that differ from the second's, each as recovery leaves it. Both disks are only
/// read.
pub fn compare_slots<A: Disk, B: Disk>(
    alloc: Global,
    from: A,
    to: B,
    params: &Params,
) -> (A, B, Result<ChangedSlots, MirrorFault>)
    requires first { (A.state from).size ≡ image_len params.now.slots }
    requires second { (B.state to).size ≡ image_len params.now.slots }
    ensures { ComparesSlots params.now.slots (A.state from) (A.state result.0) (B.state to)
        (B.state result.1) result.2 }
{
    let mut first = View::new(from, params);
    let mut second = View::new(to, params);
    let found = find_differences(alloc, &mut first, &mut second, params.slots());
    (first.into_disk(), second.into_disk(), found)
}
