//! How a disk becomes a store that only reads.

ghost use Rattle.std.specs.Prelude.{◌≡◌, IfOk, IfErr};
ghost use Rattle.disk_model.specs.DiskState.{IsObservable};
ghost use Rattle.recovered_store.specs.BelowDisks.{IsOver, IsUntouched};
ghost use Rattle.recovered_store.specs.RecoveredStores.{IsOpened, IsRefused, attach_fault_of};

use crate::{SlotsDisk, ViewFault, into_below, open_recovered};
use disk_model::Disk;
use gate_journal::View;
use std::alloc::Global;
use store_core::{AttachFault, Store};

/// Why there is no store, where there is no image to read.
fn attach_fault(fault: ViewFault) -> AttachFault
    ensures { result ≡ attach_fault_of fault }
{
    match fault {
        ViewFault::NotImage => AttachFault::NotImage,
        ViewFault::Disk => AttachFault::Disk,
    }
}

/// Makes a store of the image that recovery would leave of a disk: checks that image whole, and recovers nothing. The
/// disk below is only read. Of the gate, marks and shadow of the image no more is read than tells what recovery would
/// leave.
///
/// With a fault the disk is given back. `NotImage`: its header, as recovery would leave it, is that of no image of its
/// length. `Damaged`: it is an image, but even recovered it would hold no tree. `Disk`: the disk failed. `NoMemory`:
/// there is no room for the slots that a store keeps in memory.
pub fn attach_recovered<D: Disk>(
    alloc: Global,
    disk: D,
) -> Result<Store<SlotsDisk<View<D>>>, (AttachFault, D)>
    ensures opened { IfOk result
        (IsOpened (⟦<SlotsDisk<View<D>> as Disk>⟧.state) (D.state disk)) }
    ensures over { IfOk result (λ store. IsObservable (D.state disk)
        → IsOver (D.state disk) (⟦<SlotsDisk<View<D>> as Disk>⟧.state store.disk)) }
    ensures untouched { IfErr result (λ refused. IsObservable (D.state disk)
        → IsUntouched (D.state disk) (D.state refused.1)) }
    ensures refused { IfErr result
        (λ refused. IsRefused (D.state disk) refused.0 (D.state refused.1)) }
{
    let recovered = match open_recovered(disk) {
        Ok(recovered) => recovered,
        Err((fault, disk)) => return Err((attach_fault(fault), disk)),
    };
    match Store::attach(alloc, recovered) {
        Ok(store) => Ok(store),
        Err((fault, recovered)) => Err((fault, into_below(recovered))),
    }
}
