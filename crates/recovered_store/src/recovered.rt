//! The disk of the image that recovery would leave.

ghost use Rattle.std.specs.Prelude.{◌≡◌, IfOk, IfErr};
ghost use Rattle.store_model.specs.Parameters.{image_len};
ghost use Rattle.store_model.specs.Images.{NamesParameters, recovered};
ghost use Rattle.disk_model.specs.DiskState.{IsObservable};
ghost use Rattle.recovered_store.specs.BelowDisks.{IsOver};
ghost use Rattle.recovered_store.specs.RecoveredDisks.{HasCounts, IsRecoveredOf, IsNotOpened};

use crate::disk::SlotsDisk;
use disk_model::Disk;
use gate_journal::{Journal, View};
use store_base::{DiskFault, Params};
use thiserror::Error;

/// Why there is no recovered image of a disk.
#[derive(Clone, Copy, Debug, PartialEq, Eq, Error)]
pub enum ViewFault {
    /// The disk's header, as recovery would leave it, is that of no image of its length.
    #[error("not an image")]
    NotImage,
    /// The disk failed.
    #[error("the disk failed")]
    Disk,
}

/// The image that recovery would leave of this disk, which has an image of these parameters, as a disk that can only be
/// read. The disk below is only read, and never synced.
pub fn recovered_disk<D: Disk>(disk: D, params: &Params) -> SlotsDisk<View<D>>
    requires size { (D.state disk).size ≡ image_len params.now.slots }
    requires named { IsObservable (D.state disk)
        → NamesParameters (D.state disk).bytes params.now }
    ensures size { (⟦<SlotsDisk<View<D>> as Disk>⟧.state result).size ≡ (D.state disk).size }
    ensures observable { (⟦<SlotsDisk<View<D>> as Disk>⟧.state result).is_observable
        ≡ (D.state disk).is_observable }
    ensures bytes { IsObservable (D.state disk)
        → (⟦<SlotsDisk<View<D>> as Disk>⟧.state result).bytes
        ≡ recovered params.now.slots (D.state disk).bytes }
    ensures over { IsObservable (D.state disk)
        → IsOver (D.state disk) (⟦<SlotsDisk<View<D>> as Disk>⟧.state result) }
    ensures counts { HasCounts (D.state disk) (⟦<SlotsDisk<View<D>> as Disk>⟧.state result) }
{
    SlotsDisk::new(View::new(disk, params), params)
}

/// `recovered_disk` of a disk of which nothing is known: its header tells the parameters. With a fault the disk is
/// given back, and was only read. `NotImage` is the answer exactly to a disk whose header, as recovery would leave it,
/// is that of no image of its length. `Disk` comes only where the disk failed. It takes no memory.
pub fn open_recovered<D: Disk>(mut disk: D) -> Result<SlotsDisk<View<D>>, (ViewFault, D)>
    ensures opened { IfOk result (λ opened. IsRecoveredOf (D.state disk)
        (⟦<SlotsDisk<View<D>> as Disk>⟧.state opened)) }
    ensures over { IfOk result (λ opened. IsObservable (D.state disk)
        → IsOver (D.state disk) (⟦<SlotsDisk<View<D>> as Disk>⟧.state opened)) }
    ensures refused { IfErr result (λ refused. IsNotOpened (D.state disk) refused.0
        (D.state refused.1)) }
{
    match Journal::view_header(&mut disk) {
        Ok(Some(params)) => Ok(recovered_disk(disk, &params)),
        Ok(None) => Err((ViewFault::NotImage, disk)),
        Err(DiskFault) => Err((ViewFault::Disk, disk)),
    }
}
