//! What leads from an image to what a folder of the host holds.

ghost use Rattle.std.specs.Prelude.{◌≡◌, ◌≤◌, false, vec_len, IfOk, IfErr, OnOk};
ghost use Rattle.disk_model.specs.DiskState.{IsObservable};
ghost use Rattle.image_reads.specs.StoreReads.{IsOnlyRead};
ghost use Rattle.image_differences.specs.Planning as model;
ghost use Rattle.image_differences.specs.Planning.{IsUnplannedFolder, PlansFolder};

use crate::folders::{FolderReadFault, tree_fault};
use disk_model::Disk;
use dump_diff::{CompareFault, Losses};
use host_folders::{Folder, FolderStream, Found, MAX_FOUND};
use image_reads::{ReadFault, store_fault};
use path_keys::Path;
use std::alloc::Global;
use store_core::{ApplyFault, Store};
use store_stream::StoreStream;
use synced_trees::{PlanFault, SyncPlan, plan_sync};
use thiserror::Error;

/// Why nothing was planned.
#[derive(Clone, Copy, Debug, Error)]
pub enum FolderPlanFault {
    /// The image was not read to its end.
    #[error("the image: {0}")]
    Image(ReadFault),
    /// The folder was not read to its end.
    #[error(transparent)]
    Folder(FolderReadFault),
    /// The folder has a file at this path, where the image has a folder with something below it, and no path is to be
    /// lost.
    #[error("a folder that is not empty would become a file")]
    Hidden(Path),
    /// Memory ran out for what is to change.
    #[error("out of memory")]
    NoMemory,
}

/// What is handed back of a store and a folder for which a plan was made.
pub struct FolderPlanned<D: Disk, F: Folder> {
    /// The store, which holds what it held. Its disk was only read.
    pub store: Store<D>,
    /// The folder.
    pub folder: F,
    /// What leads from the store's tree to what the folder told.
    pub plan: Result<SyncPlan, FolderPlanFault>,
}

/// Plans what leads from a store's tree to what a folder tells, in which `found` was found (`find_all`): to the store's
/// tree with the folder's laid over it, without the losses that count; where all of them do, to the folder's tree. The
/// store is only read: each of its pairs is pulled once. Each file of the folder is read once. What is to be written is
/// kept in memory, and of the rest that changes no more than names; besides the steps of one path of the folder.
///
/// `Image`: the image is to blame, for this reason; only `Disk` says that a call of its disk failed. `Folder`: the
/// folder is to blame; only `Unreadable` says that a call of it failed. `Hidden`: where no path is to be lost, a folder
/// with something below it would become a file.
pub fn plan_folder<D: Disk, F: Folder>(
    alloc: Global,
    store: Store<D>,
    folder: F,
    found: Vec<Found>,
    losses: &Losses,
) -> FolderPlanned<D, F>
    requires runs { store.is_stopped ≡ false }
    requires few { vec_len found ≤ MAX_FOUND }
    ensures read { IsOnlyRead (D.state store.disk) (D.state result.store.disk) }
    ensures tree { result.store.tree ≡ store.tree }
    ensures params { result.store.params ≡ store.params }
    ensures goes_on { OnOk result.plan (result.store.is_stopped ≡ false) }
    ensures plans { IfOk result.plan (λ plan. IsObservable (D.state store.disk)
        → PlansFolder losses.now found.items (F.state folder) (F.state result.folder) store.tree plan) }
    ensures failed { IfErr result.plan (IsUnplannedFolder losses.now (D.state store.disk)
        (D.state result.store.disk) found.items (F.state folder) (F.state result.folder) store.tree) }
{
    let mut one = StoreStream::new(store);
    let mut other = FolderStream::new(folder, found);
    let planned = plan_sync(alloc, &mut one, &mut other, losses);
    let plan = planned_of(planned, one.fault(), other.path());
    FolderPlanned {
        store: one.into_store(),
        folder: other.into_folder(),
        plan,
    }
}

/// What is planned of two streams of which this was, where the store told this fault, and the folder's stream stands at
/// this path.
fn planned_of(
    planned: Result<SyncPlan, PlanFault>,
    fault: Option<ApplyFault>,
    at: Option<Path>,
) -> Result<SyncPlan, FolderPlanFault>
    ensures { result ≡ model.planned_of planned fault at }
{
    match planned {
        Ok(plan) => Ok(plan),
        Err(cause) => Err(plan_fault(cause, fault, at)),
    }
}

/// Why nothing is planned of two streams that ended so.
fn plan_fault(cause: PlanFault, fault: Option<ApplyFault>, at: Option<Path>) -> FolderPlanFault
    ensures { result ≡ model.plan_fault cause fault at }
{
    match cause {
        PlanFault::Compare(cause) => unplanned(cause, fault, at),
        PlanFault::Hidden(path) => FolderPlanFault::Hidden(path),
    }
}

/// Why nothing is planned of two streams that were not compared.
fn unplanned(cause: CompareFault, fault: Option<ApplyFault>, at: Option<Path>) -> FolderPlanFault
    ensures { result ≡ model.unplanned_fault cause fault at }
{
    match cause {
        CompareFault::First(_) => FolderPlanFault::Image(store_fault(fault)),
        CompareFault::Second(cause) => FolderPlanFault::Folder(tree_fault(cause, at)),
        CompareFault::TooLong => FolderPlanFault::Image(ReadFault::Changed),
        CompareFault::NoMemory(_) => FolderPlanFault::NoMemory,
    }
}
