//! How an image differs from a folder of the host.

ghost use Rattle.std.specs.Prelude.{◌≡◌, ◌≤◌, false, vec_len, IfOk, IfErr};
ghost use Rattle.disk_model.specs.DiskState.{IsObservable};
ghost use Rattle.recovered_store.specs.BelowDisks.{IsUntouched};
ghost use Rattle.image_reads.specs.Reads.{HasTreeWith};
ghost use Rattle.image_reads.specs.StoreReads.{IsOnlyRead};
ghost use Rattle.image_differences.specs.Told as told;
ghost use Rattle.image_differences.specs.Folders as model;
ghost use Rattle.image_differences.specs.Folders.{TellsFolder, IsUncompared, IsStoreUncompared};

use crate::timing::{Times, settle_times};
use disk_model::Disk;
use dump_diff::{CompareFault, Differences, compare};
use dump_streams::StreamFault;
use host_builder::{HostViewStream, Wanted};
use host_folders::{Folder, FolderStream, Found, MAX_FOUND};
use image_reads::{ReadFault, below, store_fault, unopened};
use path_keys::Path;
use recovered_store::attach_recovered;
use std::alloc::Global;
use store_core::{ApplyFault, Store};
use store_stream::StoreStream;
use thiserror::Error;

/// Why a folder did not tell the tree of what was found in it.
#[derive(Clone, Copy, Debug, Error)]
pub enum FolderReadFault {
    /// A call of the folder failed.
    #[error("the folder cannot be read")]
    Unreadable,
    /// Memory ran out.
    #[error("out of memory")]
    NoMemory,
    /// No image can hold what the folder has at this path, behind what it told before: it changed meanwhile.
    #[error("no image can hold what stands at a path of the folder")]
    NoImage(Path),
}

/// Why an image was not compared with a folder.
#[derive(Clone, Copy, Debug, Error)]
pub enum FolderCompareFault {
    /// The image was not read to its end.
    #[error("the image: {0}")]
    Image(ReadFault),
    /// The folder was not read to its end.
    #[error(transparent)]
    Folder(FolderReadFault),
    /// Memory ran out for the differences.
    #[error("out of memory")]
    NoMemory,
}

/// What is handed back of an image and a folder that were compared.
pub struct FolderCompared<D: Disk, F: Folder> {
    /// The disk of the image, which was only read.
    pub disk: D,
    /// The folder.
    pub folder: F,
    /// How they differ: what is `Removed` the image has alone, and what is `Added` the folder.
    pub found: Result<Differences, FolderCompareFault>,
}

/// Finds how an image, as recovery would leave it, differs from a folder, in which `found` was found (`find_all`), in
/// what the host is to have of both: so much as `wanted` says, with times as `times` says. A path of the image that no
/// host can have is `Removed`, unless such are skipped. No mark is found exactly where the host would have the same of
/// the image's tree as of the tree that the folder told. The disk is only read: first checked whole, then, where
/// `times` asks for it, each pair up to the first time is pulled, and then each pair. Each file of the folder is read
/// once. Of the differences it keeps a path and an attribute's name each, and of image and folder no more than a step.
///
/// `Image`: the image is to blame, for this reason; only `Disk` says that a call of its disk failed. `Folder`: the
/// folder is to blame; only `Unreadable` says that a call of it failed.
pub fn compare_folder<D: Disk, F: Folder>(
    alloc: Global,
    disk: D,
    folder: F,
    found: Vec<Found>,
    wanted: Wanted,
    times: Times,
) -> FolderCompared<D, F>
    requires few { vec_len found ≤ MAX_FOUND }
    ensures compares { IfOk result.found (λ differences. IsObservable (D.state disk)
        → HasTreeWith (D.state disk)
        (TellsFolder wanted times found.items (F.state folder) (F.state result.folder) differences)) }
    ensures failed { IfErr result.found (IsUncompared (D.state disk) (D.state result.disk)
        (F.state folder) (F.state result.folder)) }
    ensures untouched { IsObservable (D.state disk) → IsUntouched (D.state disk) (D.state result.disk) }
{
    let store = match attach_recovered(alloc, disk) {
        Ok(store) => store,
        Err((fault, disk)) => {
            return FolderCompared {
                disk,
                folder,
                found: Err(FolderCompareFault::Image(unopened(fault))),
            };
        }
    };
    let (store, folder, found) = compare_store(alloc, store, folder, found, wanted, times);
    FolderCompared {
        disk: below(store),
        folder,
        found,
    }
}

/// Finds how the image of a store differs from a folder, in which this was found.
fn compare_store<R: Disk, F: Folder>(
    alloc: Global,
    store: Store<R>,
    folder: F,
    found: Vec<Found>,
    wanted: Wanted,
    times: Times,
) -> (Store<R>, F, Result<Differences, FolderCompareFault>)
    requires runs { store.is_stopped ≡ false }
    requires few { vec_len found ≤ MAX_FOUND }
    ensures read { IsOnlyRead (R.state store.disk) (R.state result.0.disk) }
    ensures tells { IfOk result.2 (λ differences. IsObservable (R.state store.disk)
        → TellsFolder wanted times found.items (F.state folder) (F.state result.1) differences
        store.tree) }
    ensures failed { IfErr result.2 (IsStoreUncompared (R.state store.disk) (R.state result.0.disk)
        (F.state folder) (F.state result.1)) }
{
    let (store, settled) = settle_times(store, wanted, times);
    match settled {
        Ok(wanted) => compare_views(alloc, store, folder, found, wanted),
        Err(fault) => (store, folder, Err(FolderCompareFault::Image(fault))),
    }
}

/// The same in just what is wanted.
fn compare_views<R: Disk, F: Folder>(
    alloc: Global,
    store: Store<R>,
    folder: F,
    found: Vec<Found>,
    wanted: Wanted,
) -> (Store<R>, F, Result<Differences, FolderCompareFault>)
    requires runs { store.is_stopped ≡ false }
    requires few { vec_len found ≤ MAX_FOUND }
    ensures read { IsOnlyRead (R.state store.disk) (R.state result.0.disk) }
    ensures tells { IfOk result.2 (λ differences. IsObservable (R.state store.disk)
        → TellsFolder wanted Times.AsWanted found.items (F.state folder) (F.state result.1) differences
        store.tree) }
    ensures failed { IfErr result.2 (IsStoreUncompared (R.state store.disk) (R.state result.0.disk)
        (F.state folder) (F.state result.1)) }
{
    let mut one = HostViewStream::new(StoreStream::new(store), wanted);
    let mut other = HostViewStream::new(FolderStream::new(folder, found), wanted);
    let compared = compare(alloc, &mut one, &mut other);
    let (one, other) = (one.into_stream(), other.into_stream());
    let found = views_found(compared, one.fault(), other.path());
    (one.into_store(), other.into_folder(), found)
}

/// What is found of an image and a folder whose streams were compared so, where the store told this fault, and the
/// folder's stream stands at this path.
fn views_found(
    compared: Result<Differences, CompareFault>,
    fault: Option<ApplyFault>,
    at: Option<Path>,
) -> Result<Differences, FolderCompareFault>
    ensures { result ≡ model.views_found compared fault at }
{
    match compared {
        Ok(found) => Ok(found),
        Err(cause) => Err(views_fault(cause, fault, at)),
    }
}

/// Why they are not compared whose streams ended so.
fn views_fault(
    cause: CompareFault,
    fault: Option<ApplyFault>,
    at: Option<Path>,
) -> FolderCompareFault
    ensures { result ≡ model.views_fault cause fault at }
{
    match cause {
        CompareFault::First(_) => FolderCompareFault::Image(store_fault(fault)),
        CompareFault::Second(cause) => FolderCompareFault::Folder(tree_fault(cause, at)),
        CompareFault::TooLong => FolderCompareFault::Image(ReadFault::Changed),
        CompareFault::NoMemory(_) => FolderCompareFault::NoMemory,
    }
}

/// Why a folder did not tell its tree whose stream ended so at the entry of this path.
pub(crate) fn tree_fault(cause: StreamFault, at: Option<Path>) -> FolderReadFault
    ensures { result ≡ told.tree_fault cause at }
{
    match cause {
        StreamFault::NoMemory => FolderReadFault::NoMemory,
        StreamFault::Unreadable => FolderReadFault::Unreadable,
        StreamFault::NoDump | StreamFault::TooLong => {
            FolderReadFault::NoImage(at.unwrap_or(Path::root()))
        }
    }
}
