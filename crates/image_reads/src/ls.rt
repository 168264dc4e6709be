//! What is listed of an image.

ghost use Rattle.std.specs.Prelude.{◌≡◌, false, IfErr};
ghost use Rattle.disk_model.specs.DiskState.{IsObservable};
ghost use Rattle.recovered_store.specs.BelowDisks.{IsUntouched};
ghost use Rattle.image_reads.specs.Faults.{ended_by};
ghost use Rattle.image_reads.specs.Reads.{IsUnread};
ghost use Rattle.image_reads.specs.StoreReads.{LeavesDisk};
ghost use Rattle.image_reads.specs.Lists.{ListsImage, ListsStore, done_of, standing_in};

use crate::fault::{ReadFault, ended, unopened};
use crate::store::below;
use disk_model::Disk;
use dump_streams::DrainFault;
use dump_views::Standing;
use entry_lines::{ListForm, write_entries};
use image_check::ApplyFault;
use path_keys::Path;
use recovered_store::attach_recovered;
use script_lines::Sink;
use std::alloc::Global;
use std::slice;
use store_core::Store;
use store_stream::PartsStream;

/// What is handed back of an image of which something was listed, and what stands at the path.
pub struct Listed<D: Disk, W: Sink> {
    /// The disk, which was only read.
    pub disk: D,
    /// The sink.
    pub sink: W,
    /// What stands at the path; where nothing does, no line was written. `Err`: the sink may have got the first lines.
    pub found: Result<Standing, ReadFault>,
}

/// Lists what an image has at a path, as recovery would leave it: of a file its own line, and of a folder the lines of
/// its children or of all below it, in the order of paths. The disk is only read: first checked whole, and then of its
/// pairs those of the path and below it are pulled. No list is kept in memory.
///
/// `NotImage` and `Damaged`: the sink was not called. `Disk`, `NoMemory` and `Changed`: the sink may have got the first
/// lines. `Output`: the sink failed.
pub fn list_image<D: Disk, W: Sink>(
    alloc: Global,
    disk: D,
    path: &Path,
    form: ListForm,
    sink: W,
) -> Listed<D, W>
    ensures lists { ListsImage form path.now (D.state disk) (W.state sink) (W.state result.sink)
        result.found }
    ensures unread { IfErr result.found (IsUnread (D.state disk) (D.state result.disk)) }
    ensures untouched { IsObservable (D.state disk) → IsUntouched (D.state disk) (D.state result.disk) }
{
    let store = match attach_recovered(alloc, disk) {
        Ok(store) => store,
        Err((fault, disk)) => {
            return Listed {
                disk,
                sink,
                found: Err(unopened(fault)),
            };
        }
    };
    let (store, sink, found) = list_store(alloc, store, path, form, sink);
    Listed {
        disk: below(store),
        sink,
        found,
    }
}

/// Lists what a store's tree has at a path.
fn list_store<R: Disk, W: Sink>(
    alloc: Global,
    store: Store<R>,
    path: &Path,
    form: ListForm,
    sink: W,
) -> (Store<R>, W, Result<Standing, ReadFault>)
    requires runs { store.is_stopped ≡ false }
    ensures leaves { LeavesDisk (R.state store.disk) (R.state result.0.disk) result.2 }
    ensures lists { ListsStore form path.now (R.state store.disk) store.tree (W.state sink)
        (W.state result.1) result.2 }
{
    let mut stream = PartsStream::new(store, slice::from_ref(path));
    let (sink, listed) = write_entries(alloc, &mut stream, path, form, sink);
    let found = found_by(listed, stream.fault());
    (stream.into_store(), sink, found)
}

/// How a list ends whose steps were taken so, and whose store told this fault.
fn found_by(
    listed: Result<Standing, DrainFault>,
    fault: Option<ApplyFault>,
) -> Result<Standing, ReadFault>
    ensures { result ≡ ended_by (done_of listed) fault (standing_in listed) }
{
    match listed {
        Ok(standing) => Ok(standing),
        Err(cause) => ended(Err(cause), fault, Standing::Nothing),
    }
}
