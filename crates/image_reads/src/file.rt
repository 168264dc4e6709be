//! The bytes of one file of an image.

ghost use Rattle.std.specs.Prelude.{IfErr};
ghost use Rattle.disk_model.specs.DiskState.{IsObservable};
ghost use Rattle.recovered_store.specs.BelowDisks.{IsUntouched};
ghost use Rattle.image_reads.specs.Reads.{ReadsFile, IsUnread};

use crate::fault::{ReadFault, unopened};
use crate::found::FileFound;
use crate::store::{below, put_file};
use disk_model::Disk;
use path_keys::Path;
use recovered_store::attach_recovered;
use script_lines::Sink;
use std::alloc::Global;

/// What is handed back of an image of which one file was read, and what stood at its path.
pub struct FileRead<D: Disk, W: Sink> {
    /// The disk, which was only read.
    pub disk: D,
    /// The sink.
    pub sink: W,
    /// What stands at the path. `Err`: the sink may have got the first bytes of the file.
    pub found: Result<FileFound, ReadFault>,
}

/// Puts the bytes of the file at a path of an image into a sink, and answers what stands there, as recovery would leave
/// it. Where that is nothing, a folder or a link, the sink gets no bytes. A link is what becomes one on the host. The
/// disk is only read: first checked whole, and then of its pairs those of the path and below it are pulled.
///
/// `NotImage` and `Damaged`: the sink was not called. `Disk`, `NoMemory` and `Changed`: the sink may have got the first
/// bytes of the file. `Output`: the sink failed.
pub fn read_file<D: Disk, W: Sink>(alloc: Global, disk: D, path: &Path, sink: W) -> FileRead<D, W>
    ensures reads { ReadsFile path.now (D.state disk) (W.state sink) (W.state result.sink)
        result.found }
    ensures unread { IfErr result.found (IsUnread (D.state disk) (D.state result.disk)) }
    ensures untouched { IsObservable (D.state disk) → IsUntouched (D.state disk) (D.state result.disk) }
{
    let store = match attach_recovered(alloc, disk) {
        Ok(store) => store,
        Err((fault, disk)) => {
            return FileRead {
                disk,
                sink,
                found: Err(unopened(fault)),
            };
        }
    };
    let (store, sink, found) = put_file(store, path, sink);
    FileRead {
        disk: below(store),
        sink,
        found,
    }
}
