//! What is read of an opened store.

ghost use Rattle.std.specs.Prelude.{◌≡◌, false};
ghost use Rattle.disk_model.specs.DiskState.{IsObservable};
ghost use Rattle.gate_journal.specs.View.{disk_of};
ghost use Rattle.recovered_store.specs.BelowDisks.{IsOver};
ghost use Rattle.image_reads.specs.StoreReads.{LeavesDisk, PutsFile};

use crate::fault::{ReadFault, ended};
use crate::found::{FileFound, FileTaker};
use disk_model::Disk;
use dump_streams::drain;
use gate_journal::View;
use path_keys::Path;
use recovered_store::{SlotsDisk, into_below};
use script_lines::Sink;
use std::slice;
use store_core::Store;
use store_stream::PartsStream;

/// The disk below a store that only reads, of whose history the store's disk tells.
pub fn below<D: Disk>(store: Store<SlotsDisk<View<D>>>) -> D
    ensures disk { result ≡ disk_of store.disk.slots }
    ensures over { IsObservable (D.state result)
        → IsOver (D.state result) (⟦<SlotsDisk<View<D>> as Disk>⟧.state store.disk) }
{
    into_below(store.into_disk())
}

/// Puts the bytes of the file at a path of a store's tree into a sink, and answers what stands there.
pub(crate) fn put_file<R: Disk, W: Sink>(
    store: Store<R>,
    path: &Path,
    sink: W,
) -> (Store<R>, W, Result<FileFound, ReadFault>)
    requires runs { store.is_stopped ≡ false }
    ensures leaves { LeavesDisk (R.state store.disk) (R.state result.0.disk) result.2 }
    ensures puts { PutsFile path.now (R.state store.disk) store.tree (W.state sink)
        (W.state result.1) result.2 }
{
    let mut stream = PartsStream::new(store, slice::from_ref(path));
    let mut taker = FileTaker::new(*path, sink);
    let drained = drain(&mut stream, &mut taker);
    let found = ended(drained, stream.fault(), taker.found());
    (stream.into_store(), taker.into_sink(), found)
}
