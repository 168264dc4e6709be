//! A question to an image that is only read.

ghost use Rattle.std.specs.Prelude.{◌≡◌, false, IfOk, IfErr};
ghost use Rattle.disk_model.specs.DiskState.{IsObservable};
ghost use Rattle.script_lines.specs.Replies.{reply_of};
ghost use Rattle.recovered_store.specs.BelowDisks.{IsUntouched};
ghost use Rattle.image_reads.specs.Reads.{IsUnread};
ghost use Rattle.box_changes.specs.Asking.{IsAnswer, AsksStore};

use disk_model::Disk;
use image_reads::{ReadFault, below, store_fault, unopened};
use recovered_store::attach_recovered;
use script_lines::{Question, Reply};
use std::alloc::Global;
use store_core::Store;

/// Asks a store that only reads.
pub(crate) fn ask_store<R: Disk>(
    store: &mut Store<R>,
    question: &Question,
) -> Result<Reply, ReadFault>
    requires { store.old.is_stopped ≡ false }
    ensures { AsksStore R.state question.now store.old store.new result }
{
    match store.apply(&question.command()) {
        Ok(reply) => Ok(reply),
        Err(fault) => Err(store_fault(Some(fault))),
    }
}

/// Asks an image, as recovery would leave it. The disk is only read, and handed back.
pub(crate) fn ask<D: Disk>(
    alloc: Global,
    disk: D,
    question: &Question,
) -> (D, Result<Reply, ReadFault>)
    ensures answers { IsObservable (D.state disk)
        → IfOk result.1 (λ reply. IsAnswer (D.state disk) question.now (reply_of reply)) }
    ensures unread { IfErr result.1 (IsUnread (D.state disk) (D.state result.0)) }
    ensures untouched { IsObservable (D.state disk) → IsUntouched (D.state disk) (D.state result.0) }
{
    let mut store = match attach_recovered(alloc, disk) {
        Ok(store) => store,
        Err((fault, disk)) => return (disk, Err(unopened(fault))),
    };
    let answered = ask_store(&mut store, question);
    (below(store), answered)
}
