//! The subcommand `upgrade`: opens an image, and makes it one of version 2.

ghost use Rattle.std.specs.Prelude.{◌≡◌};
ghost use Rattle.image_subcommands.specs.Endings as endings;
ghost use Rattle.image_subcommands.specs.Endings.{apply_status};
ghost use Rattle.image_subcommands.specs.Outside.{KeepsOutside, outside_of};
ghost use Rattle.store_top.specs.UpgradeCall.{IsUpgrade};

use disk_model::Disk;
use image_check::AttachFault;
use image_subcommands::{Outcome, Status};
use image_work::{StoreWork, open_for};
use script_lines::{Sink, Source};
use std::alloc::Global;
use store_core::{ApplyFault, Store};

/// The status of a call whose upgrade ended so.
fn upgrade_status(upgraded: Result<(), ApplyFault>) -> Status
    ensures { result ≡ endings.status_of apply_status upgraded }
{
    match upgraded {
        Ok(()) => Status::Done,
        Err(fault) => fault.into(),
    }
}

/// The work of `upgrade`.
#[derive(Drop)]
struct UpgradeWork<R: Source, W: Sink> {
    source: R,
    sink: W,
}

impl<R: Source, W: Sink> StoreWork for UpgradeWork<R, W> {
    ghost use Rattle.image_subcommands.specs.Statuses.{Subcommand as words};
    ghost use Rattle.store_top.specs.UpgradeCall.{KeepsUpgrade, UpgradesAt};

    type Reads = R;

    type Writes = W;

    ghost word = { λ work. words.Upgrade };

    ghost given = { λ work. (work.source, work.sink) };

    ghost keeps = { λ D disk_of work. KeepsUpgrade };

    ghost does = { λ D disk_of work. UpgradesAt disk_of };

    /// Makes the image one of version 2.
    fn work<D: Disk>(self, store: Store<D>) -> Outcome<D, R, W> {
        let mut store = store;
        let status = upgrade_status(store.upgrade());
        Outcome {
            status,
            done: status.done_of_work(),
            disk: store.into_disk(),
            source: self.source,
            sink: self.sink,
        }
    }

    fn give_up<D: Disk>(self, fault: AttachFault, disk: D) -> Outcome<D, R, W> {
        Outcome::idle(fault.into(), disk, self.source, self.sink)
    }
}

/// Makes the image one of version 2 that holds the same tree. It takes no memory but the store's.
pub fn upgrade<D: Disk, R: Source, W: Sink>(
    alloc: Global,
    disk: D,
    source: R,
    sink: W,
) -> Outcome<D, R, W>
    ensures upgrade { IsUpgrade D.state (outside_of disk source sink) result }
    ensures outside { KeepsOutside result.status (D.state disk)
        (D.state result.disk) (R.state source)
        (R.state result.source) (W.state sink) (W.state result.sink) }
{
    open_for(alloc, disk, UpgradeWork { source, sink })
}
