//! The subcommand `wipe`: makes every byte of a disk zero.

ghost use Rattle.std.specs.Prelude.{◌≡◌};
ghost use Rattle.image_subcommands.specs.Endings as endings;
ghost use Rattle.image_subcommands.specs.Endings.{disk_status};
ghost use Rattle.image_subcommands.specs.WipeCall.{IsWipe};
ghost use Rattle.image_subcommands.specs.Outside.{KeepsOutside, outside_of};

use crate::outcome::Outcome;
use crate::status::Status;
use disk_model::Disk;
use gate_journal::Journal;
use script_lines::{Sink, Source};
use store_base::DiskFault;

/// The status of a call whose wipe ended so.
fn wipe_status(wiped: Result<(), DiskFault>) -> Status
    ensures { result ≡ endings.status_of disk_status wiped }
{
    match wiped {
        Ok(()) => Status::Done,
        Err(fault) => fault.into(),
    }
}

/// Wipes a disk of any length.
pub fn wipe_disk<D: Disk, R: Source, W: Sink>(disk: D, source: R, sink: W) -> Outcome<D, R, W>
    ensures wipe { IsWipe D.state (outside_of disk source sink) result }
    ensures outside { KeepsOutside result.status (D.state disk)
        (D.state result.disk) (R.state source)
        (R.state result.source) (W.state sink) (W.state result.sink) }
{
    let mut disk = disk;
    let status = wipe_status(Journal::wipe(&mut disk));
    Outcome {
        status,
        done: status.done_of_work(),
        disk,
        source,
        sink,
    }
}
