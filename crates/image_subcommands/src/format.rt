//! The subcommand `format`: writes the image of the empty tree.

ghost use Rattle.std.specs.Prelude.{◌≡◌};
ghost use Rattle.image_subcommands.specs.Endings as endings;
ghost use Rattle.image_subcommands.specs.Endings.{journal_status};
ghost use Rattle.image_subcommands.specs.FormatCall.{IsFormat};
ghost use Rattle.image_subcommands.specs.Outside.{KeepsOutside, outside_of};

use crate::outcome::Outcome;
use crate::status::Status;
use disk_model::Disk;
use gate_journal::{Journal, JournalFault};
use script_lines::{Sink, Source};
use store_base::Params;

/// The status of a call whose format ended so.
fn format_status(formatted: Result<(), JournalFault>) -> Status
    ensures { result ≡ endings.status_of journal_status formatted }
{
    match formatted {
        Ok(()) => Status::Done,
        Err(fault) => fault.into(),
    }
}

/// Formats a disk.
pub fn format_disk<D: Disk, R: Source, W: Sink>(
    params: &Params,
    disk: D,
    source: R,
    sink: W,
) -> Outcome<D, R, W>
    ensures format { IsFormat D.state params.now (outside_of disk source sink) result }
    ensures outside { KeepsOutside result.status (D.state disk)
        (D.state result.disk) (R.state source)
        (R.state result.source) (W.state sink) (W.state result.sink) }
{
    let mut disk = disk;
    let status = format_status(Journal::format(&mut disk, params));
    Outcome {
        status,
        done: status.done_of_work(),
        disk,
        source,
        sink,
    }
}
