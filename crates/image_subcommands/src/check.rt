//! The subcommand `check`: tells what an image is, and writes nothing to it.

ghost use Rattle.std.specs.Prelude.{◌≢◌};
ghost use Rattle.image_subcommands.specs.CheckCall.{IsCheck};
ghost use Rattle.image_subcommands.specs.Outside.{KeepsOutside, outside_of};

use crate::outcome::Outcome;
use crate::report::print_report;
use crate::status::Status;
use disk_model::Disk;
use image_check::check;
use script_lines::{Sink, Source};

/// Checks the image of a disk, and prints the line of the verdict.
pub fn check_disk<D: Disk, R: Source, W: Sink>(disk: D, source: R, sink: W) -> Outcome<D, R, W>
    ensures check { IsCheck D.state W.state (outside_of disk source sink) result }
    ensures memory { result.status ≢ Status.NoMemory }
    ensures outside { KeepsOutside result.status (D.state disk)
        (D.state result.disk) (R.state source)
        (R.state result.source) (W.state sink) (W.state result.sink) }
{
    let mut sink = sink;
    let (disk, checked) = check(disk);
    let status = print_report(&mut sink, checked);
    Outcome {
        status,
        done: status.done_of_verdict(),
        disk,
        source,
        sink,
    }
}
