//! The subcommand `scrub`: recovers an image, and makes its free slots zero.

ghost use Rattle.std.specs.Prelude.{◌≢◌};
ghost use Rattle.image_subcommands.specs.Outside.{KeepsOutside, outside_of};
ghost use Rattle.image_subcommands.specs.ScrubCall.{IsScrub};

use crate::outcome::Outcome;
use crate::report::print_report;
use crate::status::Status;
use disk_model::Disk;
use script_lines::{Sink, Source};
use scrub_free::scrub;

/// Scrubs the image of a disk, and prints the line of the verdict on what scrubbing leaves.
pub fn scrub_disk<D: Disk, R: Source, W: Sink>(disk: D, source: R, sink: W) -> Outcome<D, R, W>
    ensures scrub { IsScrub D.state W.state (outside_of disk source sink) result }
    ensures memory { result.status ≢ Status.NoMemory }
    ensures outside { KeepsOutside result.status (D.state disk)
        (D.state result.disk) (R.state source)
        (R.state result.source) (W.state sink) (W.state result.sink) }
{
    let mut sink = sink;
    let (disk, scrubbed) = scrub(disk);
    let status = print_report(&mut sink, scrubbed);
    Outcome {
        status,
        done: status.done_of_verdict(),
        disk,
        source,
        sink,
    }
}
