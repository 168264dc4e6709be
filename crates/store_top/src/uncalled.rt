//! Calls that end before anything is called.

ghost use Rattle.std.specs.Prelude.{◌≡◌};
ghost use Rattle.store_model.specs.Words.{Request};
ghost use Rattle.image_subcommands.specs.Outside.{KeepsOutside, CallsNothing, outside_of};
ghost use Rattle.store_top.specs.Performing.{Performs};

use disk_model::Disk;
use image_subcommands::{Outcome, Status};
use script_lines::{Sink, Source};

/// The words are not well formed.
pub(crate) fn usage<D: Disk, R: Source, W: Sink>(disk: D, source: R, sink: W) -> Outcome<D, R, W>
    ensures ends { result.status ≡ Status.Usage }
    ensures nothing { CallsNothing (outside_of disk source sink) result }
    ensures outside { KeepsOutside result.status (D.state disk)
        (D.state result.disk) (R.state source)
        (R.state result.source) (W.state sink) (W.state result.sink) }
{
    Outcome::idle(Status::Usage, disk, source, sink)
}

/// Memory ran out while the words were read. That is how every subcommand may end.
pub(crate) fn no_memory<D: Disk, R: Source, W: Sink>(
    disk: D,
    source: R,
    sink: W,
) -> Outcome<D, R, W>
    ensures ends { result.status ≡ Status.NoMemory }
    ensures nothing { CallsNothing (outside_of disk source sink) result }
    ensures outside { KeepsOutside result.status (D.state disk)
        (D.state result.disk) (R.state source)
        (R.state result.source) (W.state sink) (W.state result.sink) }
    ensures performs { (request : Request)
        → Performs D.state R.state W.state request (outside_of disk source sink) result }
{
    Outcome::idle(Status::NoMemory, disk, source, sink)
}
