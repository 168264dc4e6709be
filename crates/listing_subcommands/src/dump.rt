//! The subcommand `dump`: puts out the commands that make the tree of an image.

ghost use Rattle.std.specs.Prelude.{◌≡◌, Option, None, OnOk, false};
ghost use Rattle.store_model.specs.Trees.{empty_tree};
ghost use Rattle.dump_streams.specs.Dumps.{dump_text};
ghost use Rattle.dump_streams.specs.Gathered.{gathers_none, IsFlushed};
ghost use Rattle.dump_streams.specs.GatheredLines.{lines_state};
ghost use Rattle.disk_model.specs.DiskState as disks;
ghost use Rattle.script_lines.specs.SinkState.{PutsBytes};
ghost use Rattle.script_lines.specs.SinkState as sinks;
ghost use Rattle.store_stream.specs.StoreStreams.{CameOf};
ghost use Rattle.image_subcommands.specs.Outside.{KeepsOutside, outside_of};
ghost use Rattle.listing_subcommands.specs.DumpCall.{IsDump};
ghost use Rattle.listing_subcommands.specs.Dumping.{KeepsStore, line_ended, read_ended};

use disk_model::Disk;
use dump_streams::{DrainFault, GatheredLines, TakerFault, drain};
use image_check::AttachFault;
use image_subcommands::{Outcome, Status, ended_status};
use image_work::{StoreWork, open_for};
use script_lines::{Sink, Source};
use std::alloc::Global;
use store_core::{ApplyFault, Store};
use store_stream::StoreStream;

/// The work of `dump`, which gathered nothing yet.
#[derive(Drop)]
struct DumpWork<R: Source, W: Sink> {
    source: R,
    lines: GatheredLines<W>,
    ghost none: { lines.gathered ≡ gathers_none lines.gathered.sink },
}

impl<R: Source, W: Sink> StoreWork for DumpWork<R, W> {
    ghost use Rattle.image_subcommands.specs.Statuses.{Subcommand as words};
    ghost use Rattle.listing_subcommands.specs.DumpCall.{KeepsDump, DumpsAt};

    type Reads = R;

    type Writes = W;

    ghost word = { λ work. words.Dump };

    ghost given = { λ work. (work.source, work.lines.gathered.sink) };

    ghost keeps = { λ D disk_of work. KeepsDump };

    ghost does = { λ D disk_of work. DumpsAt disk_of W.state };

    /// Puts out the dump of the tree.
    fn work<D: Disk>(self, store: Store<D>) -> Outcome<D, R, W> {
        let DumpWork { source, lines } = self;
        let (mut stream, mut lines) = (StoreStream::new(store), lines);
        let status = ended_status(put_dump(&mut stream, &mut lines));
        Outcome {
            status,
            done: status.done_of_work(),
            disk: stream.into_store().into_disk(),
            source,
            sink: lines.into_sink(),
        }
    }

    fn give_up<D: Disk>(self, fault: AttachFault, disk: D) -> Outcome<D, R, W> {
        let DumpWork { source, lines } = self;
        Outcome::idle(fault.into(), disk, source, lines.into_sink())
    }
}

/// Puts out the dump of an image's tree: the commands that make it, in the order of paths, a line each. Nobody waits
/// for one of the lines, so they go out in large pieces: whoever reads them from a pipe is not woken for each. Where
/// memory or the disk ends the call, the last lines are not put out. It takes no memory but that of the lines, before
/// the image is opened, and the store's.
pub fn dump_image<D: Disk, R: Source, W: Sink>(
    alloc: Global,
    disk: D,
    source: R,
    sink: W,
) -> Outcome<D, R, W>
    ensures dump { IsDump D.state W.state (outside_of disk source sink) result }
    ensures outside { KeepsOutside result.status (D.state disk)
        (D.state result.disk) (R.state source)
        (R.state result.source) (W.state sink) (W.state result.sink) }
{
    let lines = match GatheredLines::new(alloc, sink) {
        Ok(lines) => lines,
        Err((_, sink)) => return Outcome::idle(Status::NoMemory, disk, source, sink),
    };
    open_for(alloc, disk, DumpWork { source, lines })
}

/// Writes the dump of a store's tree, from which no step came yet, and puts out the lines that are held at its end.
fn put_dump<D: Disk, W: Sink>(
    stream: &mut StoreStream<D>,
    lines: &mut GatheredLines<W>,
) -> Result<(), Status>
    requires came { CameOf D.state stream.old empty_tree }
    requires runs { stream.old.store.is_stopped ≡ false }
    ensures kept { KeepsStore D.state stream.old.store stream.new.store
        (lines_state W.state lines.old) (lines_state W.state lines.new) result }
    ensures same { lines.new.gathered.first ≡ lines.old.gathered.first }
    ensures puts { disks.IsObservable (D.state stream.old.store.disk)
        → sinks.IsObservable (lines_state W.state lines.old)
        → PutsBytes (lines_state W.state lines.old) (lines_state W.state lines.new)
        (dump_text stream.old.store.tree) result }
    ensures flushed { OnOk result (IsFlushed W.state lines.new.gathered) }
{
    match drain(stream, lines) {
        Ok(()) => gathered_so(lines.flush()),
        Err(DrainFault::Taker(fault)) => gathered_so(Err(fault)),
        Err(DrainFault::Stream(_)) => Err(read_so(stream.fault())),
    }
}

/// How gathered lines end a dump.
fn gathered_so(put: Result<(), TakerFault>) -> Result<(), Status>
    ensures { result ≡ line_ended put }
{
    match put {
        Ok(()) => Ok(()),
        Err(TakerFault::NoMemory) => Err(Status::NoMemory),
        Err(TakerFault::Failed) => Err(Status::SinkFault),
    }
}

/// How a store that gives no more pairs ends a dump. A disk that gave pairs of no store, which none does that tells its
/// bytes, ends it as want of memory does: the dump is not whole, and no call of the disk failed.
fn read_so(fault: Option<ApplyFault>) -> Status
    ensures { result ≡ read_ended fault }
{
    match fault {
        Some(fault) => fault.into(),
        None => Status::NoMemory,
    }
}
