//! The whole program as one call.

ghost use Rattle.std.specs.Prelude.{◌≡◌, ◌≢◌, ◌⊎◌, Some, None};
ghost use Rattle.store_model.specs.Words as requests;
ghost use Rattle.store_model.specs.Words.{request_of};
ghost use Rattle.store_model.specs.Words.Request.{Check, Scrub};
ghost use Rattle.image_subcommands.specs.Outside.{KeepsOutside, CallsNothing, outside_of};
ghost use Rattle.command_line.specs.Requests.{request_seen};
ghost use Rattle.store_top.specs.Performing.{Performs};

use crate::uncalled::{no_memory, usage};
use crate::upgrade::upgrade;
use command_line::{Request, Words};
use disk_model::Disk;
use image_subcommands::{Outcome, Status, check_disk, format_disk, scrub_disk, wipe_disk};
use listing_subcommands::{dump_image, load_image};
use script_lines::{Sink, Source};
use script_runs::{big_image, run_image, session_image};
use std::alloc::Global;
use store_base::NoMemory;

/// Carries out the words of a command line on a disk. `format` and `format2` make the image of the empty tree, of
/// version 1 and 2. `run` answers the script that the source has, and writes the replies to the sink. `session` does
/// so with a script of calls on sessions. `check` prints a line that tells what the disk holds. `scrub` recovers the
/// image, makes its free slots zero and prints such a line. `wipe` makes every byte zero. `upgrade` makes the image
/// one of version 2. `dump` prints the commands that make the tree of the image. `load` makes the tree of such a
/// listing in an empty image. `big` carries out the commands that a number gives, and prints four lines that sum them
/// up.
///
/// Words that are not well formed end with `Usage`, and nothing is called. Nor is anything called where memory runs
/// out while the words are read. What each subcommand promises is one record: how it ends, which status comes exactly
/// where, and what stands then of the disk, the source and the sink.
pub fn top<D: Disk, R: Source, W: Sink>(
    alloc: Global,
    words: &Words,
    disk: D,
    source: R,
    sink: W,
) -> Outcome<D, R, W>
    // The words.
    ensures usage { result.status ≡ Status.Usage → request_of words.now ≡ None }
    ensures unserved { request_of words.now ≡ None
        → (result.status ≡ Status.Usage) ⊎ (result.status ≡ Status.NoMemory) }
    ensures uncalled { request_of words.now ≡ None
        → CallsNothing (outside_of disk source sink) result }

    // The disk, the source and the sink: a second call can follow on this one, and each failed call is the status.
    ensures outside { KeepsOutside result.status (D.state disk)
        (D.state result.disk) (R.state source)
        (R.state result.source) (W.state sink) (W.state result.sink) }

    // What is asked for.
    ensures performs { (request : requests.Request) → request_of words.now ≡ Some request
        → Performs D.state R.state W.state request (outside_of disk source sink) result }
{
    match words.request() {
        Ok(Some(request)) => serve_request(alloc, request, disk, source, sink),
        Ok(None) => usage(disk, source, sink),
        Err(NoMemory) => no_memory(disk, source, sink),
    }
}

/// Carries out what the words ask for. A check and a scrub take no memory, so neither ends for want of it.
fn serve_request<D: Disk, R: Source, W: Sink>(
    alloc: Global,
    request: Request,
    disk: D,
    source: R,
    sink: W,
) -> Outcome<D, R, W>
    ensures served { result.status ≢ Status.Usage }
    ensures check_memory { request_seen request ≡ Check → result.status ≢ Status.NoMemory }
    ensures scrub_memory { request_seen request ≡ Scrub → result.status ≢ Status.NoMemory }
    ensures outside { KeepsOutside result.status (D.state disk)
        (D.state result.disk) (R.state source)
        (R.state result.source) (W.state sink) (W.state result.sink) }
    ensures performs { Performs D.state R.state W.state (request_seen request)
        (outside_of disk source sink) result }
{
    match request {
        Request::Format(params) => format_disk(&params, disk, source, sink),
        Request::Run => run_image(alloc, disk, source, sink),
        Request::Session => session_image(alloc, disk, source, sink),
        Request::Check => check_disk(disk, source, sink),
        Request::Scrub => scrub_disk(disk, source, sink),
        Request::Wipe => wipe_disk(disk, source, sink),
        Request::Upgrade => upgrade(alloc, disk, source, sink),
        Request::Dump => dump_image(alloc, disk, source, sink),
        Request::Load => load_image(alloc, disk, source, sink),
        Request::Big(number, count) => big_image(alloc, number, count, disk, source, sink),
    }
}
