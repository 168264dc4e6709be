//! A mirror: one image is made equal to another.

ghost use Rattle.std.specs.Prelude.{◌≡◌, ◌++◌, codes};
ghost use Rattle.std.specs.Fmt.{decimal};
ghost use Rattle.image_subcommands.specs.MirrorCall.{mirror_text, IsMirror, PrintsCount, pair_of};

use crate::status::Status;
use disk_model::Disk;
use mirror_copy::{MirrorFault, mirror};
use script_lines::{Sink, Text};
use std::alloc::Global;

/// What a mirror answers, with the disks and the sink that it was given.
#[derive(Drop)]
pub struct PairOutcome<A, B, W> {
    /// How it ended.
    pub status: Status,
    /// 1 where the second image is the first, also where that could not be printed; else 0.
    pub done: u64,
    /// The disk that was only read.
    pub from: A,
    /// The disk that was to become equal to it.
    pub to: B,
    /// The sink.
    pub sink: W,
}

/// The line of a mirror, ended by LF. It takes no memory.
#[tactic(auto, unfolding(crate::specs::MirrorCall::mirror_text))]
fn mirror_line(count: u32) -> Text
    ensures { result ≡ mirror_text count }
{
    let mut line = Text::new();
    line.push(b"mirror ");
    line.push_number(count);
    line.push(b"\n");
    line
}

/// Prints the line of a mirror, in one put, and answers how the call ends; for a fault that came in place of a mirror
/// nothing is printed. It takes no memory.
fn print_mirror<W: Sink>(sink: &mut W, mirrored: Result<u32, MirrorFault>) -> Status
    ensures { PrintsCount W.state mirrored sink.old sink.new result }
{
    let count = match mirrored {
        Ok(count) => count,
        Err(fault) => return fault.into(),
    };
    match sink.put(mirror_line(count).as_slice()) {
        Ok(()) => Status::Done,
        Err(fault) => fault.into(),
    }
}

/// Makes the image of the second disk what recovery leaves of that of the first, and prints the line `mirror D`, where
/// D is the number of slots that differed. The first disk is only read. `mirror_copy` says what stands after each
/// end.
pub fn top_pair<A: Disk, B: Disk, W: Sink>(
    alloc: Global,
    from: A,
    to: B,
    sink: W,
) -> PairOutcome<A, B, W>
    ensures { IsMirror A.state B.state W.state (pair_of from to sink) result }
{
    let mut sink = sink;
    let (from, to, mirrored) = mirror(alloc, from, to);
    let status = print_mirror(&mut sink, mirrored);
    PairOutcome {
        status,
        done: status.done_of_mirror(),
        from,
        to,
        sink,
    }
}
