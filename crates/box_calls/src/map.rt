//! `map`: draws the slots of an image.

ghost use Rattle.std.specs.Prelude.{◌≡◌};
ghost use Rattle.dump_streams.specs.Gathered.{gathered_state, IsFlushed};
ghost use Rattle.box_words.specs.declared.status.Status.TheVariants as statuses;
ghost use Rattle.box_calls.specs.Maps.{map_trouble, mapped, Maps};

use crate::place::{Ended, Place};
use crate::telling::{About, ended};
use crate::trouble::Trouble;
use disk_model::Disk;
use dump_streams::GatheredSink;
use script_lines::{Sink, SinkFault};
use slot_map::{MapFault, write_map};

/// The trouble of a picture that was not written.
fn trouble_of(fault: MapFault) -> Trouble
    ensures { result ≡ map_trouble fault }
{
    match fault {
        MapFault::NoImage => Trouble::NotImage,
        MapFault::Disk => Trouble::Disk,
        MapFault::Sink => Trouble::Output,
    }
}

/// What a picture came to that was written so, and whose last bytes were put so.
fn mapped(written: Result<(), MapFault>, flushed: Result<(), SinkFault>) -> Result<(), Trouble>
    ensures { result ≡ mapped written flushed }
{
    match (written, flushed) {
        (Ok(()), Ok(())) => Ok(()),
        (Ok(()), Err(SinkFault)) => Err(Trouble::Output),
        (Err(fault), _) => Err(trouble_of(fault)),
    }
}

/// Puts a picture of the slots of an image into the first sink.
pub fn draw_map<D: Disk, W: Sink, E: Sink>(
    place: &Place<'_>,
    disk: D,
    out: GatheredSink<W>,
    say: E,
) -> Ended<D, GatheredSink<W>, E>
    ensures maps { Maps (D.state disk) (D.state result.disk) (gathered_state W.state out)
        (gathered_state W.state result.out) (E.state say) (E.state result.say) result.status }
    ensures flushed { result.status ≡ statuses.Done → IsFlushed W.state result.out }
{
    let (mut disk, mut out, mut say) = (disk, out, say);
    let written = write_map(&mut disk, &mut out);
    let flushed = out.flush();
    let status = ended(place, mapped(written, flushed), About::Image, &mut say);
    Ended {
        status,
        disk,
        out,
        say,
    }
}
