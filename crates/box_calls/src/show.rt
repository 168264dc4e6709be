//! `create --dry-run`: prints what the image would be.

ghost use Rattle.dump_streams.specs.Gathered.{gathered_state, IsFlushed};
ghost use Rattle.box_calls.specs.Endings.{IsTold};
ghost use Rattle.box_calls.specs.Creations.{PrintsPlan};

use crate::check::printed;
use crate::lines::info_text;
use crate::making::end_part;
use crate::place::{Place, Printed};
use crate::telling::About;
use dump_streams::GatheredSink;
use image_check::Contents;
use script_lines::Sink;

/// Puts into the first sink what `info` prints of an image that holds this, of a folder of which so many entries are
/// left out.
pub fn print_plan<W: Sink, E: Sink>(
    place: &Place<'_>,
    contents: &Contents,
    left_out: u64,
    out: GatheredSink<W>,
    say: E,
) -> Printed<GatheredSink<W>, E>
    ensures prints { PrintsPlan contents.now left_out (gathered_state W.state out)
        (gathered_state W.state result.out) (E.state say) (E.state result.say) result.status }
    ensures flushed { IsTold result.status → IsFlushed W.state result.out }
{
    let (mut out, mut say) = (out, say);
    let put = out.put(info_text(contents).as_slice());
    let flushed = out.flush();
    let done = printed(Ok(()), put, flushed);
    let status = end_part(place, done, left_out, About::Image, &mut say);
    Printed { status, out, say }
}
