//! `pack`: prints the listing of a folder.

ghost use Rattle.std.specs.Prelude.{◌≡◌};
ghost use Rattle.dump_streams.specs.Gathered.{gathered_state, IsFlushed};
ghost use Rattle.box_calls.specs.Comparisons.{is_refused};
ghost use Rattle.box_calls.specs.Endings.{IsTold};
ghost use Rattle.box_calls.specs.Packings as model;
ghost use Rattle.box_calls.specs.Packings.{BreaksOff, Packs, packed_trouble};

use crate::check::printed;
use crate::folders::{Packed, is_refused};
use crate::making::end_part;
use crate::place::{Listed, Place};
use crate::telling::{About, ended};
use crate::trouble::Trouble;
use dump_streams::{DrainFault, GatheredSink, StreamFault, TakerFault};
use host_folders::{self, Folder, FolderStream};
use script_lines::Sink;

/// The line that ends a listing which is not whole. It is no command, so nothing takes such a listing. Where nothing is
/// packed it is the one line, since no line at all is the listing of an empty folder.
const BROKEN_OFF: &[u8] = b"broken off\n";

/// The trouble of a folder whose steps ended so. What cannot be read was said already.
fn stream_trouble(fault: StreamFault) -> Trouble
    ensures { result ≡ model.stream_trouble fault }
{
    match fault {
        StreamFault::NoMemory => Trouble::NoMemory,
        StreamFault::Unreadable => Trouble::Host,
        StreamFault::NoDump => Trouble::Moving,
        StreamFault::TooLong => Trouble::TooMuch,
    }
}

/// What the writing of a listing came to that ended so.
fn packed_trouble(written: &Result<(), DrainFault>) -> Result<(), Trouble>
    ensures { result ≡ packed_trouble written.now }
{
    match written {
        Ok(()) => Ok(()),
        Err(DrainFault::Stream(fault)) => Err(stream_trouble(*fault)),
        Err(DrainFault::Taker(TakerFault::NoMemory)) => Err(Trouble::NoMemory),
        Err(DrainFault::Taker(TakerFault::Failed)) => Err(Trouble::Output),
    }
}

/// What stands behind the lines of a listing that was written so.
fn ending_of(written: &Result<(), DrainFault>) -> &'static [u8]
    ensures { result.now ≡ model.ending_of written.now }
{
    match written {
        Ok(()) => &[],
        Err(_) => BROKEN_OFF,
    }
}

/// Ends a listing with the line which says that it is not whole, as far as the sink takes it.
pub fn break_off<W: Sink>(out: &mut GatheredSink<W>)
    ensures { BreaksOff (gathered_state W.state out.old) (gathered_state W.state out.new) }
{
    let _ = out.put(BROKEN_OFF);
    let _ = out.flush();
}

/// Puts the listing of a folder into the first sink, of what was found there. With each status but `Done` and `Differs`
/// the line `broken off` ends it, if the sink takes that. Where obstacles are not skipped it is the one line.
pub fn pack_listing<F: Folder, W: Sink, E: Sink>(
    place: &Place<'_>,
    packed: Packed<F>,
    out: GatheredSink<W>,
    say: E,
) -> Listed<FolderStream<F>, GatheredSink<W>, E>
    ensures packs { Packs (is_refused packed.taken.skip packed.left_out) F.state W.state packed.left_out
        packed.found.items packed.folder result.stream out result.out (E.state say) (E.state result.say)
        result.status }
    ensures flushed { IsTold result.status → IsFlushed W.state result.out }
{
    let (mut out, mut say) = (out, say);
    let Packed {
        folder,
        found,
        left_out,
        taken,
    } = packed;
    if is_refused(taken.skip, left_out) {
        break_off(&mut out);
        let trouble = Err(Trouble::Obstacles);
        let status = ended(place, trouble, About::Number(left_out), &mut say);
        let stream = FolderStream::new(folder, found);
        return Listed {
            status,
            stream,
            out,
            say,
        };
    }
    let (stream, mut out, written) = host_folders::pack_folder(folder, found, out);
    let put = out.put(ending_of(&written));
    let flushed = out.flush();
    let done = printed(packed_trouble(&written), put, flushed);
    let path = stream.path();
    let about = path.as_ref().map_or(About::Image, About::Path);
    let status = end_part(place, done, left_out, about, &mut say);
    Listed {
        status,
        stream,
        out,
        say,
    }
}
