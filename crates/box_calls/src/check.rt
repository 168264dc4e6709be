//! `check`: tells whether an image is sound.

ghost use Rattle.std.specs.Prelude.{◌≡◌};
ghost use Rattle.dump_streams.specs.Gathered.{gathered_state, IsFlushed};
ghost use Rattle.box_words.specs.declared.status.Status.TheVariants as statuses;
ghost use Rattle.box_calls.specs.Checks as model;
ghost use Rattle.box_calls.specs.Checks.{Prints};

use crate::lines::{fault_text, sound_text};
use crate::place::{Ended, Place};
use crate::telling::{About, ended};
use crate::trouble::{Trouble, unsummed};
use disk_model::Disk;
use dump_streams::GatheredSink;
use image_summary::{Summary, SummaryFault, sum_up};
use script_lines::{Sink, SinkFault, Text};

/// Whether a digest differs from the one that was given, if one was.
fn differs_from(given: Option<[u8; 32]>, digest: &[u8; 32]) -> bool
    ensures { result ≡ model.differs_from given digest.now }
{
    match given {
        Some(given) => given != *digest,
        None => false,
    }
}

/// What `check` prints.
fn check_text(given: Option<[u8; 32]>, found: &Result<Summary, SummaryFault>) -> Text
    ensures { result ≡ model.check_text given found.now }
{
    match found {
        Ok(summary) => sound_text(summary, differs_from(given, &summary.digest)),
        Err(fault) => fault_text(*fault),
    }
}

/// What a check comes to that finds this, where all is printed.
fn check_found(
    given: Option<[u8; 32]>,
    found: &Result<Summary, SummaryFault>,
) -> Result<(), Trouble>
    ensures { result ≡ model.check_found given found.now }
{
    match found {
        Ok(summary) if differs_from(given, &summary.digest) => Err(Trouble::Digest),
        Ok(_) => Ok(()),
        Err(fault) => Err(unsummed(*fault)),
    }
}

/// What a call came to that comes to this where all is printed, and whose text was put so, and whose last bytes.
pub fn printed(
    found: Result<(), Trouble>,
    put: Result<(), SinkFault>,
    flushed: Result<(), SinkFault>,
) -> Result<(), Trouble>
    ensures { result ≡ model.printed found put flushed }
{
    match (put, flushed) {
        (Err(SinkFault), _) | (Ok(()), Err(SinkFault)) => Err(Trouble::Output),
        (Ok(()), Ok(())) => found,
    }
}

/// Puts into the first sink whether an image is sound, as recovery would leave it, what it holds, and its digest. It is
/// compared with the one that is given, if one is.
pub fn check_image<D: Disk, W: Sink, E: Sink>(
    place: &Place<'_>,
    disk: D,
    given: Option<[u8; 32]>,
    out: GatheredSink<W>,
    say: E,
) -> Ended<D, GatheredSink<W>, E>
    ensures checks { Prints (model.check_text given) (model.check_found given) (D.state disk)
        (D.state result.disk) (gathered_state W.state out) (gathered_state W.state result.out)
        (E.state say) (E.state result.say) result.status }
    ensures flushed { result.status ≡ statuses.Done → IsFlushed W.state result.out }
{
    let (mut out, mut say) = (out, say);
    let (disk, found) = sum_up(disk);
    let put = out.put(check_text(given, &found).as_slice());
    let flushed = out.flush();
    let done = printed(check_found(given, &found), put, flushed);
    let status = ended(place, done, About::Image, &mut say);
    Ended {
        status,
        disk,
        out,
        say,
    }
}
