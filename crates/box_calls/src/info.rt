//! `info`: prints the parameters of an image.

ghost use Rattle.std.specs.Prelude.{◌≡◌};
ghost use Rattle.dump_streams.specs.Gathered.{gathered_state, IsFlushed};
ghost use Rattle.box_words.specs.declared.status.Status.TheVariants as statuses;
ghost use Rattle.box_calls.specs.Checks.{Prints, info_of, info_found};

use crate::check::printed;
use crate::lines::info_text;
use crate::place::{Ended, Place};
use crate::telling::{About, ended};
use crate::trouble::{Trouble, unsummed};
use disk_model::Disk;
use dump_streams::GatheredSink;
use image_summary::{Summary, SummaryFault, sum_up};
use script_lines::{Sink, Text};

/// What `info` prints.
fn info_of(found: &Result<Summary, SummaryFault>) -> Text
    ensures { result ≡ info_of found.now }
{
    match found {
        Ok(summary) => info_text(&summary.contents),
        Err(_) => Text::new(),
    }
}

/// What `info` comes to that finds this, where all is printed.
fn info_found(found: &Result<Summary, SummaryFault>) -> Result<(), Trouble>
    ensures { result ≡ info_found found.now }
{
    match found {
        Ok(_) => Ok(()),
        Err(fault) => Err(unsummed(*fault)),
    }
}

/// Puts the parameters of an image, and what it holds, as recovery would leave it, into the first sink.
pub fn print_info<D: Disk, W: Sink, E: Sink>(
    place: &Place<'_>,
    disk: D,
    out: GatheredSink<W>,
    say: E,
) -> Ended<D, GatheredSink<W>, E>
    ensures informs { Prints info_of info_found (D.state disk) (D.state result.disk)
        (gathered_state W.state out) (gathered_state W.state result.out)
        (E.state say) (E.state result.say) result.status }
    ensures flushed { result.status ≡ statuses.Done → IsFlushed W.state result.out }
{
    let (mut out, mut say) = (out, say);
    let (disk, found) = sum_up(disk);
    let put = out.put(info_of(&found).as_slice());
    let flushed = out.flush();
    let status = ended(
        place,
        printed(info_found(&found), put, flushed),
        About::Image,
        &mut say,
    );
    Ended {
        status,
        disk,
        out,
        say,
    }
}
