//! `ls`: lists what stands in an image.

ghost use Rattle.std.specs.Prelude.{◌≡◌};
ghost use Rattle.dump_streams.specs.Gathered.{gathered_state, IsFlushed};
ghost use Rattle.box_words.specs.declared.status.Status.TheVariants as statuses;
ghost use Rattle.box_calls.specs.Listings.{listed, Lists};

use crate::place::{Ended, Place};
use crate::reads::unread;
use crate::telling::{About, ended};
use crate::trouble::Trouble;
use disk_model::Disk;
use dump_streams::GatheredSink;
use dump_views::Standing;
use entry_lines::ListForm;
use image_reads::{Listed, ReadFault, list_image};
use path_keys::Path;
use script_lines::{Sink, SinkFault};

/// What a list came to that ended so, and whose last lines were put so.
fn listed(found: Result<Standing, ReadFault>, flushed: Result<(), SinkFault>) -> Result<(), Trouble>
    ensures { result ≡ listed found flushed }
{
    match (found, flushed) {
        (Err(fault), _) => Err(unread(fault)),
        (Ok(Standing::Nothing), _) => Err(Trouble::Nothing),
        (Ok(_), Err(SinkFault)) => Err(Trouble::Output),
        (Ok(_), Ok(())) => Ok(()),
    }
}

/// Puts the lines of what stands at a path of an image into the first sink, in this form.
pub fn list_path<D: Disk, W: Sink, E: Sink>(
    place: &Place<'_>,
    disk: D,
    path: &Path,
    form: ListForm,
    out: GatheredSink<W>,
    say: E,
) -> Ended<D, GatheredSink<W>, E>
    ensures lists { Lists path.now form (D.state disk) (D.state result.disk)
        (gathered_state W.state out) (gathered_state W.state result.out) (E.state say)
        (E.state result.say) result.status }
    ensures flushed { result.status ≡ statuses.Done → IsFlushed W.state result.out }
{
    let Listed { disk, sink, found } = list_image(place.alloc, disk, path, form, out);
    let (mut out, mut say) = (sink, say);
    let flushed = out.flush();
    let status = ended(place, listed(found, flushed), About::Path(path), &mut say);
    Ended {
        status,
        disk,
        out,
        say,
    }
}
