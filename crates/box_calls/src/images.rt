//! `compare` of two images: tells how the second differs from the first.

ghost use Rattle.std.specs.Prelude.{◌≡◌, false, Err};
ghost use Rattle.dump_streams.specs.Gathered.{gathered_state, IsFlushed};
ghost use Rattle.box_calls.specs.Comparisons as model;
ghost use Rattle.box_calls.specs.Comparisons.{same_parameters, images_trouble, images_found};
ghost use Rattle.box_calls.specs.Comparisons.{tells_parameters, ComparesImages};
ghost use Rattle.box_calls.specs.Endings.{IsTold, Says, SaysIf, Ends};
ghost use Rattle.box_calls.specs.Marks.{PrintsFound};

use crate::marks::{MarkForm, print_marks};
use crate::place::{Compared, Place};
use crate::reads::unread;
use crate::saying::{say, say_no_memory};
use crate::telling::{About, ended, ended_of_other};
use crate::trouble::Trouble;
use box_words::{Message, Status};
use disk_model::Disk;
use dump_streams::GatheredSink;
use image_differences::{ImageDifferences, ImagesCompared, ImagesFault, compare_images};
use script_lines::Sink;
use std::alloc::{AllocError, Global};
use store_base::{Params, version_byte};

/// Whether two images have the same parameters.
fn same_parameters(first: &Params, second: &Params) -> bool
    ensures { result ≡ same_parameters first.now second.now }
{
    version_byte(first.version()) == version_byte(second.version())
        && first.slots() == second.slots()
        && first.height() == second.height()
        && first.kind() == second.kind()
        && first.seed() == second.seed()
}

/// The names of the parameters that differ, one after another.
fn differing(alloc: Global, first: &Params, second: &Params) -> Result<String, AllocError> {
    let differ = [
        ("version", first.version() != second.version()),
        ("slots", first.slots() != second.slots()),
        ("height", first.height() != second.height()),
        ("draw", first.kind() != second.kind()),
        ("seed", first.seed() != second.seed()),
    ];
    let mut names = String::new(alloc);
    for (name, differs) in differ {
        if differs {
            if !names.is_empty() {
                names.push_str(", ")?;
            }
            names.push_str(name)?;
        }
    }
    Ok(names)
}

/// Says which parameters of two images differ.
fn say_differing<E: Sink>(place: &Place<'_>, first: &Params, second: &Params, sink: &mut E)
    ensures { Says (E.state sink.old) (E.state sink.new) }
{
    let Ok(names) = differing(place.alloc, first, second) else {
        return say_no_memory(sink);
    };
    let Ok(wrong) = format!(in place.alloc; "the images differ in {names}") else {
        return say_no_memory(sink);
    };
    let message = Message {
        things: &[place.image, place.file],
        wrong: wrong.as_str(),
        advice: "hbox info prints what each has",
    };
    say(place.alloc, &message, sink);
}

/// Says which parameters of two images differ that were compared, if some do.
fn say_parameters<E: Sink>(
    place: &Place<'_>,
    found: &Result<ImageDifferences, ImagesFault>,
    sink: &mut E,
)
    ensures { SaysIf (tells_parameters found.now) (E.state sink.old) (E.state sink.new) }
{
    if let Ok(found) = found
        && !same_parameters(&found.first, &found.second)
    {
        say_differing(place, &found.first, &found.second, sink);
    }
}

/// Says why two images were not compared, and answers how the call ends.
fn end_uncompared<E: Sink>(place: &Place<'_>, fault: ImagesFault, say: &mut E) -> Status
    ensures { Ends (Err (images_trouble fault)) result (E.state say.old) (E.state say.new) }
{
    match fault {
        ImagesFault::First(fault) => ended(place, Err(unread(fault)), About::Image, say),
        ImagesFault::Second(fault) => ended_of_other(place, unread(fault), say),
        ImagesFault::Changed => ended(place, Err(Trouble::Changed), About::Image, say),
        ImagesFault::NoMemory => ended(place, Err(Trouble::NoMemory), About::Image, say),
    }
}

/// How a comparison of two images ends that came to this, once its lines are put.
fn end_images<W: Sink, E: Sink>(
    place: &Place<'_>,
    form: MarkForm,
    found: &Result<ImageDifferences, ImagesFault>,
    out: &mut GatheredSink<W>,
    say: &mut E,
) -> Status
    ensures prints { PrintsFound form false (images_found found.now) (gathered_state W.state out.old)
        (gathered_state W.state out.new) (E.state say.old) (E.state say.new) result }
    ensures flushed { IsTold result → IsFlushed W.state out.new }
{
    match found {
        Ok(found) => print_marks(place, form, false, found.trees.paths(), out, say),
        Err(fault) => end_uncompared(place, *fault, say),
    }
}

/// Puts a line into the first sink for each path at which two images differ, in all that they hold, and says in which
/// parameters they do. It ends with `Done` where no path differs.
pub fn compare_with_image<D: Disk, F: Disk, W: Sink, E: Sink>(
    place: &Place<'_>,
    form: MarkForm,
    disks: (D, F),
    out: GatheredSink<W>,
    say: E,
) -> Compared<D, F, GatheredSink<W>, E>
    ensures compares { ComparesImages form (D.state disks.0) (D.state result.first) (F.state disks.1)
        (F.state result.second) (gathered_state W.state out) (gathered_state W.state result.out)
        (E.state say) (E.state result.say) result.status }
    ensures flushed { IsTold result.status → IsFlushed W.state result.out }
{
    let (mut out, mut say) = (out, say);
    let ImagesCompared {
        first,
        second,
        found,
    } = compare_images(place.alloc, disks.0, disks.1);
    say_parameters(place, &found, &mut say);
    let status = end_images(place, form, &found, &mut out, &mut say);
    Compared {
        status,
        first,
        second,
        out,
        say,
    }
}
