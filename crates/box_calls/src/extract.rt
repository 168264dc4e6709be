//! `extract`: makes a folder of an image, or of some of its paths.

ghost use Rattle.std.specs.Prelude.{◌≡◌, false};
ghost use Rattle.box_calls.specs.Extractions.{extract_trouble, host_trouble, ExtractsPaths};
ghost use Rattle.box_calls.specs.Makings as model;

use crate::counted::CountedBuilder;
use crate::making::end_made;
use crate::place::{Made, Place};
use crate::reads::unread;
use crate::telling::About;
use crate::trouble::Trouble;
use crate::wanted::wanted_of;
use box_words::Taken;
use disk_model::Disk;
use host_builder::Builder;
use image_extract::{ExtractFault, Extracted, extract};
use image_reads::ReadFault;
use path_keys::Path;
use script_lines::Sink;

/// The trouble that a fault of reading is, where what is read goes to a builder, which says itself what failed.
fn host_trouble(fault: ReadFault) -> Trouble
    ensures { result ≡ host_trouble fault }
{
    match fault {
        ReadFault::Output => Trouble::Host,
        fault => unread(fault),
    }
}

/// What an extraction came to that ended so. The builder was told of a path that no host can have.
fn extract_trouble(done: &Result<(), ExtractFault>) -> Result<(), Trouble>
    ensures { result ≡ extract_trouble done.now }
{
    match done {
        Ok(()) => Ok(()),
        Err(ExtractFault::Missing(_)) => Err(Trouble::Nothing),
        Err(ExtractFault::NoName(_)) => Err(Trouble::Host),
        Err(ExtractFault::Read(fault)) => Err(host_trouble(*fault)),
    }
}

/// What the trouble of an extraction is about that ended so.
fn about_of<'a>(done: &Result<(), ExtractFault>, paths: &'a [Path]) -> About<'a> {
    match done {
        Err(ExtractFault::Missing(number)) => match paths.get(*number) {
            Some(path) => About::Path(path),
            None => About::Image,
        },
        _ => About::Image,
    }
}

/// Makes the folder of an image, or of these paths with all below them, by a builder that made no link. After each
/// trouble the builder took away what it made.
pub fn extract_paths<D: Disk, B: Builder, E: Sink>(
    place: &Place<'_>,
    disk: D,
    builder: B,
    taken: Taken,
    paths: &[Path],
    say: E,
) -> Made<D, B, E>
    requires { (B.state builder).has_links ≡ false }
    ensures extracts { ExtractsPaths place.now.sums_up (model.wanted_of taken) paths.now (D.state disk)
        (D.state result.from) (B.state builder) (B.state result.builder) (E.state say)
        (E.state result.say) result.status }
{
    let counted = CountedBuilder::new(builder);
    let Extracted {
        disk,
        builder: counted,
        stays: _,
        done,
    } = extract(place.alloc, disk, counted, wanted_of(taken), paths);
    let (builder, counts) = counted.into_parts();
    let mut say = say;
    let trouble = extract_trouble(&done);
    let status = end_made(place, trouble, &counts, about_of(&done, paths), &mut say);
    Made {
        status,
        from: disk,
        builder,
        say,
    }
}
