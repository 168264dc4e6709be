//! `extract` and `unpack`: the folder that is made.

ghost use Rattle.std.specs.Prelude.{◌≡◌, false, IfOk};

use crate::image::open;
use crate::output::say;
use crate::progress::WatchedReader;
use crate::report::Reports;
use crate::subcommands::path_of;
use crate::trouble::{Thing, cause, no_memory, unopened};
use box_calls::{Place, extract_paths, unpack_listing};
use box_words::{Common, Status, Taken};
use dump_streams::ListingStream;
use host_files::{HostBuilder, NoFolder};
use path_keys::Path;
use script_lines::StdSource;
use std::fs;
use std::io::{ErrorKind, Stdin};
use store_base::Version;

/// A folder that is made.
type Folder<'a> = HostBuilder<Reports<'a>>;

/// The paths of an image that words are.
pub fn paths_of(rt: HostRuntime, place: &Place<'_>, words: &[&str]) -> Result<Vec<Path>, Status> {
    let mut paths = Vec::new(rt.alloc());
    for word in words {
        let path = path_of(rt, place.image, word, place.spelling)?;
        if paths.push(path).is_err() {
            return Err(no_memory(rt, &Thing::File(place.image)));
        }
    }
    Ok(paths)
}

/// Looks whether a folder may be made at a path: nothing stands there, or a folder. Else it says what to do.
fn look_at(rt: HostRuntime, folder: &str, advice: &str) -> Result<(), Status> {
    match fs::metadata(&rt, folder) {
        Ok(found) if found.is_dir() => Ok(()),
        Ok(_) => Err(unopened(rt, folder, "it is not a folder", advice)),
        Err(error) if error.kind() == ErrorKind::NotFound => Ok(()),
        Err(error) => Err(unopened(rt, folder, cause(&error), advice)),
    }
}

/// Makes the folder in which a tree is made, or takes it where it is there and empty.
fn begin<'a>(
    rt: HostRuntime,
    place: &Place<'a>,
    taken: Taken,
    common: &Common,
) -> Result<Folder<'a>, Status>
    ensures links { IfOk result (λ folder. folder.counts.has_links ≡ false) }
{
    let Ok(name) = String::from_str(rt.alloc(), place.file) else {
        return Err(no_memory(rt, &Thing::File(place.file)));
    };
    match HostBuilder::new(rt, name, Reports::new(rt, place, taken, common)) {
        Ok(folder) => Ok(folder),
        Err(NoFolder::NotEmpty) => Err(Status::Path),
        Err(NoFolder::NotMade) => Err(Status::NotOpened),
    }
}

/// Ends the folder in which a tree was made by a call that ended so: where it failed, and nothing was made in the
/// folder, this goes too.
fn end(folder: Folder<'_>, status: Status) -> Status {
    let mut folder = folder;
    match status {
        Status::Done | Status::Differs => {}
        _ => folder.abandon(),
    }
    status
}

/// Makes the folder of an image, or of some of its paths.
pub fn extract(
    rt: HostRuntime,
    place: &Place<'_>,
    common: &Common,
    words: &[&str],
    taken: Taken,
) -> Result<Status, Status> {
    let paths = paths_of(rt, place, words)?;
    let image = open(rt, place.image, common, 2)?;
    look_at(
        rt,
        place.file,
        "give a DIR that is absent, or an empty folder",
    )?;
    let folder = begin(rt, place, taken, common)?;
    let mut made = extract_paths(place, image.disk, folder, taken, paths.as_slice(), say(rt));
    made.from.finish();
    Ok(end(made.builder, made.status))
}

/// The listing on standard input, of either version: version 2 allows all that version 1 does.
fn listing(
    rt: HostRuntime,
    place: &Place<'_>,
    common: &Common,
) -> Result<ListingStream<StdSource<WatchedReader<Stdin>>>, Status> {
    let reader = WatchedReader::new(rt, rt.stdin(), common.quiet);
    match ListingStream::new(rt.alloc(), StdSource::new(reader), Version::Two) {
        Ok(listing) => Ok(listing),
        Err(_) => Err(no_memory(rt, &Thing::File(place.image))),
    }
}

/// Makes the folder of the listing on standard input.
pub fn unpack(
    rt: HostRuntime,
    place: &Place<'_>,
    common: &Common,
    taken: Taken,
) -> Result<Status, Status> {
    let advice = "give a DIR that is absent or empty; hbox extract IMAGE DIR extracts an image";
    look_at(rt, place.file, advice)?;
    let listing = listing(rt, place, common)?;
    let folder = begin(rt, place, taken, common)?;
    let made = unpack_listing(place, listing, folder, taken, say(rt));
    made.from.into_source().into_inner().finish();
    Ok(end(made.builder, made.status))
}
