//! `rm`, `mv` and `mkdir`: what is changed in an image.

use crate::extract::paths_of;
use crate::given::{given_list, names_in};
use crate::image::open_to_change;
use crate::output::say;
use crate::subcommands::path_of;
use crate::trouble::{Thing, no_memory};
use box_calls::Place;
use box_changes::{Removal, make_folders, move_path, remove_paths};
use box_words::{Common, Origin, Status};
use path_keys::Path;

/// The paths of an image that words are, and those in a list of names.
fn all_paths(
    rt: HostRuntime,
    place: &Place<'_>,
    words: &[&str],
    list: Option<Origin<'_>>,
) -> Result<Vec<Path>, Status> {
    let mut paths = paths_of(rt, place, words)?;
    let Some(origin) = list else {
        return Ok(paths);
    };
    let bytes = given_list(rt, origin)?;
    let names = names_in(rt, origin, bytes.as_slice())?;
    let more = paths_of(rt, place, names.as_slice())?;
    match paths.extend_from_slice(more.as_slice()) {
        Ok(()) => Ok(paths),
        Err(_) => Err(no_memory(rt, &Thing::File(place.image))),
    }
}

/// Takes what stands at paths out of an image.
pub fn remove(
    rt: HostRuntime,
    place: &Place<'_>,
    common: &Common,
    words: &[&str],
    list: Option<Origin<'_>>,
    removal: Removal,
) -> Result<Status, Status> {
    let paths = all_paths(rt, place, words, list)?;
    let image = open_to_change(rt, place.image, common, 1)?;
    let mut removed = remove_paths(place, image.disk, paths, removal, say(rt));
    removed.disk.finish();
    Ok(removed.status)
}

/// Moves what stands at a path of an image to another one.
pub fn move_to(
    rt: HostRuntime,
    place: &Place<'_>,
    common: &Common,
    from: &str,
    to: &str,
    forced: bool,
) -> Result<Status, Status> {
    let from = path_of(rt, place.image, from, place.spelling)?;
    let to = path_of(rt, place.image, to, place.spelling)?;
    let image = open_to_change(rt, place.image, common, 1)?;
    let mut moved = move_path(place, image.disk, &from, &to, forced, say(rt));
    moved.disk.finish();
    Ok(moved.status)
}

/// Makes folders in an image.
pub fn make(
    rt: HostRuntime,
    place: &Place<'_>,
    common: &Common,
    words: &[&str],
    has_parents: bool,
) -> Result<Status, Status> {
    let paths = paths_of(rt, place, words)?;
    let image = open_to_change(rt, place.image, common, 1)?;
    let mut made = make_folders(place, image.disk, paths, has_parents, say(rt));
    made.disk.finish();
    Ok(made.status)
}
