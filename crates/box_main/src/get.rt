//! `get`: where the bytes of a file go.

use crate::given::{given_list, name_of, names_in};
use crate::image::{Image, open};
use crate::output::{output, say};
use crate::subcommands::path_of;
use crate::target::{Written, open_target};
use crate::trouble::{Thing, no_memory, tell};
use box_calls::{Place, Target, get_file};
use box_words::{Common, Named, Status};
use dump_streams::GatheredSink;
use path_keys::Path;
use script_lines::StdSink;

/// Copies a file of an image into a file.
fn copy(
    rt: HostRuntime,
    place: &Place<'_>,
    image: Image,
    path: &Path,
    name: &str,
) -> Result<Status, Status> {
    let Image { disk, file: id } = image;
    let Written { file, place: named } = open_target(rt, name, &id)?;
    let out = match GatheredSink::new(rt.alloc(), StdSink::new(file)) {
        Ok(out) => out,
        Err((_, sink)) => {
            let written = Written {
                file: sink.into_inner(),
                place: named,
            };
            return Err(written.finish(rt, name, no_memory(rt, &Thing::File(name))));
        }
    };
    let mut ended = get_file(place, disk, path, Target::File, out, say(rt));
    ended.disk.finish();
    let written = Written {
        file: ended.out.into_sink().into_inner(),
        place: named,
    };
    Ok(written.finish(rt, name, ended.status))
}

/// The path that a call names.
fn path_named(rt: HostRuntime, place: &Place<'_>, named: Named<'_>) -> Result<Path, Status> {
    let origin = match named {
        Named::Word(word) => return path_of(rt, place.image, word, place.spelling),
        Named::List(origin) => origin,
    };
    let list = given_list(rt, origin)?;
    let names = names_in(rt, origin, list.as_slice())?;
    match names.as_slice() {
        [name] => path_of(rt, place.image, name, place.spelling),
        names => {
            let thing = Thing::File(name_of(origin));
            let wrong = if names.is_empty() {
                "it has no name"
            } else {
                "it has more than one name"
            };
            Err(tell(
                rt,
                Status::Words,
                &thing,
                wrong,
                "give the path of one file",
            ))
        }
    }
}

/// Copies a file of an image, to standard output, which is also called `-`, or to a file.
pub fn get(
    rt: HostRuntime,
    place: &Place<'_>,
    common: &Common,
    path: Named<'_>,
    file: Option<&str>,
) -> Result<Status, Status> {
    let path = path_named(rt, place, path)?;
    let image = open(rt, place.image, common, 1)?;
    match file {
        None | Some("-") => {
            let out = output(rt, place.image, &image.file)?;
            let mut ended = get_file(place, image.disk, &path, Target::Output, out, say(rt));
            ended.disk.finish();
            Ok(ended.status)
        }
        Some(name) => copy(rt, place, image, &path, name),
    }
}
