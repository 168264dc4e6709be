//! The subcommands: what is opened for each.

use crate::attr::attr;
use crate::changes::{make, move_to, remove};
use crate::compare::compare;
use crate::create::{Order, create};
use crate::extract::{extract, unpack};
use crate::get::get;
use crate::image::{Image, open};
use crate::output::{output, say};
use crate::pack::pack;
use crate::trouble::{Thing, no_memory, tell};
use box_calls::{MarkForm, Place, Quoted, check_image, draw_map, list_path, print_info};
use box_changes::Removal;
use box_words::{Call, Common, Shape, Spelling, Status, Taken, image_path};
use entry_lines::ListForm;
use path_keys::Path;
use std::io::IsTerminal;

/// How paths are given and shown.
fn spelling_of(common: &Common) -> Spelling {
    if common.escaped {
        Spelling::Escaped
    } else {
        Spelling::Host
    }
}

/// The path of an image that a word is.
pub fn path_of(
    rt: HostRuntime,
    image: &str,
    word: &str,
    spelling: Spelling,
) -> Result<Path, Status> {
    match image_path(word, spelling) {
        Ok(path) => Ok(path),
        Err(_) => Err(no_path(rt, image, word)),
    }
}

/// Why a word is no path of an image.
fn wrong_of(word: &str) -> &'static str {
    for name in word.split('/') {
        if name == "." || name == ".." {
            return "`.` and `..` are not resolved in a path of an image";
        }
    }
    "no image can have this path"
}

/// Says that a word is no path of an image.
fn no_path(rt: HostRuntime, image: &str, word: &str) -> Status {
    let thing = Thing::Path(image, word);
    let advice = format!(in rt.alloc(); "hbox ls -R {} lists the paths", Quoted(image));
    match advice {
        Ok(advice) => { tell(rt, Status::Words, &thing, wrong_of(word), advice.as_str()) }
        Err(_) => no_memory(rt, &thing),
    }
}

/// Lists what stands at a path, in this form.
fn list(
    rt: HostRuntime,
    place: &Place<'_>,
    common: &Common,
    word: Option<&str>,
    form: ListForm,
) -> Result<Status, Status> {
    let path = match word {
        Some(word) => path_of(rt, place.image, word, place.spelling)?,
        None => Path::root(),
    };
    let Image { disk, file } = open(rt, place.image, common, 1)?;
    let out = output(rt, place.image, &file)?;
    let mut ended = list_path(place, disk, &path, form, out, say(rt));
    ended.disk.finish();
    Ok(ended.status)
}

/// Tells whether an image is sound.
fn check(
    rt: HostRuntime,
    place: &Place<'_>,
    common: &Common,
    digest: Option<[u8; 32]>,
) -> Result<Status, Status> {
    let Image { disk, file } = open(rt, place.image, common, 2)?;
    let out = output(rt, place.image, &file)?;
    let mut ended = check_image(place, disk, digest, out, say(rt));
    ended.disk.finish();
    Ok(ended.status)
}

/// Prints the parameters of an image.
fn info(rt: HostRuntime, place: &Place<'_>, common: &Common) -> Result<Status, Status> {
    let Image { disk, file } = open(rt, place.image, common, 2)?;
    let out = output(rt, place.image, &file)?;
    let mut ended = print_info(place, disk, out, say(rt));
    ended.disk.finish();
    Ok(ended.status)
}

/// Draws the slots of an image.
fn map(rt: HostRuntime, place: &Place<'_>, common: &Common) -> Result<Status, Status> {
    let Image { disk, file } = open(rt, place.image, common, 1)?;
    let out = output(rt, place.image, &file)?;
    let mut ended = draw_map(place, disk, out, say(rt));
    ended.disk.finish();
    Ok(ended.status)
}

/// What is asked for of an image.
fn order_of(dir: Option<&str>, shape: Shape, is_dry: bool, taken: Taken) -> Order {
    Order {
        is_empty: dir.is_none(),
        is_dry,
        shape,
        taken,
    }
}

/// How a list is printed.
fn list_form(
    rt: HostRuntime,
    place: &Place<'_>,
    is_long: bool,
    is_below: bool,
    is_zero: bool,
) -> ListForm {
    ListForm {
        is_below,
        is_long,
        is_zero,
        is_visible: rt.stdout().is_terminal(),
        spelling: place.spelling,
    }
}

/// How differences are printed.
fn mark_form(rt: HostRuntime, place: &Place<'_>, is_zero: bool) -> MarkForm {
    MarkForm {
        is_zero,
        is_visible: rt.stdout().is_terminal(),
        spelling: place.spelling,
    }
}

/// Does what a call asks for that changes an image, and answers how it ends.
fn change(
    rt: HostRuntime,
    place: &Place<'_>,
    call: &Call<'_>,
    common: &Common,
) -> Result<Status, Status> {
    match call {
        Call::Rm {
            paths,
            list,
            is_below,
            is_forced,
            ..
        } => {
            let removal = Removal {
                recursive: *is_below,
                forced: *is_forced,
            };
            remove(rt, place, common, paths.as_slice(), *list, removal)
        }
        Call::Mv {
            from,
            to,
            is_forced,
            ..
        } => move_to(rt, place, common, from, to, *is_forced),
        Call::Mkdir {
            paths,
            has_parents,
            ..
        } => make(rt, place, common, paths.as_slice(), *has_parents),
        Call::Attr { path, deed, .. } => attr(rt, place, common, path, deed),
        _ => Ok(Status::Words),
    }
}

/// Does what a call asks for, and answers how it ends.
fn answer(
    rt: HostRuntime,
    place: &Place<'_>,
    call: &Call<'_>,
    common: &Common,
) -> Result<Status, Status> {
    match call {
        Call::Create {
            dir,
            shape,
            is_dry,
            taken,
            ..
        } => {
            let order = order_of(*dir, *shape, *is_dry, *taken);
            create(rt, place, common, &order)
        }
        Call::Extract { paths, taken, .. } => extract(rt, place, common, paths.as_slice(), *taken),
        Call::Ls {
            path,
            is_long,
            is_below,
            is_zero,
            ..
        } => {
            let form = list_form(rt, place, *is_long, *is_below, *is_zero);
            list(rt, place, common, *path, form)
        }
        Call::Get { path, file, .. } => get(rt, place, common, *path, *file),
        Call::Compare { taken, is_zero, .. } => {
            compare(rt, place, common, *taken, mark_form(rt, place, *is_zero))
        }
        Call::Check { digest, .. } => check(rt, place, common, *digest),
        Call::Info { .. } => info(rt, place, common),
        Call::Map { .. } => map(rt, place, common),
        Call::Pack { taken, .. } => pack(rt, place, common, *taken),
        Call::Unpack { taken, .. } => unpack(rt, place, common, *taken),
        call => change(rt, place, call, common),
    }
}

/// The name of the image of a call, or of what takes its place.
fn image_of<'a>(call: &Call<'a>) -> &'a str {
    match call {
        Call::Create { image, .. }
        | Call::Extract { image, .. }
        | Call::Ls { image, .. }
        | Call::Get { image, .. }
        | Call::Rm { image, .. }
        | Call::Mv { image, .. }
        | Call::Mkdir { image, .. }
        | Call::Attr { image, .. }
        | Call::Compare { image, .. }
        | Call::Check { image, .. }
        | Call::Info { image }
        | Call::Map { image } => image,
        Call::Pack { .. } => "standard output",
        Call::Unpack { .. } => "standard input",
    }
}

/// The name of the file or the folder of the host that a call is about; the empty text for none.
fn file_of<'a>(call: &Call<'a>) -> &'a str {
    match call {
        Call::Create { dir, .. } => dir.unwrap_or(""),
        Call::Extract { dir, .. } | Call::Pack { dir, .. } | Call::Unpack { dir, .. } => dir,
        Call::Get { file, .. } => file.unwrap_or(""),
        Call::Compare { other, .. } => other,
        _ => "",
    }
}

/// Does what a call asks for, and answers how it ends.
pub fn serve(rt: HostRuntime, call: &Call<'_>, common: &Common) -> Status {
    let place = Place {
        alloc: rt.alloc(),
        image: image_of(call),
        file: file_of(call),
        spelling: spelling_of(common),
        sums_up: common.verbose || (!common.quiet && rt.stderr().is_terminal()),
    };
    match answer(rt, &place, call, common) {
        Ok(status) | Err(status) => status,
    }
}
