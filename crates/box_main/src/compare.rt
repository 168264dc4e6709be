//! `compare`: what an image is compared with.

use crate::folder::{HostFolder, go_through, host_folder, look_in};
use crate::image::{Image, look_at_image, open};
use crate::output::{Output, output, say};
use crate::trouble::{Thing, cause, no_memory, unopened};
use box_calls::{MarkForm, Place, compare_with_folder, compare_with_image, wanted_of};
use box_words::{Common, Status, Taken, Times};
use host_files::FileId;
use std::fs;

/// What to do where there is nothing to compare with.
const ADVICE: &str = "give a folder or an image that you may read";

/// A folder of the host that is compared with an image. `None`: memory ran out.
fn folder_of<'a>(
    rt: HostRuntime,
    place: &Place<'a>,
    common: &Common,
    taken: Taken,
    image: &FileId,
) -> Option<HostFolder<'a>> {
    let mut folder = host_folder(rt, place, common, taken, wanted_of(taken), Some(*image))?;
    if taken.times == Times::AsImage {
        folder.pass_over_old_times();
    }
    Some(folder)
}

/// Compares an image with a folder.
fn with_folder(
    rt: HostRuntime,
    place: &Place<'_>,
    common: &Common,
    taken: Taken,
    form: MarkForm,
    image: Image,
    out: Output,
) -> Result<Status, Status> {
    look_in(rt, place.file, ADVICE)?;
    let Some(folder) = folder_of(rt, place, common, taken, &image.file) else {
        return Err(no_memory(rt, &Thing::File(place.file)));
    };
    let packed = go_through(rt, place, common, taken, folder)?;
    let mut compared = compare_with_folder(place, form, image.disk, packed, out, say(rt));
    compared.first.finish();
    Ok(compared.status)
}

/// Compares an image with another one.
fn with_image(
    rt: HostRuntime,
    place: &Place<'_>,
    common: &Common,
    form: MarkForm,
    image: Image,
    out: Output,
) -> Result<Status, Status> {
    let second = open(rt, place.file, common, 2)?;
    let disks = (image.disk, second.disk);
    let mut compared = compare_with_image(place, form, disks, out, say(rt));
    compared.first.finish();
    compared.second.finish();
    Ok(compared.status)
}

/// Compares an image with a folder or another image, whichever stands there.
pub fn compare(
    rt: HostRuntime,
    place: &Place<'_>,
    common: &Common,
    taken: Taken,
    form: MarkForm,
) -> Result<Status, Status> {
    look_at_image(
        rt,
        place.image,
        "the image stands first: hbox compare IMAGE DIR",
    )?;
    let image = open(rt, place.image, common, 2)?;
    let is_folder = match fs::metadata(&rt, place.file) {
        Ok(found) => found.is_dir(),
        Err(error) => return Err(unopened(rt, place.file, cause(&error), ADVICE)),
    };
    let out = output(rt, place.image, &image.file)?;
    if is_folder {
        with_folder(rt, place, common, taken, form, image, out)
    } else {
        with_image(rt, place, common, form, image, out)
    }
}
