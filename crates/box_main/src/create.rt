//! `create`: makes an image of a folder, or of nothing.

ghost use Rattle.std.specs.Prelude.{◌≡◌, IfOk};
ghost use Rattle.store_model.specs.declared.version.Version.TheVariants.{Two};

use crate::folder::{Folder, go_through, host_folder, look_in};
use crate::new_image::{NewImage, begin, leftover_of, look_for};
use crate::output::{plain_output, say};
use crate::seed::seed_for;
use crate::trouble::{Thing, no_memory, tell};
use box_calls::{
    Holds, Packed, Place, Planned, create_empty_image, create_image, plan_image, print_plan,
    stored_of, sum_up_stored, unplanned,
};
use box_words::{Common, Shape, Status, Taken};
use host_files::FileId;
use host_folders::Found;
use std::fs;
use store_base::{Params, Version};

/// What to do where DIR cannot be read.
const ADVICE: &str = "give a folder that you may read";

/// The slots of parameters whose slots are chosen later.
const ANY_SLOTS: u32 = 64;

/// What is asked for of an image.
#[derive(Clone, Copy)]
pub struct Order {
    /// Whether it is that of an empty tree.
    pub is_empty: bool,
    /// Whether it is only told what it would be.
    pub is_dry: bool,
    /// Its parameters.
    pub shape: Shape,
    /// What is taken of the folder.
    pub taken: Taken,
}

/// What is found in the folder of an order; nothing where the image is that of an empty tree.
type Source<'a> = Option<Packed<Folder<'a>>>;

/// The parameters of an image. Those whose slots are chosen later have any.
fn params_of(rt: HostRuntime, shape: &Shape) -> Result<Params, Status>
    ensures { IfOk result (λ params. params.version ≡ Two) }
{
    let seed = seed_for(rt, shape.seed)?;
    let slots = shape.slots.unwrap_or(ANY_SLOTS);
    match Params::new(slots, shape.height, shape.draw, seed) {
        Ok(params) => Ok(params.with_version(Version::Two)),
        Err(_) => {
            let wrong = "the slots or the height are out of range";
            let advice = "give 1 to 65536 slots, and a height of 1 to 8";
            Err(tell(rt, Status::Words, &Thing::OfCall, wrong, advice))
        }
    }
}

/// Goes through the folder of an order, in which this file is the image that is not complete.
fn source_of<'a>(
    rt: HostRuntime,
    place: &Place<'a>,
    common: &Common,
    order: &Order,
    image: Option<FileId>,
) -> Result<Source<'a>, Status> {
    if order.is_empty {
        return Ok(None);
    }
    let taken = order.taken;
    let Some(folder) = host_folder(rt, place, common, taken, stored_of(taken), image) else {
        return Err(no_memory(rt, &Thing::File(place.file)));
    };
    Ok(Some(go_through(rt, place, common, taken, folder)?))
}

/// What was found in the folder of an order.
fn found_of<'a>(source: &'a Source<'_>) -> &'a [Found] {
    match source {
        Some(packed) => packed.found.as_slice(),
        None => &[],
    }
}

/// How much of the folder of an order is left out.
fn left_out_of(source: &Source<'_>) -> u64 {
    match source {
        Some(packed) => packed.left_out,
        None => 0,
    }
}

/// Tells what an image would be.
fn show(
    rt: HostRuntime,
    place: &Place<'_>,
    common: &Common,
    order: &Order,
    params: &Params,
) -> Result<Status, Status>
    requires { params.now.version ≡ Two }
{
    let out = plain_output(rt, place.image)?;
    let leftover = leftover_of(rt, place.image)?;
    let source = source_of(rt, place, common, order, leftover)?;
    let is_laddered = order.shape.slots.is_none();
    match plan_image(rt.alloc(), params, is_laddered, found_of(&source)) {
        Ok(planned) => {
            let left_out = left_out_of(&source);
            Ok(print_plan(place, &planned.contents, left_out, out, say(rt)).status)
        }
        Err(fault) => Err(unplanned(place, fault, &mut say(rt))),
    }
}

/// What the image of an order will hold.
fn holds_of(source: &Source<'_>, planned: &Planned) -> Holds {
    Holds {
        contents: planned.contents,
        links: planned.links,
        left_out: left_out_of(source),
    }
}

/// Writes an image into its file.
fn write(
    rt: HostRuntime,
    place: &Place<'_>,
    common: &Common,
    new: &NewImage,
    source: Source<'_>,
    planned: Planned,
) -> Result<Status, Status>
    requires version { planned.plan.params.version ≡ Two }
    requires levels { planned.plan.levels ≡ planned.plan.params }
{
    let disk = new.disk(rt, place.image, &planned.plan.params, common)?;
    match source {
        Some(packed) => {
            let mut stored = create_image(place, disk, packed, planned, say(rt));
            stored.disk.finish();
            Ok(stored.status)
        }
        None => {
            let mut stored = create_empty_image(place, disk, planned, say(rt));
            stored.disk.finish();
            Ok(stored.status)
        }
    }
}

/// Makes an image in its file, under these parameters, but for the slots, where these are chosen, and answers what it
/// holds.
fn fill(
    rt: HostRuntime,
    place: &Place<'_>,
    common: &Common,
    order: &Order,
    params: &Params,
    new: &NewImage,
) -> Result<(Status, Holds), Status>
    requires { params.now.version ≡ Two }
{
    let source = source_of(rt, place, common, order, Some(new.id()))?;
    let is_laddered = order.shape.slots.is_none();
    match plan_image(rt.alloc(), params, is_laddered, found_of(&source)) {
        Ok(planned) => {
            let holds = holds_of(&source, &planned);
            Ok((write(rt, place, common, new, source, planned)?, holds))
        }
        Err(fault) => Err(unplanned(place, fault, &mut say(rt))),
    }
}

/// Whether a path leads to a folder.
fn is_folder(rt: HostRuntime, path: &str) -> bool {
    fs::metadata(&rt, path).is_ok_and(|found| found.is_dir())
}

/// Looks whether the words stand in the right order. Else it says so: IMAGE is a folder, and DIR is none.
fn look_at_order(rt: HostRuntime, place: &Place<'_>, order: &Order) -> Result<(), Status> {
    if order.is_empty || !is_folder(rt, place.image) || is_folder(rt, place.file) {
        return Ok(());
    }
    let advice = "the image stands first: hbox create IMAGE DIR";
    let thing = Thing::File(place.image);
    Err(tell(rt, Status::Path, &thing, "it is a folder", advice))
}

/// Makes an image where nothing stands, or tells what it would be.
pub fn create(
    rt: HostRuntime,
    place: &Place<'_>,
    common: &Common,
    order: &Order,
) -> Result<Status, Status> {
    look_at_order(rt, place, order)?;
    look_for(rt, place.image)?;
    if !order.is_empty {
        look_in(rt, place.file, ADVICE)?;
    }
    let params = params_of(rt, &order.shape)?;
    if order.is_dry {
        return show(rt, place, common, order, &params);
    }
    let new = begin(rt, place.image, common)?;
    match fill(rt, place, common, order, &params, &new) {
        Ok((status, holds)) => {
            let status = new.finish(rt, place.image, status);
            sum_up_stored(place, status, &holds, &mut say(rt));
            Ok(status)
        }
        Err(status) => Err(new.finish(rt, place.image, status)),
    }
}
