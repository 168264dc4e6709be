//! `pack`: prints the listing of a folder.

use crate::folder::{Folder, begin_reading, go_through, host_folder, look_in};
use crate::output::{plain_output, say};
use crate::trouble::{Thing, no_memory};
use box_calls::{Packed, Place, break_off, pack_listing, stored_of};
use box_words::{Common, Status, Taken};

/// What to do where DIR cannot be read.
const ADVICE: &str = "give a folder that you may read";

/// Goes through the folder.
fn source_of<'a>(
    rt: HostRuntime,
    place: &Place<'a>,
    common: &Common,
    taken: Taken,
) -> Result<Packed<Folder<'a>>, Status> {
    look_in(rt, place.file, ADVICE)?;
    let Some(folder) = host_folder(rt, place, common, taken, stored_of(taken), None) else {
        return Err(no_memory(rt, &Thing::File(place.file)));
    };
    go_through(rt, place, common, taken, folder)
}

/// Prints the listing of a folder. What is printed is ended by the line `broken off` where it is not whole.
pub fn pack(
    rt: HostRuntime,
    place: &Place<'_>,
    common: &Common,
    taken: Taken,
) -> Result<Status, Status> {
    let mut out = plain_output(rt, place.image)?;
    let mut packed = match source_of(rt, place, common, taken) {
        Ok(packed) => packed,
        Err(status) => {
            break_off(&mut out);
            return Err(status);
        }
    };
    begin_reading(&mut packed);
    let listed = pack_listing(place, packed, out, say(rt));
    listed.stream.into_folder().finish();
    Ok(listed.status)
}
