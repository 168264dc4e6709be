//! `attr`: attributes of a path of an image.

use crate::given::{Given, INPUT, given_bytes};
use crate::image::{Image, open, open_to_change};
use crate::output::{self, output, say};
use crate::subcommands::path_of;
use crate::trouble::{Thing, tell};
use box_calls::Place;
use box_changes::{Value, list_attributes, print_attribute, set_attribute, unset_attribute};
use box_words::{Common, Deed, MAX_VALUE, NewValue, Origin, Status, value_of};
use path_keys::{AttrName, Path};
use std::io::IsTerminal;
use store_base::Bytes;

/// How many bytes are read of standard input at most: two digits for each byte, and a line feed.
const MOST: usize = 2 * MAX_VALUE + 1;

/// Says that standard input has no value of an attribute.
fn no_value(rt: HostRuntime, is_hex: bool) -> Status {
    let advice = if is_hex {
        "give up to 255 bytes, as two hexadecimal digits each"
    } else {
        "give up to 255 bytes"
    };
    let wrong = "no attribute can have this value";
    tell(rt, Status::Words, &Thing::File(INPUT), wrong, advice)
}

/// The value that standard input has. A line feed may stand behind digits.
fn given_value(rt: HostRuntime, is_hex: bool) -> Result<Bytes, Status> {
    let Given::All(bytes) = given_bytes(rt, Origin::Input, MOST)? else {
        return Err(no_value(rt, is_hex));
    };
    let bytes = bytes.as_slice();
    let bytes = match bytes.strip_suffix(b"\n") {
        Some(digits) if is_hex => digits,
        _ => bytes,
    };
    value_of(bytes, is_hex).ok_or_else(|| no_value(rt, is_hex))
}

/// Lists the attributes of a path.
fn list(
    rt: HostRuntime,
    place: &Place<'_>,
    common: &Common,
    path: &Path,
) -> Result<Status, Status> {
    let Image { disk, file } = open(rt, place.image, common, 1)?;
    let out = output(rt, place.image, &file)?;
    let mut ended = list_attributes(place, disk, path, out, say(rt));
    ended.disk.finish();
    Ok(ended.status)
}

/// Prints an attribute of a path. On a terminal a line feed stands behind it.
fn print(
    rt: HostRuntime,
    place: &Place<'_>,
    common: &Common,
    path: &Path,
    value: &Value,
) -> Result<Status, Status> {
    let Image { disk, file } = open(rt, place.image, common, 1)?;
    let out = output(rt, place.image, &file)?;
    let mut ended = print_attribute(place, disk, path, value, out, say(rt));
    ended.disk.finish();
    match ended.status {
        Status::Done if rt.stdout().is_terminal() => Ok(output::print(rt, b"\n")),
        status => Ok(status),
    }
}

/// Sets an attribute of a path to these bytes.
fn set(
    rt: HostRuntime,
    place: &Place<'_>,
    common: &Common,
    path: &Path,
    name: &AttrName,
    bytes: &Bytes,
) -> Result<Status, Status> {
    let image = open_to_change(rt, place.image, common, 1)?;
    let mut ended = set_attribute(place, image.disk, path, name, bytes, say(rt));
    ended.disk.finish();
    Ok(ended.status)
}

/// Takes an attribute of a path away.
fn remove(
    rt: HostRuntime,
    place: &Place<'_>,
    common: &Common,
    path: &Path,
    name: &AttrName,
) -> Result<Status, Status> {
    let image = open_to_change(rt, place.image, common, 1)?;
    let mut ended = unset_attribute(place, image.disk, path, name, say(rt));
    ended.disk.finish();
    Ok(ended.status)
}

/// Lists, prints, sets or takes away attributes of a path.
pub fn attr(
    rt: HostRuntime,
    place: &Place<'_>,
    common: &Common,
    word: &str,
    deed: &Deed,
) -> Result<Status, Status> {
    let path = path_of(rt, place.image, word, place.spelling)?;
    match deed {
        Deed::List => list(rt, place, common, &path),
        Deed::Print(name, is_hex) => {
            let value = Value {
                name: *name,
                is_hex: *is_hex,
            };
            print(rt, place, common, &path, &value)
        }
        Deed::Set(name, NewValue::Bytes(bytes)) => set(rt, place, common, &path, name, bytes),
        Deed::Set(name, NewValue::Input(is_hex)) => {
            let bytes = given_value(rt, *is_hex)?;
            set(rt, place, common, &path, name, &bytes)
        }
        Deed::Remove(name) => remove(rt, place, common, &path, name),
    }
}
