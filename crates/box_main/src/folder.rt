//! Folders of the host that are read: by `compare`, `create` and `pack`.

ghost use Rattle.std.specs.Prelude.{◌≡◌, ◌≤◌, vec_len, IfOk};

use crate::output::{output_file, say};
use crate::progress::WatchedFolder;
use crate::report::Reports;
use crate::trouble::{cause, unopened};
use box_calls::{PackFault, Packed, Place, unpacked};
use box_words::{Common, Status, Taken};
use host_files::{FileId, Reporter, StdFolder, Wanted};
use host_folders::{FindFault, Found, FoundKind, MAX_FOUND, find_all};
use std::fs;
use std::io::{Error, ErrorKind};

/// A folder that is read.
pub type HostFolder<'a> = StdFolder<Reports<'a>>;

/// A folder that is read, watched by a person.
pub type Folder<'a> = WatchedFolder<HostFolder<'a>>;

/// A folder that counts what it leaves out.
pub trait Counting: host_folders::Folder + Drop {
    /// How much was left out so far of what has no place in an image.
    fn left_out(&self) -> u64;
}

impl<R: Reporter + Drop> Counting for StdFolder<R> {
    fn left_out(&self) -> u64 {
        self.left_out()
    }
}

/// The files that the program itself works on: an image, if one is there, and the file to which standard output leads.
fn own_files(rt: HostRuntime, image: Option<FileId>) -> Option<Vec<FileId>> {
    let mut own = Vec::new(rt.alloc());
    if let Some(file) = image {
        own.push(file).ok()?;
    }
    if let Some(file) = output_file(rt) {
        own.push(file).ok()?;
    }
    Some(own)
}

/// The folder of a call, of which so much is wanted. The image is left out, if it is a file that is there. `None`:
/// memory ran out.
pub fn host_folder<'a>(
    rt: HostRuntime,
    place: &Place<'a>,
    common: &Common,
    taken: Taken,
    wanted: Wanted,
    image: Option<FileId>,
) -> Option<HostFolder<'a>> {
    let name = String::from_str(rt.alloc(), place.file).ok()?;
    let own = own_files(rt, image)?;
    let reports = Reports::new(rt, place, taken, common);
    Some(StdFolder::new(rt, name, wanted, own, reports))
}

/// Why a folder cannot be read, in words.
fn unlisted(rt: HostRuntime, folder: &str, error: &Error) -> &'static str {
    match error.kind() {
        ErrorKind::NotADirectory if fs::metadata(&rt, folder).is_ok() => "it is not a folder",
        _ => cause(error),
    }
}

/// Looks whether a folder may be read. Else it says what to do.
pub fn look_in(rt: HostRuntime, folder: &str, advice: &str) -> Result<(), Status> {
    match fs::read_dir(&rt, folder) {
        Ok(_) => Ok(()),
        Err(error) => Err(unopened(rt, folder, unlisted(rt, folder, &error), advice)),
    }
}

/// All that stands in a folder. Without `--skip` it is a fault that something has no place in an image.
fn found_in<F: Counting>(
    rt: HostRuntime,
    folder: &mut WatchedFolder<F>,
    taken: Taken,
) -> Result<Vec<Found>, PackFault>
    ensures few { IfOk result (λ found. vec_len found ≤ MAX_FOUND) }
{
    let found = match find_all(rt.alloc(), folder) {
        Ok(found) => found,
        Err(FindFault::NoMemory) => return Err(PackFault::NoMemory),
        Err(FindFault::Unreadable) => return Err(PackFault::Unreadable),
        Err(FindFault::TooMany) => return Err(PackFault::TooMany),
    };
    let left_out = folder.folder.left_out();
    if left_out > 0 && !taken.skip {
        return Err(PackFault::Obstacles(left_out));
    }
    Ok(found)
}

/// Goes through a folder. Where it cannot be read, or has something that has no place in an image and is not skipped,
/// says so.
pub fn go_through<F: Counting>(
    rt: HostRuntime,
    place: &Place<'_>,
    common: &Common,
    taken: Taken,
    folder: F,
) -> Result<Packed<WatchedFolder<F>>, Status>
    ensures few { IfOk result (λ packed. vec_len packed.found ≤ MAX_FOUND) }
{
    let mut folder = WatchedFolder::new(rt, folder, common.quiet);
    let found = found_in(rt, &mut folder, taken);
    folder.finish();
    let found = match found {
        Ok(found) => found,
        Err(why) => return Err(unpacked(place, why, &mut say(rt))),
    };
    let left_out = folder.folder.left_out();
    Ok(Packed {
        folder,
        found,
        left_out,
        taken,
    })
}

/// How many bytes the files have that were found.
fn bytes_of(found: &[Found]) -> u64 {
    let mut bytes: u64 = 0;
    for one in found {
        if let FoundKind::File(len) = one.kind {
            bytes = bytes.saturating_add(u64::from(len));
        }
    }
    bytes
}

/// From now on a person sees how much is read of the files of a folder.
pub fn begin_reading<F>(packed: &mut Packed<WatchedFolder<F>>)
    ensures { packed.new.found ≡ packed.old.found }
{
    let bytes = bytes_of(packed.found.as_slice());
    packed.folder.begin_reading(bytes);
}
