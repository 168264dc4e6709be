//! `compare` of an image and a folder of the host: tells how the folder differs.

ghost use Rattle.std.specs.Prelude.{◌≡◌, ◌≤◌, ◌==◌, not, vec_len, Err};
ghost use Rattle.dump_streams.specs.Gathered.{gathered_state, IsFlushed};
ghost use Rattle.box_calls.specs.Comparisons as model;
ghost use Rattle.box_calls.specs.Comparisons.{folder_trouble, pack_trouble, is_refused};
ghost use Rattle.box_calls.specs.Comparisons.{folder_found, ComparesFolder};
ghost use Rattle.box_calls.specs.Endings.{IsTold, Ends};
ghost use Rattle.box_calls.specs.Marks.{PrintsFound};

use crate::marks::{MarkForm, print_marks};
use crate::place::{Compared, Place};
use crate::reads::unread;
use crate::telling::{About, ended};
use crate::trouble::Trouble;
use crate::wanted::wanted_of;
use box_words::{self, Status, Taken};
use disk_model::Disk;
use dump_diff::Differences;
use dump_streams::GatheredSink;
use host_folders::{Folder, Found, MAX_FOUND};
use image_differences::{
    FolderCompareFault, FolderCompared, FolderReadFault, Times, compare_folder,
};
use script_lines::Sink;

/// A folder of the host that was gone through, to be compared.
#[derive(Drop)]
pub struct Packed<F> {
    /// The folder.
    pub folder: F,
    /// What was found in it.
    pub found: Vec<Found>,
    /// How many obstacles it met: what cannot be in an image, and was left out. It said each.
    pub left_out: u64,
    /// What is compared of it.
    pub taken: Taken,
}

/// Why a folder is not compared.
#[derive(Clone, Copy, Debug, PartialEq, Eq)]
pub enum PackFault {
    /// Memory ran out.
    NoMemory,
    /// It cannot be read, which it said.
    Unreadable,
    /// It has more entries than are looked for.
    TooMany,
    /// It met so many obstacles, each of which it said, and they are not skipped.
    Obstacles(u64),
}

/// The trouble with a folder that is not compared.
fn pack_trouble(fault: PackFault) -> Trouble
    ensures { result ≡ pack_trouble fault }
{
    match fault {
        PackFault::NoMemory => Trouble::NoMemory,
        PackFault::Unreadable => Trouble::Host,
        PackFault::TooMany => Trouble::TooMany,
        PackFault::Obstacles(_) => Trouble::Obstacles,
    }
}

/// Says why a folder is not compared, and answers how the call ends.
pub fn unpacked<E: Sink>(place: &Place<'_>, fault: PackFault, say: &mut E) -> Status
    ensures { Ends (Err (pack_trouble fault)) result (E.state say.old) (E.state say.new) }
{
    let about = match fault {
        PackFault::Obstacles(count) => About::Number(count),
        _ => About::Image,
    };
    ended(place, Err(pack_trouble(fault)), about, say)
}

/// How times are compared.
fn times_of(times: box_words::Times) -> Times
    ensures { result ≡ model.times_of times }
{
    match times {
        box_words::Times::AsImage => Times::AsInImage,
        box_words::Times::Kept | box_words::Times::LeftOut => Times::AsWanted,
    }
}

/// The trouble where an image was not compared with a folder, which says itself what failed.
fn folder_trouble(fault: &FolderCompareFault) -> Trouble
    ensures { result ≡ folder_trouble fault.now }
{
    match fault {
        FolderCompareFault::Image(fault) => unread(*fault),
        FolderCompareFault::Folder(FolderReadFault::Unreadable) => Trouble::Host,
        FolderCompareFault::Folder(FolderReadFault::NoMemory) => Trouble::NoMemory,
        FolderCompareFault::Folder(FolderReadFault::NoImage(_)) => Trouble::Moving,
        FolderCompareFault::NoMemory => Trouble::NoMemory,
    }
}

/// What the trouble is about.
fn about_of(fault: &FolderCompareFault) -> About<'_> {
    match fault {
        FolderCompareFault::Folder(FolderReadFault::NoImage(path)) => About::Path(path),
        _ => About::Image,
    }
}

/// Whether so many obstacles in a folder keep it from being compared.
pub fn is_refused(skips: bool, obstacles: u64) -> bool
    ensures { result ≡ is_refused skips obstacles }
{
    !skips && obstacles != 0
}

/// How a comparison with a folder ends that skips obstacles or does not, met so many, and came to this, once its lines
/// are put.
fn end_folder<W: Sink, E: Sink>(
    place: &Place<'_>,
    form: MarkForm,
    met: (bool, u64),
    found: &Result<Differences, FolderCompareFault>,
    out: &mut GatheredSink<W>,
    say: &mut E,
) -> Status
    ensures prints { PrintsFound form (not (met.1 == 0)) (folder_found met.0 met.1 found.now)
        (gathered_state W.state out.old) (gathered_state W.state out.new) (E.state say.old)
        (E.state say.new) result }
    ensures flushed { IsTold result → IsFlushed W.state out.new }
{
    let (skips, obstacles) = met;
    match found {
        Ok(_) if is_refused(skips, obstacles) => ended(
            place,
            Err(Trouble::Obstacles),
            About::Number(obstacles),
            say,
        ),
        Ok(found) => print_marks(place, form, obstacles != 0, found.paths(), out, say),
        Err(fault) => ended(place, Err(folder_trouble(fault)), about_of(fault), say),
    }
}

/// Puts a line into the first sink for each path at which an image and a folder of the host differ, as far as the
/// options of the words say. It ends with `Done` where no path differs, and nothing in the folder was left out.
pub fn compare_with_folder<D: Disk, F: Folder, W: Sink, E: Sink>(
    place: &Place<'_>,
    form: MarkForm,
    disk: D,
    packed: Packed<F>,
    out: GatheredSink<W>,
    say: E,
) -> Compared<D, F, GatheredSink<W>, E>
    requires few { vec_len packed.found ≤ MAX_FOUND }
    ensures compares { ComparesFolder form packed.taken packed.found.items packed.left_out (D.state disk)
        (D.state result.first) (F.state packed.folder) (F.state result.second)
        (gathered_state W.state out) (gathered_state W.state result.out)
        (E.state say) (E.state result.say) result.status }
    ensures flushed { IsTold result.status → IsFlushed W.state result.out }
{
    let (mut out, mut say) = (out, say);
    let Packed {
        folder,
        found,
        left_out,
        taken,
    } = packed;
    let FolderCompared {
        disk,
        folder,
        found,
    } = compare_folder(
        place.alloc,
        disk,
        folder,
        found,
        wanted_of(taken),
        times_of(taken.times),
    );
    let met = (taken.skip, left_out);
    let status = end_folder(place, form, met, &found, &mut out, &mut say);
    Compared {
        status,
        first: disk,
        second: folder,
        out,
        say,
    }
}
