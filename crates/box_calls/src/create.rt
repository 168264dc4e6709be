//! `create`: makes the image of a folder.

ghost use Rattle.std.specs.Prelude.{◌≡◌, true, false};
ghost use Rattle.store_model.specs.Parameters.{image_len};
ghost use Rattle.store_model.specs.declared.version.Version.TheVariants.{Two};
ghost use Rattle.tree_writer.specs.Faults.{WasNone};
ghost use Rattle.image_create.specs.Creates.{MakesImage};
ghost use Rattle.box_calls.specs.Comparisons.{is_refused};
ghost use Rattle.box_calls.specs.Creations.{Creates, CreatesEmpty, LeavesNone, create_trouble, empty_trouble};
ghost use Rattle.box_calls.specs.Endings.{IsTold};

use crate::folders::{Packed, is_refused};
use crate::making::end_part;
use crate::place::{Place, Stored};
use crate::plan::Planned;
use crate::telling::{About, ended};
use crate::trouble::Trouble;
use disk_model::Disk;
use host_folders::Folder;
use image_create::{CreateFault, Created, create, create_empty};
use image_writer::WriteFault;
use script_lines::Sink;

/// What the making of an image came to that ended so. What failed in the folder said so itself.
fn create_trouble(done: &Result<(), CreateFault>) -> Result<(), Trouble>
    ensures { result ≡ create_trouble done.now }
{
    match done {
        Ok(()) => Ok(()),
        Err(CreateFault::Disk) => Err(Trouble::Unwritten),
        Err(CreateFault::NoMemory) => Err(Trouble::NoMemory),
        Err(CreateFault::Full { need: _, slots: _ }) => Err(Trouble::Full),
        Err(CreateFault::Unreadable) => Err(Trouble::Host),
        Err(CreateFault::Moving(_)) => Err(Trouble::Moving),
        Err(CreateFault::OtherSlots) => Err(Trouble::Moving),
        Err(CreateFault::TooMany) => Err(Trouble::TooMuch),
    }
}

/// What the trouble is about.
fn about_of(done: &Result<(), CreateFault>) -> About<'_> {
    match done {
        Err(CreateFault::Moving(path)) => About::Path(path),
        Err(CreateFault::Full { need, slots }) => About::Slots(*need, *slots),
        _ => About::Image,
    }
}

/// Makes a disk the image of a folder, as it was planned of what was found there. With each status but `Done` and
/// `Differs` the disk is no image, but where its very last sync failed; with these it is the layout of the tree that
/// the folder told, durably. Where obstacles are not skipped nothing is read or written.
pub fn create_image<D: Disk, F: Folder, E: Sink>(
    place: &Place<'_>,
    disk: D,
    packed: Packed<F>,
    planned: Planned,
    say: E,
) -> Stored<D, F, E>
    requires size { (D.state disk).size ≡ image_len planned.plan.params.slots }
    requires version { planned.plan.params.version ≡ Two }
    requires levels { planned.plan.levels ≡ planned.plan.params }
    ensures creates { Creates (is_refused packed.taken.skip packed.left_out) planned.plan.params
        planned.plan.is_laddered packed.left_out packed.found.items
        (F.state packed.folder) (F.state result.folder) (D.state disk) (D.state result.disk)
        (E.state say) (E.state result.say) result.status }
    ensures told { IsTold result.status → MakesImage planned.plan.params planned.plan.is_laddered
        packed.found.items (F.state packed.folder) (F.state result.folder) (D.state disk) (D.state result.disk) }
    ensures refused { is_refused packed.taken.skip packed.left_out ≡ true
        → (result.disk ≡ disk) × (result.folder ≡ packed.folder) }
    ensures untold { is_refused packed.taken.skip packed.left_out ≡ false → (IsTold result.status → ⊥)
        → WasNone (D.state disk)
        → LeavesNone planned.plan.params packed.found.items (F.state packed.folder) (F.state result.folder)
        (D.state disk) (D.state result.disk) }
{
    let mut say = say;
    let Packed {
        folder,
        found,
        left_out,
        taken,
    } = packed;
    if is_refused(taken.skip, left_out) {
        let trouble = Err(Trouble::Obstacles);
        let status = ended(place, trouble, About::Number(left_out), &mut say);
        return Stored {
            status,
            disk,
            folder,
            say,
        };
    }
    let plan = planned.plan;
    let Created { disk, folder, done } = create(place.alloc, disk, folder, found, plan);
    let trouble = create_trouble(&done);
    let status = end_part(place, trouble, left_out, about_of(&done), &mut say);
    Stored {
        status,
        disk,
        folder,
        say,
    }
}

/// What the making of the image of an empty tree came to that ended so.
fn empty_trouble(done: &Result<(), WriteFault>) -> Result<(), Trouble>
    ensures { result ≡ empty_trouble done.now }
{
    match done {
        Ok(()) => Ok(()),
        Err(WriteFault::Disk) => Err(Trouble::Unwritten),
        Err(WriteFault::NoMemory) => Err(Trouble::NoMemory),
        Err(WriteFault::Full { need: _, slots: _ }) => Err(Trouble::Full),
    }
}

/// Makes a disk the image of an empty tree, as it was planned of a folder in which nothing was found.
pub fn create_empty_image<D: Disk, E: Sink>(
    place: &Place<'_>,
    disk: D,
    planned: Planned,
    say: E,
) -> Stored<D, (), E>
    requires size { (D.state disk).size ≡ image_len planned.plan.params.slots }
    ensures { CreatesEmpty planned.plan.params (D.state disk) (D.state result.disk)
        (E.state say) (E.state result.say) result.status }
{
    let (mut disk, mut say) = (disk, say);
    let done = create_empty(place.alloc, &mut disk, &planned.plan.params);
    let status = ended(place, empty_trouble(&done), About::Image, &mut say);
    Stored {
        status,
        disk,
        folder: (),
        say,
    }
}
