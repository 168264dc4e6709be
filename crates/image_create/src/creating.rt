//! Makes an image of a folder of the host.

ghost use Rattle.std.specs.Prelude.{◌≡◌, ◌≢◌, ℕ, [], List, slice_index, vec_len, OnOk, IfOk, IfErr, IfSome};
ghost use Rattle.std.specs.Bool.{OnTrue, OnFalse};
ghost use Rattle.store_model.specs.declared.version.Version.TheVariants.{Two};
ghost use Rattle.store_model.specs.Parameters.{Parameters, image_len};
ghost use Rattle.store_model.specs.Trees.{Tree, empty_tree};
ghost use Rattle.store_model.specs.Images.{layout};
ghost use Rattle.disk_model.specs.DiskState.{DiskState};
ghost use Rattle.gate_journal.specs.Places.{AreCalls};
ghost use Rattle.image_writer.specs.Sealing.{Becomes};
ghost use Rattle.image_writer.specs.Writing as writing;
ghost use Rattle.image_writer.specs.Writing.{IsNotFull};
ghost use Rattle.host_folders.specs.Packed.{CameOf, IsOfSame};
ghost use Rattle.tree_writer.specs.Faults.{WasNone};
ghost use Rattle.tree_writer.specs.Writing.{WritesTree, HoldsTree};
ghost use Rattle.image_create.specs.Creates.{MakesImage, IsUnmade};
ghost use Rattle.image_create.specs.Faults.{disk_answer};
ghost use Rattle.image_create.specs.Leading.{IsLastPath, Ends, FollowFrom, WantsOthers, wanted_of};

use crate::fault::{CreateFault, tree_fault};
use crate::lead::lead;
use crate::slots::ladder;
use disk_model::Disk;
use drawn_levels::KnownLevels;
use host_folders::{Folder, FolderStream, Found};
use image_writer::{WriteFault, write_pairs};
use node_pages::PairList;
use path_keys::Path;
use std::alloc::Global;
use store_base::Params;
use tree_writer::TreeWriter;

/// What an image of a folder is made with.
#[derive(Drop)]
pub struct Plan {
    /// Its parameters, of version 2.
    pub params: Params,
    /// The levels of keys under them, those that are known and those that are not.
    pub levels: KnownLevels,
    /// Whether the slots are to be those that `ladder` gives for the tree's pages.
    pub is_laddered: bool,
}

/// What is handed back of a folder of which an image was to be made, and how that ended.
pub struct Created<D: Disk, F: Folder> {
    /// The disk.
    pub disk: D,
    /// The folder.
    pub folder: F,
    /// Whether the disk is now the image of the tree that the folder told.
    pub done: Result<(), CreateFault>,
}

/// Makes the disk the image of the tree that a folder tells, in which `found` was found (`find_all`).
///
/// The disk has the length of the image, and was no image: nothing is pending on it, and its first byte is not that of
/// one. Each file is read once, each block of the image is written once, and the first byte last: before that a crash
/// leaves no image. Of the tree no more is kept than the keys above level 0.
///
/// `Full`: the tree has more pages than there are slots; both numbers are told. `OtherSlots`: the slots were to be
/// those that follow from the tree, and others do. `Moving`: what the folder told at this path is no entry of an image
/// behind what it told before, or it told another length of the file there than the file had. `Unreadable`: a call of
/// the folder failed. `TooMany`: there are more than 268,435,456 pairs. After each of these the disk is no image, and
/// neither after `NoMemory`. `Disk`: a call of the disk failed. It is no image, unless the very last sync failed.
pub fn create<D: Disk, F: Folder>(
    alloc: Global,
    disk: D,
    folder: F,
    found: Vec<Found>,
    plan: Plan,
) -> Created<D, F>
    requires size { (D.state disk).size ≡ image_len plan.params.slots }
    requires version { plan.params.version ≡ Two }
    requires levels { plan.levels ≡ plan.params }
    ensures makes { OnOk result.done (MakesImage plan.params plan.is_laddered found.items (F.state folder)
        (F.state result.folder) (D.state disk) (D.state result.disk)) }
    ensures unmade { IfErr result.done (IsUnmade plan.params plan.is_laddered found.items (F.state folder)
        (F.state result.folder) (D.state disk) (D.state result.disk)) }
    ensures calls { AreCalls (D.state disk) (D.state result.disk) (disk_answer result.done) }
{
    let mut disk = disk;
    let mut stream = FolderStream::new(folder, found);
    let done = write_stream(alloc, &mut disk, &mut stream, plan);
    Created {
        disk,
        folder: stream.into_folder(),
        done,
    }
}

/// Makes the disk the image of the tree of a folder's stream, from which nothing came.
fn write_stream<D: Disk, F: Folder>(
    alloc: Global,
    disk: &mut D,
    stream: &mut FolderStream<F>,
    plan: Plan,
) -> Result<(), CreateFault>
    requires size { (D.state disk.old).size ≡ image_len plan.params.slots }
    requires version { plan.params.version ≡ Two }
    requires levels { plan.levels ≡ plan.params }
    requires came { CameOf F.state stream.old [] }
    ensures makes { OnOk result (MakesImage plan.params plan.is_laddered stream.old.found.items
        (F.state stream.old.first.value) (F.state stream.new.folder) (D.state disk.old) (D.state disk.new)) }
    ensures unmade { IfErr result (IsUnmade plan.params plan.is_laddered stream.old.found.items
        (F.state stream.old.first.value) (F.state stream.new.folder) (D.state disk.old) (D.state disk.new)) }
    ensures calls { AreCalls (D.state disk.old) (D.state disk.new) (disk_answer result) }
{
    let Plan {
        params,
        levels,
        is_laddered,
    } = plan;
    let mut writer = TreeWriter::begin(alloc, disk, &params, levels)?;
    let last = lead(disk, stream, &mut writer)?;
    let wanted = wanted_slots(is_laddered, params.slots());
    finish(disk, writer, wanted, &last)
}

/// The slots that are wanted, if the image is to have those that follow from its tree.
fn wanted_slots(is_laddered: bool, slots: u32) -> Option<u32>
    ensures { result ≡ wanted_of is_laddered slots }
{
    if is_laddered {
        return Some(slots);
    }
    None
}

/// Finishes the image of a tree that came whole, whose last path is this. Where slots
/// are wanted, just these are to follow from the tree.
fn finish<D: Disk>(
    disk: &mut D,
    writer: TreeWriter,
    wanted: Option<u32>,
    last: &Path,
) -> Result<(), CreateFault>
    requires { (p : Parameters) × (start : D) × (t : Tree)
        × WritesTree p t (D.state start) (D.state disk.old) writer }
    ensures calls { AreCalls (D.state disk.old) (D.state disk.new) (disk_answer result) }
    ensures ends { (p : Parameters) (start : D) (t : Tree)
        → WritesTree p t (D.state start) (D.state disk.old) writer → IsLastPath t last.now
        → Ends p wanted t (D.state start) (D.state disk.new) result }
{
    if !has_wanted_slots(&writer, wanted) {
        return Err(CreateFault::OtherSlots);
    }
    match writer.finish(disk) {
        Ok(()) => Ok(()),
        Err(cause) => Err(tree_fault(cause, last)),
    }
}

/// Whether just these slots follow from the pages of the tree that was written, if some are wanted.
fn has_wanted_slots(writer: &TreeWriter, wanted: Option<u32>) -> bool
    ensures yes { (p : Parameters) (t : Tree) → HoldsTree p t writer.now
        → OnTrue result (IfSome wanted (FollowFrom p t)) }
    ensures no { (p : Parameters) (t : Tree) → HoldsTree p t writer.now
        → OnFalse result (WantsOthers p wanted t) }
{
    match wanted {
        Some(slots) => ladder(writer.pages()) == Some(slots),
        None => true,
    }
}

/// Makes the disk the image of the empty tree.
///
/// The disk has the length of the image, and was no image. `Disk`: a call of the disk failed; it is no image, unless
/// the very last sync failed. `NoMemory`: memory ran out; it is no image.
pub fn create_empty<D: Disk>(alloc: Global, disk: &mut D, params: &Params) -> Result<(), WriteFault>
    requires { (D.state disk.old).size ≡ image_len params.now.slots }
    ensures becomes { WasNone (D.state disk.old)
        → Becomes params.now (layout empty_tree params.now) (D.state disk.old) (D.state disk.new) result }
    ensures calls { AreCalls (D.state disk.old) (D.state disk.new) (writing.disk_answer result) }
    ensures faults { IfErr result IsNotFull }
{
    write_pairs(alloc, disk, params, &PairList::new(alloc))
}
