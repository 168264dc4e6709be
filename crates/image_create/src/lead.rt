//! Leads the stream of a folder into the writer of its tree.

ghost use Rattle.std.specs.Prelude.{◌≡◌, [], IfOk, IfErr, OnOk, Ok};
ghost use Rattle.std.specs.Bool.{OnTrue, OnFalse};
ghost use Rattle.store_model.specs.declared.version.Version.TheVariants.{Two};
ghost use Rattle.store_model.specs.Parameters.{Parameters};
ghost use Rattle.store_model.specs.Trees.{Tree};
ghost use Rattle.disk_model.specs.DiskState.{DiskState};
ghost use Rattle.gate_journal.specs.Places.{AreCalls};
ghost use Rattle.image_writer.specs.Writing.{StaysNone};
ghost use Rattle.dump_streams.specs.Dumps.{after_step};
ghost use Rattle.dump_streams.specs.Reading.{GoesOn};
ghost use Rattle.host_folders.specs.Packed.{CameOf, IsOfSame, IsPacked};
ghost use Rattle.tree_writer.specs.Faults.{WasNone};
ghost use Rattle.tree_writer.specs.Told.{FirstDiffers};
ghost use Rattle.tree_writer.specs.Writing.{WritesTree, told_of};
ghost use Rattle.image_create.specs.Faults.{disk_answer};
ghost use Rattle.image_create.specs.Leading.{IsLed, IsStopped, IsLastPath, IsUntaken, Comes};

use crate::fault::{CreateFault, stream_fault, tree_fault};
use disk_model::Disk;
use dump_streams::{DUMP_PIECE, DumpStep, DumpStream, Step};
use host_folders::{Folder, FolderStream};
use path_keys::Path;
use tree_writer::TreeWriter;

/// Takes all steps of a stream from which none came, and answers the path of the last; the root where there is none.
///
/// `Moving`: a step asks for what is no entry of an image, or a file has other than the bytes that were told.
pub(crate) fn lead<D: Disk, F: Folder>(
    disk: &mut D,
    stream: &mut FolderStream<F>,
    writer: &mut TreeWriter,
) -> Result<Path, CreateFault>
    requires writes { (p : Parameters) × (start : D) × (p.version ≡ Two)
        × WritesTree p [] (D.state start) (D.state disk.old) writer.old }
    requires came { CameOf F.state stream.old [] }
    ensures calls { AreCalls (D.state disk.old) (D.state disk.new) (disk_answer result) }
    ensures same { IsOfSame stream.old stream.new }
    ensures led { (p : Parameters) (start : D) → p.version ≡ Two
        → WritesTree p [] (D.state start) (D.state disk.old) writer.old
        → IfOk result (IsLed F.state p stream.new (D.state start) (D.state disk.new) writer.new) }
    ensures stopped { (p : Parameters) (start : D) → p.version ≡ Two
        → WritesTree p [] (D.state start) (D.state disk.old) writer.old
        → IfErr result (IsStopped F.state p stream.new) }
    ensures none { (p : Parameters) (start : D) → p.version ≡ Two
        → WritesTree p [] (D.state start) (D.state disk.old) writer.old
        → WasNone (D.state start) → StaysNone (D.state start) (D.state disk.new) }
{
    let mut step = DumpStep::new();
    let mut last = Path::root();
    for _ in 0..u64::MAX {
        if !next_step(stream, &mut step)? {
            return Ok(last);
        }
        take_step(disk, writer, &step, stream.told(), &last)?;
        last = *step.path();
    }
    Err(CreateFault::TooMany)
}

/// Puts the next step of a stream into `into`; `false` where the dump is whole.
fn next_step<F: Folder>(
    stream: &mut FolderStream<F>,
    into: &mut DumpStep,
) -> Result<bool, CreateFault>
    ensures same { IsOfSame stream.old stream.new }
    ensures comes { (t : Tree) → CameOf F.state stream.old t → IfOk result (Comes F.state stream.new t into.new) }
    ensures stopped { (t : Tree) (p : Parameters) → CameOf F.state stream.old t
        → IfErr result (IsStopped F.state p stream.new) }
    ensures calm { disk_answer result ≡ Ok tt }
{
    match stream.next(into) {
        Ok(is_there) => Ok(is_there),
        Err(cause) => Err(stream_fault(cause, stream.path())),
    }
}

/// Writes what a step adds to the tree, whose last path is this. So many bytes were told of the file that the step
/// begins, if it begins one.
fn take_step<D: Disk>(
    disk: &mut D,
    writer: &mut TreeWriter,
    step: &DumpStep,
    told: u32,
    last: &Path,
) -> Result<(), CreateFault>
    requires { (p : Parameters) × (start : D) × (t : Tree)
        × WritesTree p t (D.state start) (D.state disk.old) writer.old × GoesOn t step.now p }
    ensures calls { AreCalls (D.state disk.old) (D.state disk.new) (disk_answer result) }
    ensures takes { (p : Parameters) (start : D) (t : Tree)
        → WritesTree p t (D.state start) (D.state disk.old) writer.old → GoesOn t step.now p
        → OnOk result (WritesTree p (after_step t step.now) (D.state start) (D.state disk.new) writer.new) }
    ensures untaken { (p : Parameters) (start : D) (t : Tree)
        → WritesTree p t (D.state start) (D.state disk.old) writer.old → GoesOn t step.now p
        → IsLastPath t last.now → IfErr result (IsUntaken p t step.now told (told_of writer.old)) }
    ensures none { (p : Parameters) (start : D) (t : Tree)
        → WritesTree p t (D.state start) (D.state disk.old) writer.old → GoesOn t step.now p
        → WasNone (D.state start) → StaysNone (D.state start) (D.state disk.new) }
{
    match writer.take(disk, step, told) {
        Ok(()) => Ok(()),
        Err(cause) if begins_other(step, told) => Err(tree_fault(cause, step.path())),
        Err(cause) => Err(tree_fault(cause, last)),
    }
}

/// Whether the step begins a file that has other than so many bytes, whatever comes behind the step.
fn begins_other(step: &DumpStep, told: u32) -> bool
    ensures yes { OnTrue result (FirstDiffers step.now told) }
    ensures no { OnFalse result (FirstDiffers step.now told → ⊥) }
{
    let Step::Write(_, 0, bytes) = step.parts() else {
        return false;
    };
    let len = bytes.as_slice().len() as u32;
    len > told || len < DUMP_PIECE && len != told
}
