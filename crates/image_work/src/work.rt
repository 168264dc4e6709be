//! A work with the store of an image, and the call that opens an image for one.

ghost use Rattle.std.specs.Prelude.{◌≡◌};
ghost use Rattle.store_core.specs.StoreCalls.{IsRefused};
ghost use Rattle.image_subcommands.specs.Endings.{attach_status};
ghost use Rattle.image_subcommands.specs.Outside.{KeepsOutside};
ghost use Rattle.image_work.specs.Works.{around, idle_with, Works, IsReady, IsUnopened};
ghost use Rattle.image_work.specs.Works.{WorksOnStore};

use disk_model::Disk;
use image_check::AttachFault;
use image_subcommands::Outcome;
use script_lines::{Sink, Source};
use std::alloc::Global;
use store_core::Store;

/// What a call does with the store of an image. It is made before the image is opened, of a source and a sink.
pub trait StoreWork {
    ghost use Rattle.store_model.specs.Parameters.{Parameters};
    ghost use Rattle.store_model.specs.Trees.{Tree};
    ghost use Rattle.disk_model.specs.DiskState.{DiskState};
    ghost use Rattle.image_subcommands.specs.declared.outcome.Outcome.{Outcome};
    ghost use Rattle.image_subcommands.specs.Outside.{Outside};
    ghost use Rattle.image_subcommands.specs.Statuses.{Subcommand};

    /// Where it reads from.
    type Reads: Source;

    /// Where it writes to.
    type Writes: Sink;

    /// Whose work it is.
    ghost word: { Self → Subcommand };

    /// The source and the sink that it was made of.
    ghost given: { Self → Self.Reads × Self.Writes };

    /// What it leaves, whatever the disk holds.
    ghost keeps: { (D : Type 0) → (D → DiskState) → Self → Outside D Self.Reads Self.Writes
        → Outcome D Self.Reads Self.Writes → Type 0 };

    /// What it does on an image of this tree under these parameters.
    ghost does: { (D : Type 0) → (D → DiskState) → Self → Tree → Parameters
        → Outside D Self.Reads Self.Writes → Outcome D Self.Reads Self.Writes → Type 0 };

    /// Does it, and gives the disk back.
    fn work<D: Disk>(self, store: Store<D>) -> Outcome<D, Self::Reads, Self::Writes>
        requires { IsReady D.state store }
        ensures { WorksOnStore D.state Self.Reads.state Self.Writes.state (word self)
            (keeps D D.state self) (does D D.state self) (given self) store result };

    /// Gives up, since the image was not opened: what it was made of is as it was.
    fn give_up<D: Disk>(self, fault: AttachFault, disk: D) -> Outcome<D, Self::Reads, Self::Writes>
        ensures gives { result ≡ idle_with (attach_status fault) disk (given self) }
        ensures unopened { (before : D) → IsRefused (D.state before) fault (D.state disk)
            → IsUnopened D.state (word self) (keeps D D.state self) (does D D.state self)
            (given self) before fault disk };
}

/// Opens an image, and does a work with its store.
pub fn open_for<D: Disk, J: StoreWork>(
    alloc: Global,
    disk: D,
    work: J,
) -> Outcome<D, J::Reads, J::Writes>
    ensures works { Works D.state (J.word work) (J.keeps D D.state work)
        (J.does D D.state work) (around disk (J.given work)) result }
    ensures outside { KeepsOutside result.status (D.state disk)
        (D.state result.disk) (J.Reads.state (J.given work).0)
        (J.Reads.state result.source) (J.Writes.state (J.given work).1)
        (J.Writes.state result.sink) }
{
    match Store::attach(alloc, disk) {
        Ok(store) => work.work(store),
        Err((fault, disk)) => work.give_up(fault, disk),
    }
}
