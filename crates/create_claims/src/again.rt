//! An image that is made of a folder, and then made on the host again.

ghost use Rattle.std.specs.Prelude.{◌≡◌, false, OnOk, Ok};
ghost use Rattle.store_model.specs.declared.version.Version.TheVariants.{Two};
ghost use Rattle.store_model.specs.Parameters.{image_len};
ghost use Rattle.tree_writer.specs.Faults.{WasNone};
ghost use Rattle.create_claims.specs.Rounds.{GivesAgain};

use disk_model::Disk;
use host_builder::{Builder, Wanted};
use host_folders::{Folder, Found};
use image_create::{CreateFault, Created, Plan, create};
use image_extract::{ExtractFault, Extracted, extract};
use std::alloc::Global;
use thiserror::Error;

/// Where the tree of an image is made again, and how much of it is wanted there.
pub struct Target<B: Builder> {
    /// The builder, which made no link before.
    pub builder: B,
    /// How much of the tree the host is to have.
    pub wanted: Wanted,
}

/// Why not all was made.
#[derive(Clone, Copy, Debug, Error)]
pub enum AgainFault {
    /// No image was made.
    #[error("no image was made: {0}")]
    Create(CreateFault),
    /// The tree was not made again.
    #[error("nothing was made of the image: {0}")]
    Extract(ExtractFault),
}

/// What is handed back.
pub struct Again<D: Disk, F: Folder, B: Builder> {
    /// The disk of the image.
    pub disk: D,
    /// The folder.
    pub folder: F,
    /// The builder.
    pub builder: B,
    /// Whether both were made.
    pub done: Result<(), AgainFault>,
}

/// Makes the disk the image of a folder, and then makes all of the image's tree on the host.
///
/// Where both end well, a builder that held nothing holds just what the host can have of the tree that the folder told,
/// and was told of each entry that is left out.
pub fn create_then_extract<D: Disk, F: Folder, B: Builder>(
    alloc: Global,
    disk: D,
    folder: F,
    found: Vec<Found>,
    plan: Plan,
    target: Target<B>,
) -> Again<D, F, B>
    requires size { (D.state disk).size ≡ image_len plan.params.slots }
    requires version { plan.params.version ≡ Two }
    requires levels { plan.levels ≡ plan.params }
    requires links { (B.state target.builder).has_links ≡ false }
    ensures again { WasNone (D.state disk) → OnOk result.done (GivesAgain target.wanted found.items
        (F.state folder) (F.state result.folder) (B.state target.builder) (B.state result.builder)) }
{
    let Target { builder, wanted } = target;
    let Created { disk, folder, done } = create(alloc, disk, folder, found, plan);
    match done {
        Ok(()) => {}
        Err(fault) => {
            return Again {
                disk,
                folder,
                builder,
                done: Err(AgainFault::Create(fault)),
            };
        }
    }
    let Extracted {
        disk,
        builder,
        stays: _,
        done,
    } = extract(alloc, disk, builder, wanted, &[]);
    Again {
        disk,
        folder,
        builder,
        done: extracted(done),
    }
}

/// Whether both were made where the first was.
fn extracted(done: Result<(), ExtractFault>) -> Result<(), AgainFault>
    ensures { OnOk result (done ≡ Ok tt) }
{
    match done {
        Ok(()) => Ok(()),
        Err(fault) => Err(AgainFault::Extract(fault)),
    }
}
