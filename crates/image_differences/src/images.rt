//! How an image differs from another.

ghost use Rattle.std.specs.Prelude.{◌≡◌, false, IfOk, IfErr};
ghost use Rattle.disk_model.specs.DiskState.{IsObservable};
ghost use Rattle.recovered_store.specs.BelowDisks.{IsUntouched};
ghost use Rattle.image_reads.specs.StoreReads.{IsOnlyRead};
ghost use Rattle.image_differences.specs.Compared.{TellTrees};
ghost use Rattle.image_differences.specs.Images as model;
ghost use Rattle.image_differences.specs.Images.{TellImages, AreUncompared, AreStoresUncompared};

use disk_model::Disk;
use dump_diff::{CompareFault, Differences, compare};
use image_reads::{ReadFault, below, store_fault, unopened};
use recovered_store::attach_recovered;
use std::alloc::Global;
use store_base::Params;
use store_core::{ApplyFault, Store};
use store_stream::StoreStream;
use thiserror::Error;

/// Why two images were not compared.
#[derive(Clone, Copy, Debug, PartialEq, Eq, Error)]
pub enum ImagesFault {
    /// The first was not read to its end.
    #[error("the first image: {0}")]
    First(ReadFault),
    /// The second was not read to its end.
    #[error("the second image: {0}")]
    Second(ReadFault),
    /// A disk gave more than an image has, though it was found whole before: its bytes changed meanwhile.
    #[error("an image changed while it was read")]
    Changed,
    /// Memory ran out for the differences.
    #[error("out of memory")]
    NoMemory,
}

/// How two images differ.
#[derive(Debug, Drop)]
pub struct ImageDifferences {
    /// How their trees differ, in all attributes too.
    pub trees: Differences,
    /// The parameters of the first.
    pub first: Params,
    /// The parameters of the second.
    pub second: Params,
}

/// What is handed back of two images that were compared.
pub struct ImagesCompared<D: Disk, E: Disk> {
    /// The disk of the first, which was only read.
    pub first: D,
    /// The disk of the second, which was only read.
    pub second: E,
    /// How they differ.
    pub found: Result<ImageDifferences, ImagesFault>,
}

/// Finds how two images differ, each as recovery would leave it. No mark is found exactly where their trees are equal;
/// where their parameters are equal too, recovery would leave the same image of both. Both disks are only read: first
/// each is checked whole, and then each pair of both is pulled once. Of the differences it keeps a path and an
/// attribute's name each, and of the images no more than a step.
///
/// `First`, `Second`: that image is to blame, for this reason; only `Disk` says that a call of its disk failed.
/// `Changed`: one of them was written meanwhile.
pub fn compare_images<D: Disk, E: Disk>(alloc: Global, first: D, second: E) -> ImagesCompared<D, E>
    ensures compares { IfOk result.found (λ found. IsObservable (D.state first) → IsObservable (E.state second)
        → TellImages (D.state first).bytes (E.state second).bytes found) }
    ensures failed { IfErr result.found (AreUncompared (D.state first) (D.state result.first)
        (E.state second) (E.state result.second)) }
    ensures first { IsObservable (D.state first) → IsUntouched (D.state first) (D.state result.first) }
    ensures second { IsObservable (E.state second) → IsUntouched (E.state second) (E.state result.second) }
{
    let one = match attach_recovered(alloc, first) {
        Ok(one) => one,
        Err((fault, first)) => {
            return ImagesCompared {
                first,
                second,
                found: Err(ImagesFault::First(unopened(fault))),
            };
        }
    };
    let other = match attach_recovered(alloc, second) {
        Ok(other) => other,
        Err((fault, second)) => {
            return ImagesCompared {
                first: below(one),
                second,
                found: Err(ImagesFault::Second(unopened(fault))),
            };
        }
    };
    let (one, other, found) = compare_stores(alloc, one, other);
    ImagesCompared {
        first: below(one),
        second: below(other),
        found,
    }
}

/// Finds how the images of two stores differ.
fn compare_stores<R: Disk, S: Disk>(
    alloc: Global,
    first: Store<R>,
    second: Store<S>,
) -> (Store<R>, Store<S>, Result<ImageDifferences, ImagesFault>)
    requires first_runs { first.is_stopped ≡ false }
    requires second_runs { second.is_stopped ≡ false }
    ensures first { IsOnlyRead (R.state first.disk) (R.state result.0.disk) }
    ensures second { IsOnlyRead (S.state second.disk) (S.state result.1.disk) }
    ensures found { IfOk result.2 (λ found. IsObservable (R.state first.disk) → IsObservable (S.state second.disk)
        → TellTrees first.tree second.tree found.trees) }
    ensures params { IfOk result.2
        (λ found. (found.first ≡ first.params) × (found.second ≡ second.params)) }
    ensures failed { IfErr result.2 (AreStoresUncompared (R.state first.disk) (R.state result.0.disk)
        (S.state second.disk) (S.state result.1.disk)) }
{
    let (first_params, second_params) = (*first.params(), *second.params());
    let mut one = StoreStream::new(first);
    let mut other = StoreStream::new(second);
    let compared = compare(alloc, &mut one, &mut other);
    let (fault, other_fault) = (one.fault(), other.fault());
    let found = found_of(compared, first_params, second_params, fault, other_fault);
    (one.into_store(), other.into_store(), found)
}

/// What is found of two images whose streams were compared so, and whose stores told these faults.
fn found_of(
    compared: Result<Differences, CompareFault>,
    first: Params,
    second: Params,
    fault: Option<ApplyFault>,
    other_fault: Option<ApplyFault>,
) -> Result<ImageDifferences, ImagesFault>
    ensures { result ≡ model.images_found first second compared fault other_fault }
{
    match compared {
        Ok(trees) => Ok(ImageDifferences {
            trees,
            first,
            second,
        }),
        Err(cause) => Err(images_fault(cause, fault, other_fault)),
    }
}

/// Why two images are not compared whose streams ended so, where their stores told these faults.
fn images_fault(
    fault: CompareFault,
    first: Option<ApplyFault>,
    second: Option<ApplyFault>,
) -> ImagesFault
    ensures { result ≡ model.images_fault fault first second }
{
    match fault {
        CompareFault::First(_) => ImagesFault::First(store_fault(first)),
        CompareFault::Second(_) => ImagesFault::Second(store_fault(second)),
        CompareFault::TooLong => ImagesFault::Changed,
        CompareFault::NoMemory(_) => ImagesFault::NoMemory,
    }
}
