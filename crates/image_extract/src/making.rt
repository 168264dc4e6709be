//! The tree of an image, or parts of it, made on the host.

ghost use Rattle.std.specs.Prelude.{◌≡◌, [], false, OnOk, IfErr};
ghost use Rattle.store_model.specs.Trees.{IsTree};
ghost use Rattle.disk_model.specs.DiskState.{IsObservable};
ghost use Rattle.recovered_store.specs.BelowDisks.{IsUntouched};
ghost use Rattle.store_stream.specs.Parts.{parts_at};
ghost use Rattle.image_reads.specs.StoreReads.{IsOnlyRead};
ghost use Rattle.image_extract.specs.Extracts.{asked, AllStand, Extracts, IsUnextracted, MakesStore, IsStoreUnmade};

use crate::fault::{ExtractFault, built};
use crate::lookup::first_missing;
use disk_model::Disk;
use host_builder::{Builder, Built, Wanted, build};
use image_reads::{ReadFault, below, unopened};
use path_keys::Path;
use recovered_store::attach_recovered;
use std::alloc::Global;
use store_core::Store;
use store_stream::{PartsStream, StoreStream};

/// What is handed back of an image that was to be made on the host, and how that ended.
pub struct Extracted<D: Disk, B: Builder> {
    /// The disk, which was only read.
    pub disk: D,
    /// The builder.
    pub builder: B,
    /// How much of what was made stays, though it was to be taken away; the builder told of each. 0 where all was made.
    pub stays: u64,
    /// Whether all that was asked for was made.
    pub done: Result<(), ExtractFault>,
}

/// The same of an opened store.
struct Made<R: Disk, B: Builder> {
    store: Store<R>,
    builder: B,
    stays: u64,
    done: Result<(), ExtractFault>,
}

impl<R: Disk, B: Builder> Made<R, B> {
    /// Nothing was made, for this fault.
    fn nothing(store: Store<R>, builder: B, fault: ExtractFault) -> Self
        ensures store { result.store ≡ store }
        ensures builder { result.builder ≡ builder }
        ensures stays { result.stays ≡ 0 }
        ensures done { result.done ≡ Err fault }
    {
        Made {
            store,
            builder,
            stays: 0,
            done: Err(fault),
        }
    }
}

/// Makes on the host what the tree of an image, as recovery would leave it, has at these paths and below them, at the
/// same places, and the folders that lead there, without their attributes. No paths, and the root among them, ask for
/// the whole tree. The paths may come in any order, and a path more than once or below another; all is made once, in
/// the order of the image.
///
/// `wanted` says how much of the tree the host is to have. Where no path of the image has a time, asking for times
/// changes nothing: so a caller that keeps the times of an image that has some, and only of such, asks for them.
///
/// The builder made no link before. The disk is only read: the image is checked first, and then the pairs of what was
/// asked for are pulled once, with two searches at most for each path and one for each folder that leads there. Memory
/// is taken for a copy of the paths, and for what the builder's order needs.
///
/// `Missing`: nothing stands at one of the paths. The builder was not called. After each other fault what was made is
/// taken away again. `NoName`: a path of what was asked for has none on the host, and `wanted` does not skip such.
/// `Read`: at `NotImage` and `Damaged` the builder was not called, and only at `Output` a call of it failed.
pub fn extract<D: Disk, B: Builder>(
    alloc: Global,
    disk: D,
    builder: B,
    wanted: Wanted,
    paths: &[Path],
) -> Extracted<D, B>
    requires { (B.state builder).has_links ≡ false }
    ensures extracts { Extracts wanted paths.now (D.state disk) (B.state builder)
        (B.state result.builder) result.stays result.done }
    ensures unread { IfErr result.done (IsUnextracted wanted paths.now (D.state disk) (D.state result.disk)) }
    ensures untouched { IsObservable (D.state disk) → IsUntouched (D.state disk) (D.state result.disk) }
{
    let store = match attach_recovered(alloc, disk) {
        Ok(store) => store,
        Err((fault, disk)) => {
            return Extracted {
                disk,
                builder,
                stays: 0,
                done: Err(ExtractFault::Read(unopened(fault))),
            };
        }
    };
    let Made {
        store,
        builder,
        stays,
        done,
    } = make_asked(alloc, store, builder, wanted, paths);
    Extracted {
        disk: below(store),
        builder,
        stays,
        done,
    }
}

/// Makes what paths ask for of a store's tree on the host, where something stands at each of them.
fn make_asked<R: Disk, B: Builder>(
    alloc: Global,
    mut store: Store<R>,
    builder: B,
    wanted: Wanted,
    paths: &[Path],
) -> Made<R, B>
    requires runs { store.is_stopped ≡ false }
    requires links { (B.state builder).has_links ≡ false }
    ensures read { IsOnlyRead (R.state store.disk) (R.state result.store.disk) }
    ensures makes { MakesStore (λ t. asked t paths.now) wanted (R.state store.disk) store.tree
        (B.state builder) (B.state result.builder) result.stays result.done }
    ensures stand { OnOk result.done (IsTree store.tree → IsObservable (R.state store.disk)
        → AllStand store.tree paths.now) }
    ensures unmade { IfErr result.done (IsStoreUnmade (λ t. asked t paths.now) wanted paths.now
        store.tree (R.state store.disk) (R.state result.store.disk)) }
{
    if paths.is_empty() {
        return make_all(alloc, store, builder, wanted);
    }
    match first_missing(&mut store, paths) {
        Ok(None) => make_parts(alloc, store, builder, wanted, paths),
        Ok(Some(number)) => Made::nothing(store, builder, ExtractFault::Missing(number)),
        Err(fault) => Made::nothing(store, builder, ExtractFault::Read(fault)),
    }
}

/// Makes the tree of a store on the host.
fn make_all<R: Disk, B: Builder>(
    alloc: Global,
    store: Store<R>,
    builder: B,
    wanted: Wanted,
) -> Made<R, B>
    requires runs { store.is_stopped ≡ false }
    requires links { (B.state builder).has_links ≡ false }
    ensures read { IsOnlyRead (R.state store.disk) (R.state result.store.disk) }
    ensures makes { MakesStore (λ t. t) wanted (R.state store.disk) store.tree (B.state builder)
        (B.state result.builder) result.stays result.done }
    ensures unmade { IfErr result.done (IsStoreUnmade (λ t. t) wanted [] store.tree (R.state store.disk)
        (R.state result.store.disk)) }
{
    let mut stream = StoreStream::new(store);
    let Built {
        builder,
        stays,
        done,
    } = build(alloc, &mut stream, builder, wanted);
    let done = built(done, stream.fault());
    Made {
        store: stream.into_store(),
        builder,
        stays,
        done,
    }
}

/// Makes the parts of a store's tree at these paths on the host.
fn make_parts<R: Disk, B: Builder>(
    alloc: Global,
    store: Store<R>,
    builder: B,
    wanted: Wanted,
    paths: &[Path],
) -> Made<R, B>
    requires runs { store.is_stopped ≡ false }
    requires links { (B.state builder).has_links ≡ false }
    ensures read { IsOnlyRead (R.state store.disk) (R.state result.store.disk) }
    ensures makes { MakesStore (λ t. parts_at t paths.now) wanted (R.state store.disk) store.tree
        (B.state builder) (B.state result.builder) result.stays result.done }
    ensures unmade { IfErr result.done (IsStoreUnmade (λ t. parts_at t paths.now) wanted []
        store.tree (R.state store.disk) (R.state result.store.disk)) }
{
    let Ok(mut sorted) = Vec::from_slice(alloc, paths) else {
        return Made::nothing(store, builder, ExtractFault::Read(ReadFault::NoMemory));
    };
    sorted.sort_unstable();
    let mut stream = PartsStream::new(store, &sorted);
    let Built {
        builder,
        stays,
        done,
    } = build(alloc, &mut stream, builder, wanted);
    let done = built(done, stream.fault());
    Made {
        store: stream.into_store(),
        builder,
        stays,
        done,
    }
}
