//! How a disk becomes a store: its image is checked as recovery would leave it, and then recovered.

ghost use Rattle.std.specs.Prelude.{◌≡◌, [], false};
ghost use Rattle.store_model.specs.Trees.{Tree};
ghost use Rattle.store_core.specs.Opening.{ChecksSynced, IsOpenAt, IsOpenTo};
ghost use Rattle.store_core.specs.StoreCalls.{Attaches};

use crate::known::KnownTree;
use crate::store::Store;
use disk_model::Disk;
use gate_journal::Journal;
use image_check::{AttachFault, Contents, find_image};
use page_store::{SlotCache, Staged};
use seeded_draw::AnyDraw;
use skip_levels::SkipList;
use std::alloc::Global;

/// Syncs the disk once, finds what it holds as recovery would leave it, and hands it back. Nothing is written.
fn check_image<D: Disk>(mut disk: D) -> (D, Result<Contents, AttachFault>)
    ensures { ChecksSynced (D.state disk) (D.state result.0) result.1 }
{
    if let Err(fault) = disk.sync() {
        return (disk, Err(fault.into()));
    }
    find_image(disk)
}

impl<D: Disk> Store<D> {
    /// Makes a store of a disk: checks its image whole, as recovery would leave it, and then recovers it.
    ///
    /// With a fault the disk is given back. `NotImage`: its header, as recovery would leave it, is that of no image of
    /// its length. `Damaged`: it is an image, but even recovered it would hold no tree. After these two just one sync
    /// was made. `NoMemory`: at most one was. After these three nothing was written, and a crash leaves what it might
    /// have left before. `Disk`: the disk failed. It represents the tree that it did before, if it did.
    ///
    /// An image with an empty journal takes two syncs and no write; otherwise the marked slots, the flag and each block
    /// of the journal that is not zero are written once.
    pub fn attach(alloc: Global, disk: D) -> Result<Self, (AttachFault, D)>
        ensures call { Attaches D.state (D.state disk) result }
    {
        let (mut disk, checked) = check_image(disk);
        let contents = match checked {
            Ok(contents) => contents,
            Err(fault) => return Err((fault, disk)),
        };
        let cache = match SlotCache::new(alloc) {
            Ok(cache) => cache,
            Err(fault) => return Err((fault.into(), disk)),
        };
        if let Err(fault) = Journal::recover(&mut disk, &contents.params) {
            return Err((fault.into(), disk));
        }
        Ok(Store::open(alloc, disk, contents, cache))
    }

    /// The store over a disk that stands at the tree of these contents, with a cache that keeps no slot.
    fn open(alloc: Global, disk: D, contents: Contents, cache: SlotCache) -> Self
        requires stands { IsOpenTo (D.state disk) contents }
        requires empty { cache ≡ [] }
        ensures { (t : Tree) → IsOpenAt (D.state disk) contents t → result ≡ record {
          params = contents.params;
          tree = t;
          disk = disk;
          is_stopped = false;
        } }
    {
        let params = contents.params;
        let known = KnownTree::new(params, &disk);
        let draw = AnyDraw::new(&params);
        let pages = Staged::new(alloc, disk, &params, draw, contents.used, cache);
        Store {
            alloc,
            known,
            pairs: SkipList::new(alloc, pages, draw),
        }
    }
}
