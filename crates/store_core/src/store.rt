//! The store, and what is asked of it between two commands.

ghost use Rattle.std.specs.Prelude.{◌≡◌, ◌↔◌, IsTrue, false};
ghost use Rattle.store_model.specs.Trees.{empty_tree};
ghost use Rattle.store_model.specs.Pages.{page_count};
ghost use Rattle.disk_model.specs.DiskState.{IsObservable};
ghost use Rattle.image_check.specs.Standing.{IsFitting, Stands};

use crate::known::KnownTree;
use disk_model::Disk;
use staged_tree::TreeList;
use std::alloc::Global;
use std::marker::Model;
use store_base::Params;

/// A store in an image. Contracts see it as one record: the parameters, the tree, the disk, and whether it is stopped.
///
/// An observable disk under a store that is not stopped reads the layout of the tree, and nothing is pending.
pub struct Store<D: Disk> {
    pub(crate) alloc: Global,
    pub(crate) known: KnownTree<D>,
    /// The list over the pages on the disk, nothing staged.
    pub(crate) pairs: TreeList<D>,
}

impl<D: Disk> Model for Store<D> {
    ghost use Rattle.store_core.specs.StoreState.{StoreState};
    ghost use Rattle.store_core.specs.StoreFields.{HoldsKnown};

    ghost Value = { StoreState D };

    ghost view = { λ s. record {
      params = s.known.params;
      tree = s.known.tree;
      disk = s.pairs.pages.disk;
      is_stopped =
          s.pairs.pages.is_spent;
    } };

    ghost invariant = { λ s. HoldsKnown D.state s.known s.pairs };
}

impl<D: Disk> Store<D> {
    /// Whether it is stopped: a fault came at a write or a sync of a command, or after one. A stopped store carries
    /// out nothing: attach its disk anew.
    pub fn is_stopped(&self) -> bool
        ensures value { result ≡ self.now.is_stopped }
        ensures stands { IsObservable (D.state self.now.disk) → self.now.is_stopped ≡ false
            → Stands (D.state self.now.disk) self.now.tree self.now.params }
    {
        self.pairs.pages.is_spent()
    }

    /// The parameters of the image.
    pub fn params(&self) -> &Params
        ensures value { result.now ≡ self.now.params }
        ensures fitting { IsFitting self.now.tree self.now.params }
    {
        self.known.params()
    }

    /// How many slots are used: as many as the tree has pages, on an observable disk and while the store is not
    /// stopped.
    pub fn used(&self) -> u32
        ensures { IsObservable (D.state self.now.disk) → self.now.is_stopped ≡ false
            → result ≡ page_count self.now.tree self.now.params }
    {
        self.pairs.pages.used()
    }

    /// Whether the tree is empty, of a store that is not stopped. Over a disk that is not observable nothing is known
    /// of the answer, and the tree counts as empty.
    pub fn is_empty(&self) -> bool
        requires { self.now.is_stopped ≡ false }
        ensures told { IsObservable (D.state self.now.disk)
            → (IsTrue result ↔ (self.now.tree ≡ empty_tree)) }
        ensures empty { IsTrue result → self.now.tree ≡ empty_tree }
    {
        self.known.reveal();
        self.used() == 0
    }

    /// The disk.
    pub fn disk(&self) -> &D
        ensures { result.now ≡ self.now.disk }
    {
        self.pairs.pages.disk()
    }

    /// Gives the disk back.
    pub fn into_disk(self) -> D
        ensures { result ≡ self.disk }
    {
        let Store {
            alloc: _,
            known: _,
            pairs,
        } = self;
        pairs.into_pages().into_disk()
    }
}
