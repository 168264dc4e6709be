//! The tree of a store, of which only the fact is kept: no part of it is in memory.

ghost use Rattle.std.specs.Prelude.{◌≡◌};
ghost use Rattle.store_model.specs.declared.version.Version.TheVariants.{Two};
ghost use Rattle.store_model.specs.Parameters.{with_version};
ghost use Rattle.store_model.specs.Trees.{Tree};
ghost use Rattle.store_model.specs.Images.{layout};
ghost use Rattle.disk_model.specs.DiskState.{IsObservable};
ghost use Rattle.image_check.specs.Standing.{IsFitting};
ghost use Rattle.store_core.specs.Known.{IsKnownTree, TellsTree, TellsTree-prop, MovesOn};

use disk_model::Disk;
use std::marker::Model;
use std::snapshot::Snapshot;
use store_base::Params;
use store_model::Version;

/// The tree that a disk stood at when it was last settled, which fits. Contracts see it as that tree, with the
/// parameters that it is laid out under and that disk. It takes no memory but that of the parameters.
///
/// Of a disk that is not observable nothing is known, and the tree is the empty one.
pub struct KnownTree<D: Disk> {
    pub(crate) params: Params,
    settled: Snapshot<D>,
    ghost known: { TellsTree (D.state settled.value) params } by { TellsTree-prop (D.state settled.value) params },
}

impl<D: Disk> Model for KnownTree<D> {
    ghost use Rattle.store_core.specs.Known.{KnownState};

    ghost Value = { KnownState D };

    ghost view = { λ k. record { params = k.params; tree = k.known.0; settled = k.settled.value } };
}

impl<D: Disk> KnownTree<D> {
    /// The tree at which the disk stands.
    pub fn new(params: Params, disk: &D) -> Self
        requires { TellsTree (D.state disk.now) params }
        ensures { (t : Tree) → IsKnownTree (D.state disk.now) params t → result ≡ record {
          params = params;
          tree = t;
          settled = disk.now;
        } }
    {
        KnownTree {
            params,
            settled: Snapshot::of(disk),
        }
    }

    /// The parameters.
    pub fn params(&self) -> &Params
        ensures value { result.now ≡ self.now.params }
        ensures fitting { IsFitting self.now.tree self.now.params }
    {
        &self.params
    }

    /// Says what is known of the tree. It costs nothing.
    pub fn reveal(&self)
        ensures { IsKnownTree (D.state self.now.settled) self.now.params self.now.tree }
    {
        let _ = &self.params;
    }

    /// Goes on to the tree at which the disk stands now.
    pub fn move_on(&mut self, disk: &D)
        requires same { (D.state disk.now).is_observable
            ≡ (D.state self.old.settled).is_observable }
        requires tree { IsObservable (D.state disk.now)
            → (t : Tree) × (IsFitting t self.old.params
            × ((D.state disk.now).bytes ≡ layout t self.old.params)) }
        ensures call { MovesOn D.state disk.now self.old self.new }
    {
        self.settled = Snapshot::of(disk);
    }

    /// Goes on to the same tree under version 2, at which the disk stands now.
    pub fn upgrade(&mut self, disk: &D)
        requires same { (D.state disk.now).is_observable
            ≡ (D.state self.old.settled).is_observable }
        requires tree { IsObservable (D.state disk.now)
            → (D.state disk.now).bytes ≡ layout self.old.tree (with_version self.old.params Two) }
        ensures { self.new ≡ record {
          params = with_version self.old.params Two;
          tree = self.old.tree;
          settled = disk.now;
        } }
    {
        *self = KnownTree::new(self.params.with_version(Version::Two), disk);
    }
}

impl<D: Disk> Drop for KnownTree<D> {
    fn drop(self) {
        let Self {
            params: _,
            settled: _,
        } = self;
    }
}
