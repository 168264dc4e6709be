//! The removal of paths.

ghost use Rattle.std.specs.Prelude.{◌≡◌};
ghost use Rattle.tree_changes.specs.Removals.{AreInOrder, IsRemoved, IsUnremoved};
ghost use Rattle.image_changes.specs.Removals as model;
ghost use Rattle.image_changes.specs.Removals.{HaveSame};
ghost use Rattle.image_changes.specs.Words.{Changes};

use crate::outcome::{Outcome, outcome_of};
use crate::path_changes::{PathChange, PathChanges};
use disk_model::Disk;
use path_keys::Path;
use store_core::{ApplyFault, Store, When};

/// How paths are removed.
#[derive(Clone, Copy, Debug, PartialEq, Eq)]
pub struct Removal {
    /// Each with all below it. Else a directory that has a child is refused.
    pub recursive: bool,
    /// What is missing is passed over. Else it is refused.
    pub forced: bool,
}

/// Removes paths from a store, all of them or none. Each is judged by the tree as it was, whatever the others are: so
/// one may lie below another, or stand in the list twice. Its order does not matter.
///
/// Refused are the root, `Missing` paths unless `forced`, and `NotEmpty` directories unless `recursive`. After a fault
/// the tree is as it was, as of `Store::apply_stream`.
pub fn remove<D: Disk>(
    store: &mut Store<D>,
    paths: Vec<Path>,
    removal: Removal,
) -> Result<Outcome, ApplyFault>
    ensures { Changes D.state (IsRemoved removal.recursive removal.forced paths.items)
        (IsUnremoved removal.recursive removal.forced paths.items) store.old store.new result }
{
    let _params = store.params();
    let paths = in_order(paths, removal.recursive);
    let mut changes = PathChanges::new(paths, kind_of(removal), when_of(removal));
    match store.apply_stream(&mut changes)? {
        Ok(answer) => Ok(outcome_of(changes.last(), answer)),
        Err(()) => unreachable!(),
    }
}

/// The paths of a removal, each once, in the order in which each is judged by the tree as it was: with all below it the
/// lower path goes first, and else the upper one.
fn in_order(mut paths: Vec<Path>, recursive: bool) -> Vec<Path>
    ensures order { AreInOrder recursive result.items }
    ensures named { HaveSame paths.items result.items }
{
    paths.sort_unstable();
    paths.dedup();
    if recursive {
        paths.reverse();
    }
    paths
}

/// What a removal does at a path.
fn kind_of(removal: Removal) -> PathChange
    ensures { result ≡ model.kind_of removal.recursive }
{
    if removal.recursive {
        PathChange::Prune
    } else {
        PathChange::Remove
    }
}

/// Where it does so.
fn when_of(removal: Removal) -> When
    ensures { result ≡ model.when_of removal.forced }
{
    if removal.forced {
        When::Exists
    } else {
        When::Always
    }
}
