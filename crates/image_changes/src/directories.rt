//! Directories that are made.

ghost use Rattle.std.specs.Prelude.{IsTrue};
ghost use Rattle.std.specs.List.{AllByRecursion};
ghost use Rattle.store_model.specs.Paths.{is_path};
ghost use Rattle.tree_changes.specs.Folders.{AreMade, IsUnmade, AreMadeWithParents, IsInTheWay};
ghost use Rattle.image_changes.specs.Words.{Changes};

use crate::outcome::{Outcome, outcome_of};
use crate::parent_changes::ParentChanges;
use crate::path_changes::{PathChange, PathChanges};
use disk_model::Disk;
use path_keys::Path;
use store_core::{ApplyFault, Store, When};

/// Makes directories in a store, in this order, all of them or none.
///
/// Refused are the root, paths whose `Parent` is no directory when their turn comes, and paths at which something
/// `Exists` then. After a fault the tree is as it was, as of `Store::apply_stream`.
pub fn make_directories<D: Disk>(
    store: &mut Store<D>,
    paths: Vec<Path>,
) -> Result<Outcome, ApplyFault>
    ensures { Changes D.state (AreMade paths.items) (IsUnmade paths.items) store.old store.new result }
{
    let _params = store.params();
    reveal(&paths);
    let mut changes = PathChanges::new(paths, PathChange::Make, When::Always);
    match store.apply_stream(&mut changes)? {
        Ok(answer) => Ok(outcome_of(changes.last(), answer)),
        Err(()) => unreachable!(),
    }
}

/// Makes directories in a store, with all that lead to them: what stands already and is a directory stays. All of them
/// are made, or none.
///
/// Refused are paths at which a file `Exists`, those that lead to one of the list among them. After a fault the tree is
/// as it was, as of `Store::apply_stream`.
pub fn make_with_parents<D: Disk>(
    store: &mut Store<D>,
    paths: Vec<Path>,
) -> Result<Outcome, ApplyFault>
    ensures { Changes D.state (AreMadeWithParents paths.items) (IsInTheWay paths.items)
        store.old store.new result }
{
    let _params = store.params();
    reveal(&paths);
    let mut changes = ParentChanges::new(paths);
    match store.apply_stream(&mut changes)? {
        Ok(answer) => Ok(outcome_of(changes.last(), answer)),
        Err(()) => unreachable!(),
    }
}

/// That each of the paths is one.
fn reveal(paths: &[Path])
    ensures { AllByRecursion (λ q. IsTrue (is_path q)) paths.now }
{
    for path in paths {
        path.is_root();
    }
}
