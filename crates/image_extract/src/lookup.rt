//! Whether something stands at the paths of a store's tree.

ghost use Rattle.std.specs.Prelude.{◌≡◌, false, IfOk};
ghost use Rattle.store_model.specs.Trees.{IsTree, exists};
ghost use Rattle.disk_model.specs.DiskState.{IsObservable};
ghost use Rattle.image_extract.specs.Lookups.{AsksStore, IsFirstMissing, IsNumber, has_key};

use disk_model::Disk;
use image_reads::{ReadFault, store_fault};
use path_keys::Path;
use store_base::{Key, Value};
use store_core::Store;

/// The number of the first of the paths at which nothing stands in a store's tree, if there is one. The store is
/// searched once for each path up to it.
pub(crate) fn first_missing<R: Disk>(
    store: &mut Store<R>,
    paths: &[Path],
) -> Result<Option<usize>, ReadFault>
    requires { store.old.is_stopped ≡ false }
    ensures asks { AsksStore R.state store.old store.new result }
    ensures number { IfOk result (IsNumber paths.now) }
    ensures told { IsTree store.old.tree → IsObservable (R.state store.old.disk)
        → IfOk result (IsFirstMissing store.old.tree paths.now) }
{
    for (number, path) in paths.iter().enumerate() {
        if !stands(store, path)? {
            return Ok(Some(number));
        }
    }
    Ok(None)
}

/// Whether something stands at a path of a store's tree. The store is searched once.
fn stands<R: Disk>(store: &mut Store<R>, path: &Path) -> Result<bool, ReadFault>
    requires { store.old.is_stopped ≡ false }
    ensures asks { AsksStore R.state store.old store.new result }
    ensures told { IsTree store.old.tree → IsObservable (R.state store.old.disk)
        → IfOk result (λ stands. stands ≡ exists store.old.tree path.now) }
{
    let key = path.key(0);
    match store.next_pair(&key) {
        Ok(found) => Ok(path.is_root() | is_at(&found, &key)),
        Err(fault) => Err(store_fault(Some(fault))),
    }
}

/// Whether a pair was found and has this key.
fn is_at(found: &Option<(Key, Value)>, key: &Key) -> bool
    ensures { result ≡ has_key key.now found.now }
{
    match found {
        Some((there, _)) => there == key,
        None => false,
    }
}
