//! The word that puts the tree of a source over that of an image.

ghost use Rattle.std.specs.Prelude.{◌≡◌, List, [], IsTrue};
ghost use Rattle.store_model.specs.Paths as model;
ghost use Rattle.store_model.specs.Paths.{is_path};
ghost use Rattle.store_model.specs.Trees.{IsTree, empty_tree};
ghost use Rattle.tree_changes.specs.Puts.{fresh_of};
ghost use Rattle.image_puts.specs.PutChanges.{HasPutAt, FailsPut, KeepsPut};
ghost use Rattle.image_puts.specs.Puts.{IsPutWhole, IsPutRefused, PutsOver};

use crate::fault::PutFault;
use crate::put_changes::PutChanges;
use disk_model::Disk;
use dump_streams::DumpStream;
use image_changes::{Outcome, outcome_of};
use path_keys::Path;
use store_core::{ApplyFault, Store};

/// Puts the tree of a source over that of a store, with `to` for its root, all of it or nothing. `replaces`: files take
/// the place of files, whole; else every one that is there already is refused.
///
/// `fresh` are the directories of the source whose attributes are set: those, of the ones the caller wants them of, at
/// whose places no directory stands. With none of them every directory comes bare.
///
/// The source is given back with what it told. Refused is a path at which a file and a directory meet (`Kind`, and
/// `Exists` where the file stood there), a file that `Exists` and is not replaced, attributes for which the image's
/// version or their path has no room. The inner fault is why the source was not put to its end. After a fault the tree
/// is as it was, as of `Store::apply_stream`.
pub fn put<D: Disk, S: DumpStream>(
    store: &mut Store<D>,
    source: S,
    to: &Path,
    fresh: Vec<Path>,
    replaces: bool,
) -> (S, Result<Result<Outcome, PutFault>, ApplyFault>)
    requires { S.came source empty_tree }
    ensures call { (listed : List model.Path) → fresh.items ≡ fresh_of to.now listed store.old.tree
        → PutsOver D.state (IsPutWhole (S.whole result.0) replaces to.now listed)
        (IsPutRefused (S.came result.0) replaces store.old.params to.now listed)
        (FailsPut S.came S.fails result.0 to.now) store.old store.new result.1 }
    ensures keeps { (start : S) → S.keeps start source → S.keeps start result.0 }
{
    let _params = store.params();
    to.is_root();
    let mut changes = PutChanges::new(source, to, fresh, replaces);
    let result = carry_out(store, &mut changes);
    (changes.into_source(), result)
}

/// Carries out the changes of a put, and says how it ended.
fn carry_out<D: Disk, S: DumpStream>(
    store: &mut Store<D>,
    changes: &mut PutChanges<S>,
) -> Result<Result<Outcome, PutFault>, ApplyFault>
    requires { HasPutAt S.came changes.old [] }
    ensures call { (listed : List model.Path) → IsTree store.old.tree → IsTrue (is_path changes.old.to)
        → changes.old.fresh.items ≡ fresh_of changes.old.to listed store.old.tree
        → PutsOver D.state (IsPutWhole (S.whole changes.new.source) changes.old.replaces changes.old.to listed)
        (IsPutRefused (S.came changes.new.source) changes.old.replaces store.old.params changes.old.to listed)
        (FailsPut S.came S.fails changes.new.source changes.old.to) store.old store.new result }
    ensures keeps { (start : PutChanges S) → KeepsPut S.keeps start changes.old → KeepsPut S.keeps start changes.new }
{
    match store.apply_stream(changes)? {
        Ok(answer) => Ok(Ok(outcome_of(changes.last(), answer))),
        Err(fault) => Ok(Err(fault)),
    }
}
