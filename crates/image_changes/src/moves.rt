//! A move of what stands at a path.

ghost use Rattle.std.specs.Prelude.{◌≡◌, Bool, IsTrue, map};
ghost use Rattle.store_model.specs.Paths.{is_path};
ghost use Rattle.store_model.specs.Trees.{IsTree};
ghost use Rattle.staged_tree.specs.Listed.{guarded_of};
ghost use Rattle.tree_changes.specs.Moves.{IsMoved, IsUnmoved, move_place};
ghost use Rattle.image_changes.specs.Moves.{move_changes};
ghost use Rattle.image_changes.specs.Outcomes.{reason_in};
ghost use Rattle.image_changes.specs.Words.{Changes};

use crate::outcome::{Outcome, outcome_of};
use disk_model::Disk;
use path_keys::Path;
use script_lines::Change;
use store_core::{ApplyFault, GroupAnswer, ListedChanges, Store, When};
use store_model::Refusal;

/// Moves what stands at a path of a store, with all below it and with the attributes, to a new path. `forced`: a file
/// that stands there is replaced whole.
///
/// Refused are the root; `Missing` at `from`; `Inside`, where `to` lies below `from`; `Parent`, where that of `to` is
/// no directory; `Exists`, where something is in the way at `to`, as also where both are one; `Path`, where a path or
/// an attribute would be too long. After a fault the tree is as it was, as of `Store::apply_stream`.
pub fn move_to<D: Disk>(
    store: &mut Store<D>,
    from: &Path,
    to: &Path,
    forced: bool,
) -> Result<Outcome, ApplyFault>
    ensures { Changes D.state (IsMoved forced from.now to.now)
        (IsUnmoved forced from.now to.now) store.old store.new result }
{
    let _params = store.params();
    to.is_root();
    let rename = (When::Always, Change::Rename(*from, *to));
    if forced && from != to {
        let changes = [(When::IsFile, Change::Remove(*to)), rename];
        carry_out(store, &changes, from, to)
    } else {
        carry_out(store, &[rename], from, to)
    }
}

/// Carries out the changes of a move, and says how it ended.
fn carry_out<D: Disk>(
    store: &mut Store<D>,
    changes: &[(When, Change)],
    from: &Path,
    to: &Path,
) -> Result<Outcome, ApplyFault>
    ensures { (forced : Bool) → IsTree store.old.tree → IsTrue (is_path to.now)
        → map guarded_of changes.now ≡ move_changes forced from.now to.now
        → Changes D.state (IsMoved forced from.now to.now) (IsUnmoved forced from.now to.now)
        store.old store.new result }
{
    let mut stream = ListedChanges::new(changes);
    match store.apply_stream(&mut stream)? {
        Ok(answer) => Ok(outcome_of(&told_place(&answer, from, to), answer)),
        Err(()) => unreachable!(),
    }
}

/// The path at which an answer refuses a move.
fn told_place(answer: &GroupAnswer, from: &Path, to: &Path) -> Path
    ensures { result ≡ move_place from.now to.now (reason_in answer.now) }
{
    match answer {
        GroupAnswer::Done => *from,
        GroupAnswer::Refused { index: _, reply } => match reply {
            Refusal::Missing => *from,
            Refusal::Root => Path::root(),
            _ => *to,
        },
    }
}
