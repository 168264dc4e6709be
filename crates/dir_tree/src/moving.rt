//! Moving a path with all that lies below it, attributes among it. Each is tested before a pair changes.

ghost use Rattle.std.specs.Prelude.{IsTrue};
ghost use Rattle.store_model.specs.Paths.{is_path};
ghost use Rattle.store_model.specs.Commands.Command.{Rename};
ghost use Rattle.store_model.specs.Commands.Reply.{Acknowledged};
ghost use Rattle.tree_pairs.specs.TreeCalls.{CarriesOut};
ghost use Rattle.dir_tree.specs.RefusalCalls.{TellsRefusal};
ghost use Rattle.dir_tree.specs.MoveCalls.{TellsGrowth, MovesPair, MovesSubtree};

use crate::{next_within, refusal_to_make};
use ordered_pairs::OrderedPairs;
use path_keys::{Path, last_at, replant};
use store_base::{Answer, Fault, Key};
use store_model::Refusal;
use tree_pairs::kind_of;

/// Moves what stands at `from`, and all that lies below it, to `to`. Attributes move with their paths.
///
/// It is refused, in this order: `Root` where either is the root, `Missing` where nothing stands at `from`, `Inside`
/// where `to` lies below `from`, `Parent` where the parent of `to` is neither the root nor a directory, `Exists`
/// where something stands at `to`, `Path` where a moved path, or an attribute of one, would have a field of more than
/// 120 bytes. Each is tested before a pair changes, so a refusal changes nothing. A fault of the pairs is handed on;
/// nothing is promised of the pairs after it.
pub fn rename<P: OrderedPairs>(pairs: &mut P, from: &Path, to: &Path) -> Result<Answer<()>, Fault>
    ensures call { CarriesOut (λ _. Acknowledged) (Rename from.now to.now) (P.state pairs.old)
        (P.state pairs.new) result }
    ensures follows { P.follows pairs.old pairs.new }
{
    if let Some(refusal) = refusal_to_rename(pairs, from, to)? {
        return Ok(Err(refusal));
    }
    move_subtree(pairs, from, to)?;
    Ok(Ok(()))
}

/// Why nothing is moved, if it is refused.
fn refusal_to_rename<P: OrderedPairs>(
    pairs: &mut P,
    from: &Path,
    to: &Path,
) -> Result<Option<Refusal>, Fault>
    ensures call { TellsRefusal (Rename from.now to.now) (P.state pairs.old)
        (P.state pairs.new) result }
    ensures valid { IsTrue (is_path to.now) }
    ensures follows { P.follows pairs.old pairs.new }
{
    if to.is_root() || from.is_root() {
        return Ok(Some(Refusal::Root));
    }
    if kind_of(pairs, from)?.is_none() {
        return Ok(Some(Refusal::Missing));
    }
    if to.is_inside(from) {
        return Ok(Some(Refusal::Inside));
    }
    if let Some(refusal) = refusal_to_make(pairs, to)? {
        return Ok(Some(refusal));
    }
    Ok(outgrows(pairs, from, to)?.then_some(Refusal::Path))
}

/// Whether a path at `from` or below it, or an attribute of one, would be too long, were it moved. The walk jumps past
/// the blocks of each.
fn outgrows<P: OrderedPairs>(pairs: &mut P, from: &Path, to: &Path) -> Result<bool, Fault>
    ensures call { TellsGrowth from.now to.now (P.state pairs.old) (P.state pairs.new) result }
    ensures follows { P.follows pairs.old pairs.new }
{
    let mut next = from.key(0);
    for _ in 0..u32::MAX {
        let Some(found) = next_within(pairs, &next, from)? else {
            return Ok(false);
        };
        if replant(&found, from, to).is_none() {
            return Ok(true);
        }
        next = last_at(&found);
    }
    Ok(false)
}

/// Moves the pairs at `from` and below it to `to`, one after another.
fn move_subtree<P: OrderedPairs>(pairs: &mut P, from: &Path, to: &Path) -> Result<(), Fault>
    ensures call { MovesSubtree from.now to.now (P.state pairs.old) (P.state pairs.new) result }
    ensures follows { P.follows pairs.old pairs.new }
{
    let first = from.key(0);
    for _ in 0..u32::MAX {
        let Some(found) = next_within(pairs, &first, from)? else {
            break;
        };
        move_pair(pairs, &found, from, to)?;
    }
    Ok(())
}

/// Moves one pair at `from` or below it.
fn move_pair<P: OrderedPairs>(pairs: &mut P, key: &Key, from: &Path, to: &Path) -> Result<(), Fault>
    ensures call { MovesPair key.now from.now to.now (P.state pairs.old)
        (P.state pairs.new) result }
    ensures follows { P.follows pairs.old pairs.new }
{
    let Some(moved) = replant(key, from, to) else {
        return Ok(());
    };
    if let Some(value) = pairs.take(key)? {
        pairs.put(moved, value)?;
    }
    Ok(())
}
