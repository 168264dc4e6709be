//! Making directories, and removing files and empty directories. A command is tested before a pair changes.

ghost use Rattle.store_model.specs.Commands.Command.{Make, Remove};
ghost use Rattle.store_model.specs.Commands.Reply.{Acknowledged};
ghost use Rattle.ordered_pairs.specs.PairsState.{IsObservable};
ghost use Rattle.tree_pairs.specs.TreeCalls.{CarriesOut, HasRoom};
ghost use Rattle.dir_tree.specs.RefusalCalls.{TellsRefusal, TellsChild};

use crate::subtree::{next_within, take_subtree};
use ordered_pairs::OrderedPairs;
use path_keys::Path;
use store_base::{Answer, Fault};
use store_model::Refusal;
use tree_pairs::{Kind, directory_value, kind_of};

/// Makes a directory.
///
/// It is refused, in this order: `Root` for the root, `Parent` where the parent is neither the root nor a directory,
/// `Exists` where something stands there. A refusal changes nothing. A fault of the pairs is handed on; nothing is
/// promised of the pairs after it.
pub fn make<P: OrderedPairs>(pairs: &mut P, path: &Path) -> Result<Answer<()>, Fault>
    requires room { HasRoom (P.state pairs.old) }
    ensures call { CarriesOut (λ _. Acknowledged) (Make path.now) (P.state pairs.old)
        (P.state pairs.new) result }
    ensures follows { P.follows pairs.old pairs.new }
{
    if let Some(refusal) = refusal_to_make(pairs, path)? {
        return Ok(Err(refusal));
    }
    pairs.put(path.key(0), directory_value())?;
    Ok(Ok(()))
}

/// Says why `make` would refuse to make a directory at the path, if it would: `Root`, `Parent` or `Exists`. A move to
/// the path is tested by it too. The pairs stay as they were, also after a fault, which is handed on.
pub fn refusal_to_make<P: OrderedPairs>(
    pairs: &mut P,
    path: &Path,
) -> Result<Option<Refusal>, Fault>
    ensures call { TellsRefusal (Make path.now) (P.state pairs.old) (P.state pairs.new) result }
    ensures hidden { IsObservable (P.state pairs.new) → IsObservable (P.state pairs.old) }
    ensures follows { P.follows pairs.old pairs.new }
{
    let Some(parent) = path.parent() else {
        return Ok(Some(Refusal::Root));
    };
    if kind_of(pairs, &parent)? != Some(Kind::Directory) {
        return Ok(Some(Refusal::Parent));
    }
    match kind_of(pairs, path)? {
        None => Ok(None),
        Some(_) => Ok(Some(Refusal::Exists)),
    }
}

/// Removes a file or an empty directory, with its attributes.
///
/// It is refused, in this order: `Root` for the root, `Missing` where nothing stands there, `NotEmpty` where a
/// directory with a child does. A refusal changes nothing. A fault of the pairs is handed on; nothing is promised of
/// the pairs after it.
pub fn remove<P: OrderedPairs>(pairs: &mut P, path: &Path) -> Result<Answer<()>, Fault>
    ensures call { CarriesOut (λ _. Acknowledged) (Remove path.now) (P.state pairs.old)
        (P.state pairs.new) result }
    ensures follows { P.follows pairs.old pairs.new }
{
    if let Some(refusal) = refusal_to_remove(pairs, path)? {
        return Ok(Err(refusal));
    }
    take_subtree(pairs, path)?;
    Ok(Ok(()))
}

/// Why what stands at the path is not removed, if it is refused.
fn refusal_to_remove<P: OrderedPairs>(pairs: &mut P, path: &Path) -> Result<Option<Refusal>, Fault>
    ensures call { TellsRefusal (Remove path.now) (P.state pairs.old) (P.state pairs.new) result }
    ensures follows { P.follows pairs.old pairs.new }
{
    if path.is_root() {
        return Ok(Some(Refusal::Root));
    }
    let Some(kind) = kind_of(pairs, path)? else {
        return Ok(Some(Refusal::Missing));
    };
    match kind {
        Kind::File(_) => Ok(None),
        Kind::Directory => Ok(has_child(pairs, path)?.then_some(Refusal::NotEmpty)),
    }
}

/// Whether anything stands below a directory.
fn has_child<P: OrderedPairs>(pairs: &mut P, path: &Path) -> Result<bool, Fault>
    ensures call { TellsChild path.now (P.state pairs.old) (P.state pairs.new) result }
    ensures follows { P.follows pairs.old pairs.new }
{
    Ok(next_within(pairs, &path.below(), path)?.is_some())
}
