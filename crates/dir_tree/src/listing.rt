//! The children of a directory.

ghost use Rattle.store_model.specs.Commands.Command.{ListChildren};
ghost use Rattle.store_model.specs.Commands.Reply.{Listing};
ghost use Rattle.tree_pairs.specs.TreeCalls.{CarriesOut, KeepsPairs};
ghost use Rattle.dir_tree.specs.ListCalls.{FindsChild, ListsChildren, TellsSize};

use crate::subtree::next_within;
use ordered_pairs::OrderedPairs;
use path_keys::Path;
use std::alloc::Global;
use store_base::{Answer, Entries, Fault, Key};
use store_model::Refusal;
use tree_pairs::{Kind, kind_of};

/// Lists the children of a directory or of the root, in the order of their names.
///
/// It is refused, in this order: `Missing` where nothing stands there, `Kind` where a file does. The pairs stay as they
/// were, also after a fault of the pairs, which is handed on, and after want of memory.
pub fn list<P: OrderedPairs>(
    alloc: Global,
    pairs: &mut P,
    path: &Path,
) -> Result<Answer<Entries>, Fault>
    ensures call { CarriesOut Listing (ListChildren path.now) (P.state pairs.old)
        (P.state pairs.new) result }
    ensures keeps { KeepsPairs (P.state pairs.old) (P.state pairs.new) }
    ensures follows { P.follows pairs.old pairs.new }
{
    let Some(kind) = kind_of(pairs, path)? else {
        return Ok(Err(Refusal::Missing));
    };
    match kind {
        Kind::File(_) => Ok(Err(Refusal::Kind)),
        Kind::Directory => Ok(Ok(children(alloc, pairs, path)?)),
    }
}

/// Lists the children of a directory. Each is the first path behind the one before it and all that lies below that.
fn children<P: OrderedPairs>(alloc: Global, pairs: &mut P, path: &Path) -> Result<Entries, Fault>
    ensures call { ListsChildren path.now (P.state pairs.old) (P.state pairs.new) result }
    ensures follows { P.follows pairs.old pairs.new }
{
    let mut entries = Entries::new(alloc);
    let mut from = path.below();
    for _ in 0..u32::MAX {
        let Some(child) = next_child(pairs, &from, path)? else {
            return Ok(entries);
        };
        let size = size_of(pairs, &child)?;
        entries.push(child.name(), size)?;
        from = child.past();
    }
    Ok(entries)
}

/// The child of a directory that has the first pair from a key on; the key lies between two children, or before or
/// behind them all. The pairs stay as they were, also after a fault, which is handed on.
fn next_child<P: OrderedPairs>(
    pairs: &mut P,
    from: &Key,
    path: &Path,
) -> Result<Option<Path>, Fault>
    ensures call { FindsChild from.now path.now (P.state pairs.old) (P.state pairs.new) result }
    ensures follows { P.follows pairs.old pairs.new }
{
    let Some(key) = next_within(pairs, from, path)? else {
        return Ok(None);
    };
    match Path::of_key(&key) {
        Some(found) => Ok(Some(found.0)),
        None => Ok(None),
    }
}

/// The size of a file, and nothing for a directory.
fn size_of<P: OrderedPairs>(pairs: &mut P, path: &Path) -> Result<Option<u32>, Fault>
    ensures call { TellsSize path.now (P.state pairs.old) (P.state pairs.new) result }
    ensures follows { P.follows pairs.old pairs.new }
{
    match kind_of(pairs, path)? {
        Some(Kind::File(size)) => Ok(Some(size)),
        _ => Ok(None),
    }
}
