//! The attributes of paths. Each has one pair; those of a path stand behind its blocks, and before all that lies below
//! it.

ghost use Rattle.std.specs.Prelude.{◌≡◌, ◌≤◌, List, ℕ, length, false};
ghost use Rattle.store_model.specs.Paths as model;
ghost use Rattle.store_model.specs.Pairs as values;
ghost use Rattle.store_model.specs.Trees.{attribute_limit};
ghost use Rattle.store_model.specs.Commands.Command.{SetAttribute, UnsetAttribute, GetAttribute, ListAttributes};
ghost use Rattle.store_model.specs.Commands.Reply.{Acknowledged, Content, AttributeListing};
ghost use Rattle.ordered_pairs.specs.PairsState.{IsObservable};
ghost use Rattle.tree_pairs.specs.TreeCalls.{CarriesOut, HasRoom, KeepsPairs};
ghost use Rattle.dir_tree.specs.AttributeCalls.{FindsAttribute, IsReadAttribute, IsSetPair, ListsAttributes};
ghost use Rattle.dir_tree.specs.RefusalCalls.{TellsRefusal};

use ordered_pairs::OrderedPairs;
use path_keys::{AttrName, Path, attr_key, last_at, of_attr_key};
use std::alloc::Global;
use store_base::{Answer, AttrEntries, Bytes, Fault, Key, Value};
use store_model::Refusal;
use tree_pairs::{ATTRIBUTE_LIMIT, attribute_in, attribute_value, kind_of};

/// Sets an attribute of a path. It replaces the path's attribute of this name, if there is one.
///
/// It is refused, in this order: `Root` for the root, `Missing` where nothing stands there, `Big` where there are more
/// than 255 bytes, `Path` where path and name need more than 120 bytes. A refusal changes nothing. A fault of the pairs
/// is handed on; nothing is promised of the pairs after it.
pub fn set_attr<P: OrderedPairs>(
    pairs: &mut P,
    path: &Path,
    name: &AttrName,
    bytes: &Bytes,
) -> Result<Answer<()>, Fault>
    requires room { HasRoom (P.state pairs.old) }
    ensures call { CarriesOut (λ _. Acknowledged)
        (SetAttribute path.now name.now bytes.now) (P.state pairs.old)
        (P.state pairs.new) result }
    ensures follows { P.follows pairs.old pairs.new }
{
    if let Some(refusal) = refusal_to_find(pairs, path)? {
        return Ok(Err(refusal));
    }
    match set_pair(path, name, bytes.as_slice()) {
        Ok(pair) => {
            pairs.put(pair.0, pair.1)?;
            Ok(Ok(()))
        }
        Err(refusal) => Ok(Err(refusal)),
    }
}

/// Takes an attribute of a path away.
///
/// It is refused, in this order: `Root` for the root, `Missing` where nothing stands there, `NoAttr` where the path has
/// no attribute of this name. A refusal changes nothing. A fault of the pairs is handed on; nothing is promised of the
/// pairs after it.
pub fn unset_attr<P: OrderedPairs>(
    pairs: &mut P,
    path: &Path,
    name: &AttrName,
) -> Result<Answer<()>, Fault>
    ensures call { CarriesOut (λ _. Acknowledged)
        (UnsetAttribute path.now name.now) (P.state pairs.old)
        (P.state pairs.new) result }
    ensures follows { P.follows pairs.old pairs.new }
{
    if let Some(refusal) = refusal_to_find(pairs, path)? {
        return Ok(Err(refusal));
    }
    let Some(key) = attr_key(path, name) else {
        return Ok(Err(Refusal::NoAttr));
    };
    match pairs.take(&key)? {
        Some(_) => Ok(Ok(())),
        None => Ok(Err(Refusal::NoAttr)),
    }
}

/// Gets the bytes of an attribute of a path.
///
/// It is refused, in this order: `Root` for the root, `Missing` where nothing stands there, `NoAttr` where the path has
/// no attribute of this name. The pairs stay as they were, also after a fault, which is handed on.
pub fn attr<P: OrderedPairs>(
    pairs: &mut P,
    path: &Path,
    name: &AttrName,
) -> Result<Answer<Bytes>, Fault>
    ensures call { CarriesOut Content (GetAttribute path.now name.now) (P.state pairs.old)
        (P.state pairs.new) result }
    ensures keeps { KeepsPairs (P.state pairs.old) (P.state pairs.new) }
    ensures follows { P.follows pairs.old pairs.new }
{
    if let Some(refusal) = refusal_to_find(pairs, path)? {
        return Ok(Err(refusal));
    }
    let Some(key) = attr_key(path, name) else {
        return Ok(Err(Refusal::NoAttr));
    };
    match pairs.get(&key)? {
        Some(value) => Ok(Ok(bytes_in(&value))),
        None => Ok(Err(Refusal::NoAttr)),
    }
}

/// Lists the attributes of a path, in the order of their names, with the number of bytes of each. Of n attributes it
/// asks the pairs n + 2 times.
///
/// It is refused, in this order: `Root` for the root, `Missing` where nothing stands there. The pairs stay as they
/// were, also after a fault of the pairs, which is handed on, and after want of memory.
pub fn attrs<P: OrderedPairs>(
    alloc: Global,
    pairs: &mut P,
    path: &Path,
) -> Result<Answer<AttrEntries>, Fault>
    ensures call { CarriesOut AttributeListing (ListAttributes path.now) (P.state pairs.old)
        (P.state pairs.new) result }
    ensures keeps { KeepsPairs (P.state pairs.old) (P.state pairs.new) }
    ensures follows { P.follows pairs.old pairs.new }
{
    match refusal_to_find(pairs, path)? {
        Some(refusal) => Ok(Err(refusal)),
        None => Ok(Ok(attributes(alloc, pairs, path)?)),
    }
}

/// Why a path's attributes are not looked for, if that is refused: the path is the root, or nothing stands there.
fn refusal_to_find<P: OrderedPairs>(pairs: &mut P, path: &Path) -> Result<Option<Refusal>, Fault>
    ensures call { TellsRefusal (ListAttributes path.now) (P.state pairs.old)
        (P.state pairs.new) result }
    ensures hidden { IsObservable (P.state pairs.new) → IsObservable (P.state pairs.old) }
    ensures follows { P.follows pairs.old pairs.new }
{
    if path.is_root() {
        return Ok(Some(Refusal::Root));
    }
    match kind_of(pairs, path)? {
        None => Ok(Some(Refusal::Missing)),
        Some(_) => Ok(None),
    }
}

/// The pair of an attribute that is to be set at a path other than the root, or why it is not set.
#[tactic(auto, unfolding(store_model::specs::Steps::first_refusal))]
fn set_pair(path: &Path, name: &AttrName, bytes: &[u8]) -> Answer<(Key, Value)>
    ensures { model.is_root path.now ≡ false → IsSetPair path.now name.now bytes.now result }
{
    if bytes.len() > ATTRIBUTE_LIMIT {
        return Err(Refusal::Big);
    }
    match attr_key(path, name) {
        Some(key) => Ok((key, attribute_value(bytes))),
        None => Err(Refusal::Path),
    }
}

/// The bytes of the attribute that has this value; none where it is no attribute's.
fn bytes_in(value: &Value) -> Bytes
    ensures value { (bytes : List ℕ) → length bytes ≤ attribute_limit
        → value.now ≡ values.attribute_value bytes → result ≡ bytes }
    ensures short { length result ≤ attribute_limit }
{
    match attribute_in(value.as_slice()) {
        Some(bytes) => Bytes::new(bytes),
        None => Bytes::new(&[]),
    }
}

/// The attributes of a path: each is the first one behind the one before it.
fn attributes<P: OrderedPairs>(
    alloc: Global,
    pairs: &mut P,
    path: &Path,
) -> Result<AttrEntries, Fault>
    ensures call { ListsAttributes path.now (P.state pairs.old) (P.state pairs.new) result }
    ensures follows { P.follows pairs.old pairs.new }
{
    let mut entries = AttrEntries::new(alloc);
    let mut from = path.key(u32::MAX);
    for _ in 0..u32::MAX {
        let Some(found) = next_attr(pairs, &from, path)? else {
            return Ok(entries);
        };
        entries.push(found.name.as_bytes(), found.size)?;
        from = last_at(&found.key);
    }
    Ok(entries)
}

/// What is read of an attribute from its pair.
#[derive(Clone, Copy)]
struct Found {
    /// The key of its pair.
    key: Key,
    /// Its name.
    name: AttrName,
    /// How many bytes it has.
    size: u32,
}

/// The first attribute of a path from a key on, which stands behind the path's blocks. The pairs stay as they were,
/// also after a fault, which is handed on.
fn next_attr<P: OrderedPairs>(
    pairs: &mut P,
    from: &Key,
    path: &Path,
) -> Result<Option<Found>, Fault>
    ensures call { FindsAttribute from.now path.now (P.state pairs.old) (P.state pairs.new) result }
    ensures follows { P.follows pairs.old pairs.new }
{
    match pairs.next_from(from)? {
        Some(pair) => Ok(attribute_of(&pair.0, &pair.1, path)),
        None => Ok(None),
    }
}

/// What a pair says of an attribute of the path; nothing where it is no attribute of this path.
fn attribute_of(key: &Key, value: &Value, path: &Path) -> Option<Found>
    ensures { IsReadAttribute path.now (key.now, value.now) result }
{
    let (owner, name) = of_attr_key(key)?;
    if owner == *path {
        let size = bytes_in(value).as_slice().len() as u32;
        Some(Found {
            key: *key,
            name,
            size,
        })
    } else {
        None
    }
}
