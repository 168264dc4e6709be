//! Comparing and copying what replies and changes hold.

ghost use Rattle.std.specs.Prelude.{◌≡◌, ◌<◌, length, MatchResult};
ghost use Rattle.std.specs.Cmp.Lexicographic.{pointwise};
ghost use Rattle.script_lines.specs.Sessions.{same_child, same_attribute};

use std::alloc::Global;
use store_base::{AttrEntries, Bytes, Entries, NoMemory};

/// Copies the bytes.
pub fn copied(bytes: &Bytes) -> Bytes
    ensures { result ≡ bytes.now }
{
    Bytes::new(bytes.as_slice())
}

/// Whether two directories have the same children, in the same order.
pub fn same_children(one: &Entries, other: &Entries) -> bool
    ensures { result ≡ pointwise same_child one.now other.now }
{
    if one.len() != other.len() {
        return false;
    }
    for index in 0..one.len() {
        if one.get(index) != other.get(index) {
            return false;
        }
    }
    true
}

/// Whether two paths have the same attributes, in the same order.
pub fn same_attributes(one: &AttrEntries, other: &AttrEntries) -> bool
    ensures { result ≡ pointwise same_attribute one.now other.now }
{
    if one.len() != other.len() {
        return false;
    }
    for index in 0..one.len() {
        if one.get(index) != other.get(index) {
            return false;
        }
    }
    true
}

/// Copies the children.
/// `NoMemory`: there was no memory for them. It comes only where there is a child.
pub fn copy_children(children: &Entries, alloc: Global) -> Result<Entries, NoMemory>
    ensures { MatchResult result (λ copy. copy ≡ children.now) (λ _. 0 < length children.now) }
{
    let mut copy = Entries::new(alloc);
    for index in 0..children.len() {
        let (name, size) = children.get(index);
        copy.push(name, size)?;
    }
    Ok(copy)
}

/// Copies the attributes.
/// `NoMemory`: there was no memory for them. It comes only where there is an attribute.
pub fn copy_attributes(attributes: &AttrEntries, alloc: Global) -> Result<AttrEntries, NoMemory>
    ensures { MatchResult result (λ copy. copy ≡ attributes.now) (λ _. 0 < length attributes.now) }
{
    let mut copy = AttrEntries::new(alloc);
    for index in 0..attributes.len() {
        let (name, size) = attributes.get(index);
        copy.push(name, size)?;
    }
    Ok(copy)
}
