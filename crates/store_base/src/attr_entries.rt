//! The attributes of a path, as a listing gives them.

ghost use Rattle.std.specs.Prelude.{◌≡◌, ◌≤◌, ◌<◌, ◌++◌, ◌∷◌, [], length, OnOk, OnErr, slice_get, Some, ◌==◌};

use crate::fault::NoMemory;
use arrayvec::ArrayVec;
use std::alloc::Global;
use std::marker::Model;

/// An attribute of a path: its name, and how many bytes it has.
#[derive(Debug, Drop)]
struct Attribute {
    name: ArrayVec<u8, { AttrEntries::MAX_NAME }>,
    size: u32,
}

/// The attributes of a path, in the order in which they are added. Contracts see them as the list of their names, each
/// with its size.
#[derive(Debug, Drop)]
pub struct AttrEntries {
    attributes: Vec<Attribute>,
}

impl Model for AttrEntries {
    ghost use Rattle.std.specs.Prelude.{List, map};
    ghost use Rattle.store_model.specs.Commands.{AttributeSize};

    ghost Value = { List AttributeSize };

    ghost use Rattle.store_base.specs.Entries.{attribute_of};

    ghost view = { λ e. map attribute_of e.attributes.items };
}

impl AttrEntries {
    /// The most bytes that an attribute's name has.
    pub const MAX_NAME: usize = 32;

    /// Makes an empty list.
    pub fn new(alloc: Global) -> Self
        ensures { result ≡ [] }
    {
        AttrEntries {
            attributes: Vec::new(alloc),
        }
    }

    /// Adds an attribute of so many bytes last.
    /// `NoMemory`: the list is as it was.
    pub fn push(&mut self, name: &[u8], size: u32) -> Result<(), NoMemory>
        requires { length name.now ≤ Self.MAX_NAME }
        ensures ok { OnOk result (self.new ≡ self.old ++ (name.now, size) ∷ []) }
        ensures err { OnErr result (self.new ≡ self.old) }
    {
        let mut copy = ArrayVec::new();
        let Ok(()) = copy.try_extend_from_slice(name) else {
            unreachable!()
        };
        self.attributes.push(Attribute { name: copy, size })?;
        Ok(())
    }

    /// How many attributes there are.
    pub fn len(&self) -> usize
        ensures { result ≡ length self.now }
    {
        self.attributes.len()
    }

    /// Whether there are none.
    pub fn is_empty(&self) -> bool
        ensures { result ≡ (length self.now == 0) }
    {
        self.attributes.is_empty()
    }

    /// The name of an attribute, and how many bytes it has.
    pub fn get(&self, index: usize) -> (&[u8], u32)
        requires { index < length self.now }
        ensures value { slice_get self.now index ≡ Some (result.0.now, result.1) }
        ensures fits { length result.0.now ≤ Self.MAX_NAME }
    {
        let attribute = &self.attributes[index];
        (attribute.name.as_slice(), attribute.size)
    }
}
