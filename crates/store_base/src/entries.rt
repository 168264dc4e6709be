//! The entries of a directory, as a listing gives them.

ghost use Rattle.std.specs.Prelude.{◌≡◌, ◌≤◌, ◌<◌, ◌++◌, ◌∷◌, [], length, OnOk, OnErr, slice_get, Some, ◌==◌};

use crate::fault::NoMemory;
use arrayvec::ArrayVec;
use std::alloc::Global;
use std::marker::Model;

/// A child of a directory: its name, and for a file its size.
#[derive(Debug, Drop)]
struct Entry {
    name: ArrayVec<u8, { Entries::MAX_NAME }>,
    size: Option<u32>,
}

/// The children of a directory, in the order in which they are added. Contracts see them as the list of
/// their names, each with the size where it is a file's.
#[derive(Debug, Drop)]
pub struct Entries {
    entries: Vec<Entry>,
}

impl Model for Entries {
    ghost use Rattle.std.specs.Prelude.{List, map};
    ghost use Rattle.store_model.specs.Commands.{Child};

    ghost Value = { List Child };

    ghost use Rattle.store_base.specs.Entries.{child_of};

    ghost view = { λ e. map child_of e.entries.items };
}

impl Entries {
    /// The most bytes that a name has.
    pub const MAX_NAME: usize = 120;

    /// Makes an empty list.
    pub fn new(alloc: Global) -> Self
        ensures { result ≡ [] }
    {
        Entries {
            entries: Vec::new(alloc),
        }
    }

    /// Adds a child last: a file where a size is given, and else a directory.
    /// `NoMemory`: the list is as it was.
    pub fn push(&mut self, name: &[u8], size: Option<u32>) -> Result<(), NoMemory>
        requires { length name.now ≤ Self.MAX_NAME }
        ensures ok { OnOk result (self.new ≡ self.old ++ (name.now, size) ∷ []) }
        ensures err { OnErr result (self.new ≡ self.old) }
    {
        let mut copy = ArrayVec::new();
        let Ok(()) = copy.try_extend_from_slice(name) else {
            unreachable!()
        };
        self.entries.push(Entry { name: copy, size })?;
        Ok(())
    }

    /// How many children there are.
    pub fn len(&self) -> usize
        ensures { result ≡ length self.now }
    {
        self.entries.len()
    }

    /// Whether there are none.
    pub fn is_empty(&self) -> bool
        ensures { result ≡ (length self.now == 0) }
    {
        self.entries.is_empty()
    }

    /// The name of a child, and its size where it is a file.
    pub fn get(&self, index: usize) -> (&[u8], Option<u32>)
        requires { index < length self.now }
        ensures value { slice_get self.now index ≡ Some (result.0.now, result.1) }
        ensures fits { length result.0.now ≤ Self.MAX_NAME }
    {
        let entry = &self.entries[index];
        (entry.name.as_slice(), entry.size)
    }
}
