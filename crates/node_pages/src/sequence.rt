//! Lists of pages and of pairs.

ghost use Rattle.std.specs.Prelude.{◌≡◌, ◌<◌, ◌↔◌, [], ◌∷◌, ◌++◌, length, Some, IfOk, OnOk, OnErr, IsTrue, slice_get};
ghost use Rattle.std.specs.Prelude.{slice_set};

use crate::page::Page;
use std::alloc::Global;
use std::marker::Model;
use std::slice;
use store_base::{Key, NoMemory, Value};

/// A list of pages.
pub type PageList = Sequence<Page>;

/// A list of pairs, each a key and its value.
pub type PairList = Sequence<(Key, Value)>;

/// A list of fewer than 2^32 items. Contracts see it as the list of its items.
#[derive(Debug, Drop)]
pub struct Sequence<T> {
    items: Vec<T>,
}

impl<T> Model for Sequence<T> {
    ghost use Rattle.std.specs.Prelude.{◌<◌, List, length};

    ghost Value = { List T };

    ghost view = { λ s. s.items.items };

    ghost invariant = { λ s. length s.items.items < 4294967296 };
}

impl<T> Sequence<T> {
    /// The empty list. It takes no memory.
    pub fn new(alloc: Global) -> Self
        ensures { result ≡ [] }
    {
        Sequence {
            items: Vec::new(alloc),
        }
    }

    /// The empty list, with memory for so many items.
    pub fn with_room(alloc: Global, room: u32) -> Result<Self, NoMemory>
        ensures { IfOk result (λ list. list ≡ []) }
    {
        Ok(Sequence {
            items: Vec::with_capacity(alloc, room as usize)?,
        })
    }

    /// How many items it has.
    pub fn len(&self) -> u32
        ensures { result ≡ length self.now }
    {
        self.items.len() as u32
    }

    /// Whether it has none.
    pub fn is_empty(&self) -> bool
        ensures { IsTrue result ↔ (self.now ≡ []) }
    {
        self.items.is_empty()
    }

    /// Its items.
    pub fn as_slice(&self) -> &[T]
        ensures value { result.now ≡ self.now }
        ensures few { length self.now < 4294967296 }
    {
        self.items.as_slice()
    }

    /// Gives its items away.
    pub fn into_items(self) -> Vec<T>
        ensures { result.items ≡ self }
    {
        let Sequence { items } = self;
        items
    }

    /// Item `i`, the first being 0.
    pub fn get(&self, i: u32) -> &T
        requires { i < length self.now }
        ensures { slice_get self.now i ≡ Some result.now }
    {
        &self.items[i as usize]
    }
}

/// What a list at its greatest length answers: the count of what it has is a number below 2^32, and takes no further
/// one. It is answered as want of memory, which the list would come to not much later.
pub(crate) fn too_long() -> NoMemory {
    NoMemory
}

impl<T: Drop> Sequence<T> {
    /// Adds an item at the end. `NoMemory` comes where memory ran out, or where the list has 2^32 - 1 items;
    /// the list is then as it was.
    pub fn push(&mut self, item: T) -> Result<(), NoMemory>
        ensures ok { OnOk result (self.new ≡ self.old ++ item ∷ []) }
        ensures err { OnErr result (self.new ≡ self.old) }
    {
        if self.items.len() >= u32::MAX as usize {
            return Err(too_long());
        }
        self.items.push(item)?;
        Ok(())
    }

    /// Puts an item in the place of item `i`, the first being 0.
    pub fn set(&mut self, i: u32, item: T)
        requires { i < length self.old }
        ensures { self.new ≡ slice_set self.old i item }
    {
        self.items[i as usize] = item;
    }

    /// Leaves no item, and keeps the memory.
    pub fn clear(&mut self)
        ensures { self.new ≡ [] }
    {
        self.items.clear();
    }
}

impl Sequence<Page> {
    /// As `push`, by one copy of a page that stays where it is.
    pub fn push_copy(&mut self, page: &Page) -> Result<(), NoMemory>
        ensures ok { OnOk result (self.new ≡ self.old ++ page.now ∷ []) }
        ensures err { OnErr result (self.new ≡ self.old) }
    {
        if self.items.len() >= u32::MAX as usize {
            return Err(too_long());
        }
        self.items.extend_from_slice(slice::from_ref(page))?;
        Ok(())
    }
}
