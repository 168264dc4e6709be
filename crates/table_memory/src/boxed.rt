//! Values on the heap.

ghost use Rattle.std.specs.Prelude.{◌≡◌, ◌+◌, ◌≤◌, ◌↔◌, IfOk, IsTrue, true, false, length, option_copied};
ghost use Rattle.store_model.specs.Parameters.{block_len};
ghost use Rattle.disk_model.specs.DiskCalls.{IsRead};
ghost use Rattle.store_model.specs.Pages.{IsPage};
ghost use Rattle.node_pages.specs.PageSlots.{ArePacked, cells_in};
ghost use Rattle.node_pages.specs.Insertions.{TakesCell, with_cell};

use disk_model::Disk;
use node_pages::{Cell, Page};
use std::alloc::Global;
use std::marker::Model;
use store_base::{DiskFault, Label, NoMemory};
use store_model::Slot;

/// A value on the heap, so that what keeps it stays small. Contracts see the value.
#[derive(Drop)]
pub struct Boxed<T> {
    inside: Box<T>,
}

impl<T> Model for Boxed<T> {
    ghost Value = { T };

    ghost coded = { T.code };

    ghost view = { λ boxed. boxed.inside.value };
}

impl<T: Drop> Boxed<T> {
    /// Puts the value on the heap.
    pub fn new(alloc: Global, value: T) -> Result<Boxed<T>, NoMemory>
        ensures { IfOk result (λ boxed. boxed ≡ value) }
    {
        Ok(Boxed {
            inside: Box::new(alloc, value)?,
        })
    }
}

impl<T> Boxed<T> {
    /// The value. It takes no memory.
    pub fn get(&self) -> &T
        ensures { result.now ≡ self.now }
    {
        &self.inside
    }
}

impl<T: Copy> Boxed<T> {
    /// Replaces the value that is there by a copy of this one. It takes no memory.
    pub fn set(&mut self, value: &T)
        ensures { self.new ≡ value.now }
    {
        *self.inside = *value;
    }
}

impl Boxed<Slot> {
    /// Reads the bytes of a disk from this place on. After `DiskFault` it may hold anything. It takes no memory.
    pub fn read<D: Disk>(&mut self, disk: &mut D, at: u64) -> Result<(), DiskFault>
        requires { at + block_len ≤ (D.state disk.old).size }
        ensures call { IsRead (D.state disk.old) (D.state disk.new) at self.new result }
        ensures long { length self.new ≡ block_len }
    {
        disk.read_at(at, self.inside.as_mut())
    }
}

impl Boxed<Page> {
    /// Makes it the page of a label and so many cells, whose bytes are given. It takes no memory.
    pub fn refill(&mut self, label: &Label, count: u8, run: &[u8])
        requires packed { ArePacked label.now.level count run.now }
        requires page { IsPage (record {
          label = label.now;
          cells = cells_in label.now.level count run.now;
        }) }
        ensures { self.new ≡ record {
          label = label.now;
          cells = cells_in label.now.level count run.now;
        } }
    {
        self.inside.refill(label, count, run);
    }

    /// Inserts a cell before that of number `at`, or behind all, and answers whether it did. A page that does not take
    /// it is as it was. It takes no memory.
    pub fn insert(&mut self, at: u32, cell: &Cell) -> bool
        ensures takes { IsTrue result ↔ TakesCell self.old at cell.now }
        ensures value { result ≡ true → self.new ≡ with_cell self.old at cell.now }
        ensures kept { result ≡ false → self.new ≡ self.old }
    {
        self.inside.insert(at, cell)
    }
}

/// A value, where there is one, on the heap.
pub fn on_heap<T: Drop>(alloc: Global, value: Option<T>) -> Result<Option<Boxed<T>>, NoMemory>
    ensures { IfOk result (λ boxed. boxed ≡ value) }
{
    match value {
        Some(value) => Ok(Some(Boxed::new(alloc, value)?)),
        None => Ok(None),
    }
}

/// The value, where there is one. It takes no memory.
pub fn behind<T>(boxed: &Option<Boxed<T>>) -> Option<&T>
    ensures { option_copied result ≡ boxed.now }
{
    match boxed {
        Some(boxed) => Some(boxed.get()),
        None => None,
    }
}
