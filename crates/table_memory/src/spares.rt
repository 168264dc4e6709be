//! Boxes that were given up, kept for values that are to come.

ghost use Rattle.std.specs.Prelude.{◌≡◌, IfOk};
ghost use Rattle.store_model.specs.Pages.{IsPage};
ghost use Rattle.node_pages.specs.PageSlots.{ArePacked, cells_in};

use crate::boxed::Boxed;
use node_pages::Page;
use std::alloc::Global;
use store_base::{Label, NoMemory};

/// How many boxes are kept.
const MOST: usize = 8;

/// Keeps a few boxes that were given up, so that the next values take no memory. Contracts tell nothing of what is in
/// them.
#[derive(Drop)]
pub struct Spares<T> {
    alloc: Global,
    boxes: Vec<Boxed<T>>,
}

impl<T: Copy> Spares<T> {
    /// Keeps no box yet. It takes no memory.
    pub fn new(alloc: Global) -> Spares<T> {
        Spares {
            alloc,
            boxes: Vec::new(alloc),
        }
    }

    /// Puts a copy of the value into a box.
    pub fn copy(&mut self, value: &T) -> Result<Boxed<T>, NoMemory>
        ensures { IfOk result (λ boxed. boxed ≡ value.now) }
    {
        let Some(mut boxed) = self.boxes.pop() else {
            return Boxed::new(self.alloc, *value);
        };
        boxed.set(value);
        Ok(boxed)
    }

    /// Takes a box that is given up, if there is one, where there is room for it.
    pub fn take(&mut self, spare: Option<Boxed<T>>) {
        let Some(boxed) = spare else {
            return;
        };
        if self.boxes.len() < MOST {
            let _ = self.boxes.push(boxed);
        }
    }
}

impl Spares<Page> {
    /// The page of a label and so many cells, whose bytes are given, in a box.
    pub fn page(&mut self, label: &Label, count: u8, run: &[u8]) -> Result<Boxed<Page>, NoMemory>
        requires packed { ArePacked label.now.level count run.now }
        requires page { IsPage (record {
          label = label.now;
          cells = cells_in label.now.level count run.now;
        }) }
        ensures { IfOk result (λ boxed. boxed ≡ record {
          label = label.now;
          cells = cells_in label.now.level count run.now;
        }) }
    {
        let Some(mut boxed) = self.boxes.pop() else {
            return Boxed::new(self.alloc, Page::of_run(*label, count, run));
        };
        boxed.refill(label, count, run);
        Ok(boxed)
    }
}
