//! Pages in memory that count the calls on them.

ghost use Rattle.std.specs.Prelude.{◌≤◌, length};

use node_pages::{Cell, Page, Pages};
use std::alloc::Global;
use store_base::{Fault, Label};

/// Pages in memory by rising label, found by halving as in `MapPages`, that count the calls on them. Contracts know
/// nothing of them, so that every call may be made on a list over them.
#[derive(Drop)]
pub(super) struct CountedPages {
    pages: Vec<Box<Page>>,
    lookups: u64,
    changes: u64,
}

impl CountedPages {
    /// No page, and no calls.
    pub(super) fn new(alloc: Global) -> Self {
        CountedPages {
            pages: Vec::new(alloc),
            lookups: 0,
            changes: 0,
        }
    }

    /// How often a page was asked for since this was asked last.
    pub(super) fn lookups(&mut self) -> u64 {
        let lookups = self.lookups;
        self.lookups = 0;
        lookups
    }

    /// How often a page was put or dropped since this was asked last.
    pub(super) fn changes(&mut self) -> u64 {
        let changes = self.changes;
        self.changes = 0;
        changes
    }

    /// The place of the first page whose label is not below the given one.
    fn place(&self, label: &Label) -> usize
        ensures { result ≤ length self.now.pages.items }
    {
        self.pages.partition_point(|page| page.label() < *label)
    }
}

impl Pages for CountedPages {
    ghost use Rattle.std.specs.FinMap as maps;

    ghost state = { λ p. record {
      is_observable = ⊥;
      pages = maps.empty;
      faults = 0;
      lookups = p.lookups;
      at_hand = λ _. Unit {0};
    } };

    ghost follows = { λ _ _. Unit {0} };

    ghost valid = { λ p seen. absurd seen };

    ghost follows_refl = { λ _. tt };

    ghost follows_trans = { λ _ _ _ _ _. tt };

    fn get(&mut self, label: &Label) -> Result<Option<Page>, Fault> {
        Ok(self.look(label)?.copied())
    }

    fn look(&mut self, label: &Label) -> Result<Option<&Page>, Fault> {
        self.lookups = self.lookups.saturating_add(1);
        let at = self.place(label);
        match self.pages.get(at) {
            Some(page) if page.label() == *label => Ok(Some(page)),
            _ => Ok(None),
        }
    }

    fn put(&mut self, page: Page) -> Result<(), Fault> {
        self.changes = self.changes.saturating_add(1);
        let label = page.label();
        let at = self.place(&label);
        if at < self.pages.len() && self.pages[at].label() == label {
            *self.pages[at] = page;
            return Ok(());
        }
        let alloc = *self.pages.allocator();
        self.pages.insert(at, Box::new(alloc, page)?)?;
        Ok(())
    }

    fn insert_cell(&mut self, label: &Label, at: u32, cell: &Cell) -> Result<(), Fault> {
        self.changes = self.changes.saturating_add(1);
        let place = self.place(label);
        match self.pages.get_mut(place) {
            Some(page) if page.label() == *label => {
                if page.insert(at, cell) {
                    Ok(())
                } else {
                    Err(Fault::NoMemory)
                }
            }
            _ => Err(Fault::NoMemory),
        }
    }

    fn drop_page(&mut self, label: &Label) -> Result<(), Fault> {
        self.changes = self.changes.saturating_add(1);
        let at = self.place(label);
        if at < self.pages.len() && self.pages[at].label() == *label {
            self.pages.remove(at);
        }
        Ok(())
    }
}
