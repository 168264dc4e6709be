//! What is staged: pages that were changed and are not settled yet.

ghost use Rattle.std.specs.Prelude.{◌≡◌, ◌≢◌, ◌↔◌, [], true, false, None, Some, IfSome, IsSome, IsNone, IsTrue, Ok};
ghost use Rattle.std.specs.Prelude.{OnOk, OnErr};
ghost use Rattle.std.specs.BTreeMap.{insert_entry};
ghost use Rattle.store_model.specs.Labels.{label_bytes, label_cmp};
ghost use Rattle.store_model.specs.Pages as model;
ghost use Rattle.node_pages.specs.Insertions.{TakesCell};
ghost use Rattle.table_memory.specs.Memos.{Remembered, memo_place, staged_at, IsKnownPage, IsKnown, Renews};
ghost use Rattle.page_store.specs.Stagings.{InsertsCell, StagesCell};

use node_pages::{Cell, Page};
use std::alloc::Global;
use std::collections::BTreeMap;
use store_base::{Label, NoMemory};
use table_memory::{Boxed, PageMemo, Spares, empty, memo_place};

/// What is staged: under each label that was changed its page, or that there is none.
#[derive(Drop)]
pub struct Changes {
    /// What is staged, by label.
    pub pages: BTreeMap<Label, Option<Boxed<Page>>>,
    /// Boxes for pages that are to be staged.
    pub spares: Spares<Page>,
}

/// Inserts a cell into the page of a change, in place, and says whether it did. A change that does not take it is as
/// it was. It takes no memory.
fn insert_into(change: &mut Option<Boxed<Page>>, at: u32, cell: &Cell) -> bool
    ensures done { result ≡ true → InsertsCell change.old change.new at cell.now }
    ensures kept { result ≡ false → change.new ≡ change.old }
    ensures takes { (page : model.Page) → change.old ≡ Some page
        → TakesCell page at cell.now → result ≡ true }
{
    match change {
        Some(page) => page.insert(at, cell),
        None => false,
    }
}

/// The answer where no page takes a cell: none is known under its label, or the one that is does not take it. Whoever
/// inserts a cell has looked its page up and has seen that it takes it, so this comes only where there was no memory to
/// remember the page.
fn no_page_takes_it() -> NoMemory {
    NoMemory
}

impl Changes {
    /// Makes the empty set of changes. It takes no memory.
    pub fn new(alloc: Global) -> Changes
        ensures { result.pages.entries ≡ [] }
    {
        Changes {
            pages: BTreeMap::new(alloc),
            spares: Spares::new(alloc),
        }
    }

    /// Takes all changes back. It takes no memory.
    pub fn clear(&mut self)
        ensures { self.new.pages.entries ≡ [] }
    {
        empty(&mut self.pages);
    }

    /// Hands all changes to the memo, which remembers what they have under their labels, where there is memory for it.
    /// No change is left.
    pub fn hand_to(&mut self, memo: &mut PageMemo)
        ensures renews { Renews self.old.pages.entries memo.old memo.new }
        ensures emptied { self.new.pages.entries ≡ [] }
    {
        memo.renew(&mut self.pages, &mut self.spares);
    }

    /// Keeps a change under its label, in the place of the one that was kept. After want of memory the changes are as
    /// they were.
    pub fn keep(&mut self, label: Label, change: Option<Boxed<Page>>) -> Result<(), NoMemory>
        ensures ok { OnOk result (self.new.pages.entries
            ≡ insert_entry label_cmp self.old.pages.entries label change) }
        ensures err { OnErr result (self.new.pages.entries ≡ self.old.pages.entries) }
    {
        self.spares
            .take(self.pages.insert(label, change)?.flatten());
        Ok(())
    }

    /// Says what is known of the label: a page, or that there is none. It asks the changes, and then the memo, where
    /// the label has this place. It takes no memory.
    pub fn known<'a>(
        &'a self,
        memo: &'a PageMemo,
        place: usize,
        label: &Label,
    ) -> Option<&'a Option<Boxed<Page>>>
        requires { place ≡ memo_place (label_bytes label.now) }
        ensures found { IfSome result
            (λ page. IsKnownPage self.now.pages.entries memo.now label.now page.now) }
        ensures all { IsKnown self.now.pages.entries memo.now label.now → IsSome result }
        ensures unstaged { IsNone result → staged_at self.now.pages.entries label.now ≡ None }
    {
        match self.pages.get(label) {
            Some(change) => Some(change),
            None => memo.recall(place, label),
        }
    }

    /// Whether the changes or the memo know something of the label, which has this place in the memo. It takes no
    /// memory.
    // The memo comes first, since to find a label among the changes takes comparisons of labels.
    pub fn knows(&self, memo: &PageMemo, place: usize, label: &Label) -> bool
        requires { place ≡ memo_place (label_bytes label.now) }
        ensures { IsTrue result ↔ IsKnown self.now.pages.entries memo.now label.now }
    {
        memo.recall(place, label).is_some() || self.pages.contains_key(label)
    }

    /// Inserts a cell into the page that is staged under the label, in place, and says whether it did; `None` where
    /// nothing is staged there. If it did not, the changes are as they were. It takes no memory.
    fn insert_staged(&mut self, label: &Label, at: u32, cell: &Cell) -> Option<bool>
        ensures done { (memo : Remembered) → result ≡ Some true
            → StagesCell self.old.pages.entries self.new.pages.entries memo label.now at cell.now }
        ensures kept { result ≢ Some true → self.new.pages.entries ≡ self.old.pages.entries }
        ensures absent { result ≡ None ↔ staged_at self.old.pages.entries label.now ≡ None }
        ensures takes { (page : model.Page)
            → staged_at self.old.pages.entries label.now ≡ Some (Some page)
            → TakesCell page at cell.now → result ≡ Some true }
    {
        match self.pages.get_mut(label) {
            Some(change) => Some(insert_into(change, at, cell)),
            None => None,
        }
    }

    /// Inserts a cell into a copy of the page that is remembered of the label, under which nothing is staged, and
    /// stages it. After want of memory the changes are as they were.
    fn insert_remembered(
        &mut self,
        memo: &PageMemo,
        label: &Label,
        at: u32,
        cell: &Cell,
    ) -> Result<(), NoMemory>
        requires { staged_at self.old.pages.entries label.now ≡ None }
        ensures ok { OnOk result
            (StagesCell self.old.pages.entries self.new.pages.entries memo.now label.now at
            cell.now) }
        ensures err { OnErr result (self.new.pages.entries ≡ self.old.pages.entries) }
    {
        let Some(Some(page)) = memo.recall(memo_place(label), label) else {
            return Err(no_page_takes_it());
        };
        let mut kept = self.spares.copy(page.get())?;
        if !kept.insert(at, cell) {
            self.spares.take(Some(kept));
            return Err(no_page_takes_it());
        }
        self.keep(*label, Some(kept))
    }

    /// Inserts a cell into the page that is known of the label, and stages it: where it lies, if it is staged, which
    /// takes no memory. After want of memory the changes are as they were.
    pub fn insert_cell(
        &mut self,
        memo: &PageMemo,
        label: &Label,
        at: u32,
        cell: &Cell,
    ) -> Result<(), NoMemory>
        ensures ok { OnOk result
            (StagesCell self.old.pages.entries self.new.pages.entries memo.now label.now at
            cell.now) }
        ensures err { OnErr result (self.new.pages.entries ≡ self.old.pages.entries) }
        ensures takes { (page : model.Page)
            → staged_at self.old.pages.entries label.now ≡ Some (Some page)
            → TakesCell page at cell.now → result ≡ Ok tt }
    {
        match self.insert_staged(label, at, cell) {
            Some(true) => Ok(()),
            Some(false) => Err(no_page_takes_it()),
            None => self.insert_remembered(memo, label, at, cell),
        }
    }
}
