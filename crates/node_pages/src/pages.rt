//! What every store of pages offers, wherever the pages lie.

ghost use Rattle.std.specs.Prelude.{◌<◌};
ghost use Rattle.std.specs.Borrow.{sem};
ghost use Rattle.std.specs.FinMap as maps;
ghost use Rattle.std.specs.Io.BufRead.{Rests};
ghost use Rattle.store_model.specs.PageMaps.{IsPageMap};
ghost use Rattle.store_model.specs.Pages.{IsPage};
ghost use Rattle.node_pages.specs.PageSlots.{ArePacked, cells_in};
ghost use Rattle.node_pages.specs.PagesState.{PagesState, IsObservable, IsPageGet, IsPagePut, IsPageDrop, IsCellInsert};
ghost use Rattle.node_pages.specs.PagesState.{HasPlace, looked_at, most_pages};

use crate::cell::Cell;
use crate::page::Page;
use store_base::{Fault, Label};

/// Pages, each under its label.
///
/// Clauses on the map hold where the pages are observable, those on counts for all pages; pages that were not
/// observable stay so. A call answers `Fault::Disk` only where the count of faults rises in it, by one (a count that is
/// 2^64 - 1 stays). The count of lookups rises by one where a page is asked for, and by one at most where that fails;
/// no other call changes it. What is at hand under a label, a page or that there is none, is found without memory.
/// `follows` says what every call keeps of the state below, even where it fails: for example, that nothing was
/// committed. Pages in memory have nothing below them.
pub trait Pages {
    /// What the pages mean at this moment.
    ghost state: { Self → PagesState };

    /// What every call keeps of the state below the pages.
    ghost follows: { Self → Self → Type 0 };

    /// The page under the label; `None` exactly where there is none. After a fault the pages are as they were. It
    /// does not answer `Fault::NoMemory` for what is at hand.
    fn get(&mut self, label: &Label) -> Result<Option<Page>, Fault>
        ensures call { IsPageGet (state self.old) (state self.new) label.now result }
        ensures follows { follows self.old self.new };

    /// As `get`, with a reference to the page instead of a copy. It may answer `Fault::NoMemory` for what is not at
    /// hand.
    fn look(&mut self, label: &Label) -> Result<Option<&Page>, Fault>
        ensures* after_borrow { sem 𝓛
            (Rests Self.row self.entry (λ new.
            IsPageGet (state self.old) (state new) label.now (looked_at result)
            × follows self.old new)) };

    /// Puts the page under its label. It replaces the one that was there. There have to be fewer than 2^32 - 1 pages.
    /// After a fault the pages are as they were.
    fn put(&mut self, page: Page) -> Result<(), Fault>
        requires { IsObservable (state self.old) → maps.len (state self.old).pages < most_pages }
        ensures call { IsPagePut (state self.old) (state self.new) page result }
        ensures follows { follows self.old self.new };

    /// As `put`, of the page of a label and so many cells, whose bytes are given. Pages that keep bytes need
    /// not make it first.
    fn put_run(&mut self, label: &Label, count: u8, run: &[u8]) -> Result<(), Fault>
        requires packed { ArePacked label.now.level count run.now }
        requires page { IsPage (record {
          label = label.now;
          cells = cells_in label.now.level count run.now;
        }) }
        requires room { IsObservable (state self.old)
            → maps.len (state self.old).pages < most_pages }
        ensures call { IsPagePut (state self.old) (state self.new) (record {
          label = label.now;
          cells = cells_in label.now.level count run.now;
        }) result }
        ensures follows { follows self.old self.new }
    {
        self.put(Page::of_run(*label, count, run))
    }

    /// Inserts a cell before that of number `at`, or behind all, in the page under the label, which has to be
    /// there and to take it. It may answer `Fault::NoMemory`. After a fault the pages are as they were. It
    /// counts as no lookup, and there are as many pages as before.
    fn insert_cell(&mut self, label: &Label, at: u32, cell: &Cell) -> Result<(), Fault>
        requires place { IsObservable (state self.old)
            → HasPlace (state self.old).pages label.now at cell.now }
        ensures call { IsCellInsert (state self.old) (state self.new) label.now at cell.now result }
        ensures follows { follows self.old self.new };

    /// Drops the page under the label, if there is one. After a fault the pages are as they were.
    fn drop_page(&mut self, label: &Label) -> Result<(), Fault>
        ensures call { IsPageDrop (state self.old) (state self.new) label.now result }
        ensures follows { follows self.old self.new };

    /// Each page of the map is one, and stands under its label.
    ghost valid: { (pages : Self) → IsObservable (state pages) → IsPageMap (state pages).pages };

    /// Pages follow themselves, and what follows goes on from call to call.
    ghost follows_refl: { (pages : Self) → follows pages pages };

    ghost follows_trans: { (a b c : Self) → follows a b → follows b c → follows a c };
}
