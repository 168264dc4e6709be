//! Lists of cells of one level, kept as the bytes that they have in pages.

ghost use Rattle.std.specs.Prelude.{◌≡◌, ◌+◌, ◌*◌, ◌<◌, ◌≤◌, ◌↔◌, [], ◌∷◌, ◌++◌, length, map, take, drop, Some, IfSome};
ghost use Rattle.std.specs.Prelude.{IfOk, OnOk, OnErr, IsTrue, slice_get};
ghost use Rattle.std.specs.List.{flat_map, AllByRecursion};
ghost use Rattle.std.specs.List.Sorted.{IsStrictlySortedBy};
ghost use Rattle.std.specs.FinMap as maps;
ghost use Rattle.store_model.specs.Lists.{runs};
ghost use Rattle.store_model.specs.Paths.{key_cmp};
ghost use Rattle.store_model.specs.Pages.{IsCell, page_room};
ghost use Rattle.store_model.specs.Labels.{IsLabel};
ghost use Rattle.store_model.specs.Images.{cell_bytes};
ghost use Rattle.store_base.specs.Keys.{IsKey};
ghost use Rattle.store_base.specs.Leads.{model_lead};
ghost use Rattle.node_pages.specs.Cells.{IsCellList};
ghost use Rattle.node_pages.specs.LastPages.{page_of_run, pages_from};
ghost use Rattle.node_pages.specs.PagesState.{IsObservable, IsPagePut, most_pages};

use crate::cell::Cell;
use crate::cell_area::{cell_len, room};
use crate::cell_bytes::{cells_between, key_part, push_cell, read_cell, read_key};
use crate::page::Page;
use crate::pages::Pages;
use crate::reveal::reveal_lead;
use crate::sequence::too_long;
use std::alloc::Global;
use std::marker::Model;
use store_base::{Fault, Key, Label, Lead, NoMemory};

/// A list of fewer than 2^32 cells of one level. Contracts see its level and the list of its cells; each is one of the
/// level, as `IsCellList` says.
#[derive(Debug, Drop)]
pub struct Cells {
    level: u8,
    count: u32,
    bytes: Vec<u8>,
}

impl Model for Cells {
    ghost use Rattle.node_pages.specs.PageSlots.{ArePacked};
    ghost use Rattle.node_pages.specs.Cells.{CellList, list_in};

    ghost Value = { CellList };

    ghost view = { λ c. list_in c.level c.count c.bytes.items };

    ghost invariant = { λ c. ArePacked c.level c.count c.bytes.items };
}

impl Cells {
    /// The empty list of a level. It takes no memory.
    pub fn new(alloc: Global, level: u8) -> Self
        ensures { result ≡ record { level = level; cells = [] } }
    {
        Cells {
            level,
            count: 0,
            bytes: Vec::new(alloc),
        }
    }

    /// The empty list of a level, with memory for so many cells.
    pub fn with_room(alloc: Global, level: u8, room: u32) -> Result<Self, NoMemory>
        ensures { IfOk result (λ list. list ≡ record { level = level; cells = [] }) }
    {
        let room = cell_len(level) * room as usize;
        Ok(Cells {
            level,
            count: 0,
            bytes: Vec::with_capacity(alloc, room)?,
        })
    }

    /// Becomes the empty list of a level, and keeps its memory.
    pub fn restart(&mut self, level: u8)
        ensures { self.new ≡ record { level = level; cells = [] } }
    {
        self.level = level;
        self.count = 0;
        self.bytes.clear();
    }

    /// The level of its cells.
    pub fn level(&self) -> u8
        ensures value { result ≡ self.now.level }
        ensures valid { IsCellList self.now }
    {
        self.level
    }

    /// How many cells it has.
    pub fn len(&self) -> u32
        ensures value { result ≡ length self.now.cells }
        ensures valid { IsCellList self.now }
    {
        self.count
    }

    /// Says that each cell is one of its level, and that they are fewer than 2^32. It costs nothing.
    pub fn reveal(&self)
        ensures valid { IsCellList self.now }
    {
        let _ = self.len();
    }

    /// Whether it has none.
    pub fn is_empty(&self) -> bool
        ensures { IsTrue result ↔ (self.now.cells ≡ []) }
    {
        self.count == 0
    }

    /// The bytes of the cells from number `first` up to number `past`, one cell behind the other.
    fn bytes_between(&self, first: u32, past: u32) -> &[u8]
        requires order { first ≤ past }
        requires within { past ≤ length self.now.cells }
        ensures { result.now ≡ flat_map cell_bytes (drop first (take past self.now.cells)) }
    {
        cells_between(self.level, &self.bytes, first, past)
    }

    /// The bytes of the key of cell `i`, the first being 0.
    pub fn key_bytes(&self, i: u32) -> &[u8]
        requires { i < length self.now.cells }
        ensures value { IfSome (slice_get self.now.cells i) (λ cell. cell.key ≡ result.now) }
        ensures valid { IsKey result.now }
    {
        self.reveal();
        key_part(self.bytes_between(i, i + 1))
    }

    /// The key of cell `i`, the first being 0, without its value.
    pub fn key(&self, i: u32) -> Key
        requires { i < length self.now.cells }
        ensures value { IfSome (slice_get self.now.cells i) (λ cell. cell.key ≡ result) }
        ensures valid { IsKey result }
    {
        read_key(self.key_bytes(i))
    }

    /// Cell `i`, the first being 0.
    pub fn get(&self, i: u32) -> Cell
        requires { i < length self.now.cells }
        ensures value { slice_get self.now.cells i ≡ Some result }
        ensures valid { IsCell self.now.level result }
    {
        read_cell(self.level, self.bytes_between(i, i + 1))
    }

    /// How many pages the cells make as a group: runs of 10 at level 0 and of 31 above, the last run holding the rest.
    pub fn page_count(&self) -> u32
        ensures { result ≡ length (runs (page_room self.now.level) self.now.cells) }
    {
        self.count.div_ceil(u32::from(room(self.level)))
    }

    /// From which number up to which the cells of run `index` stand, the first run being 0.
    fn run(&self, index: u32) -> (u32, u32)
        requires { index < length (runs (page_room self.now.level) self.now.cells) }
        ensures order { result.0 ≤ result.1 }
        ensures within { result.1 ≤ length self.now.cells }
        ensures few { result.1 ≤ result.0 + 31 }
        ensures cells { drop result.0 (take result.1 self.now.cells)
            ≡ take (page_room self.now.level)
            (drop (page_room self.now.level * index) self.now.cells) }
    {
        let room = u32::from(room(self.level));
        let done = room * index;
        (done, done + room.min(self.count - done))
    }

    /// The label of the level with this lead and number.
    fn label(&self, lead: &Lead, number: u32) -> Label
        ensures value { result ≡ record {
          level = self.now.level;
          lead = model_lead lead.now;
          index = number;
        } }
        ensures valid { IsLabel result }
    {
        reveal_lead(lead);
        Label {
            level: self.level,
            lead: *lead,
            index: number,
        }
    }

    /// The page of run `index`, the first being 0, in the group that `lead` leads. Its label has the number
    /// `first + index`.
    // Apart from its caller it would answer a page that is copied once more.
    #[inline(always)]
    pub fn page(&self, lead: &Lead, first: u32, index: u32) -> Page
        requires rising { IsStrictlySortedBy key_cmp (map (λ c. c.key) self.now.cells) }
        requires number { first + index < 4294967296 }
        requires within { index < length (runs (page_room self.now.level) self.now.cells) }
        ensures { slice_get (pages_from self.now.level (model_lead lead.now) first self.now.cells)
            index ≡ Some result }
    {
        self.reveal();
        let label = self.label(lead, first + index);
        let (done, past) = self.run(index);
        Page::of_run(label, (past - done) as u8, self.bytes_between(done, past))
    }

    /// Puts the page of run `index` in the group that `lead` leads, with the number `first + index`, into
    /// pages. There have to be fewer than 2^32 - 1 pages. After a fault the pages are as they were.
    pub fn put_page<P: Pages>(
        &self,
        pages: &mut P,
        lead: &Lead,
        first: u32,
        index: u32,
    ) -> Result<(), Fault>
        requires rising { IsStrictlySortedBy key_cmp (map (λ c. c.key) self.now.cells) }
        requires number { first + index < 4294967296 }
        requires within { index < length (runs (page_room self.now.level) self.now.cells) }
        requires room { IsObservable (P.state pages.old)
            → maps.len (P.state pages.old).pages < most_pages }
        ensures call { IsPagePut (P.state pages.old) (P.state pages.new)
            (page_of_run self.now.level (model_lead lead.now) (first + index)
            (take (page_room self.now.level)
            (drop (page_room self.now.level * index) self.now.cells))) result }
        ensures follows { P.follows pages.old pages.new }
    {
        self.reveal();
        let (done, past) = self.run(index);
        pages.put_run(
            &self.label(lead, first + index),
            (past - done) as u8,
            self.bytes_between(done, past),
        )
    }

    /// Whether `page`, with the same lead and numbers, is this page. None is made for it.
    pub fn is_page(&self, lead: &Lead, first: u32, index: u32, page: &Page) -> bool
        requires number { first + index < 4294967296 }
        requires within { index < length (runs (page_room self.now.level) self.now.cells) }
        ensures { IsTrue result
            ↔ (slice_get (pages_from self.now.level (model_lead lead.now) first self.now.cells)
            index ≡ Some page.now) }
    {
        self.reveal();
        let (done, past) = self.run(index);
        if !page.has_bytes(self.bytes_between(done, past)) {
            return false;
        }
        page.label() == self.label(lead, first + index)
    }

    /// Adds a cell of the level at the end. `NoMemory` comes where memory ran out, or where the list has 2^32
    /// - 1 cells; the list is then as it was.
    pub fn push(&mut self, cell: &Cell) -> Result<(), NoMemory>
        requires { IsCell self.old.level cell.now }
        ensures ok { OnOk result
            (self.new ≡ record self.old { cells = self.old.cells ++ cell.now ∷ [] }) }
        ensures err { OnErr result (self.new ≡ self.old) }
    {
        let Some(count) = self.count.checked_add(1) else {
            return Err(too_long());
        };
        push_cell(&mut self.bytes, self.level, cell)?;
        self.count = count;
        Ok(())
    }

    /// Adds the cells of a page from number `first` up to number `past`, which is not among them; each has to
    /// be one of the list's level. `NoMemory` comes as from `push`, and leaves the list as it was.
    pub fn append_from(&mut self, page: &Page, first: u32, past: u32) -> Result<(), NoMemory>
        requires order { first ≤ past }
        requires within { past ≤ length page.now.cells }
        requires fits { AllByRecursion (IsCell self.old.level)
            (drop first (take past page.now.cells)) }
        ensures ok { OnOk result
            (self.new ≡ record self.old {
              cells =
                  self.old.cells ++ drop first (take past page.now.cells);
            }) }
        ensures err { OnErr result (self.new ≡ self.old) }
    {
        let Some(count) = self.count.checked_add(past - first) else {
            return Err(too_long());
        };
        self.bytes
            .extend_from_slice(page.bytes_between(first, past))?;
        self.count = count;
        Ok(())
    }
}
