//! The pages in memory.

ghost use Rattle.std.specs.Prelude.{◌≡◌, map, IsOk, IsTrue};
ghost use Rattle.std.specs.List.{AllByRecursion};
ghost use Rattle.std.specs.FinMap as maps;
ghost use Rattle.std.specs.FinMap.{is_sorted};
ghost use Rattle.store_model.specs.Paths.{key_cmp};
ghost use Rattle.store_model.specs.Labels.{label_bytes, label_cmp};
ghost use Rattle.store_model.specs.Pages.{IsPage};
ghost use Rattle.node_pages.specs.PageEntries.{entry_of, map_of_sorted, ArePages-prop};
ghost use Rattle.node_pages.specs.EntriesLemmas.{IsPageMap-sorted};
ghost use Rattle.node_pages.specs.PagesState.{HasPlace, IsCellInsert};
ghost use Rattle.node_pages.specs.EntryPlaces.{IsPlaceOf};

use crate::cell::Cell;
use crate::page::Page;
use crate::pages::Pages;
use std::alloc::Global;
use std::cmp::Ordering;
use store_base::{Fault, Label};

/// Pages in memory, always observable. A page is found by binary search. It never answers `Fault::Disk`: its count of
/// faults is always 0.
#[derive(Debug, Drop)]
pub struct MapPages {
    pages: Vec<Box<Page>>,
    lookups: u64,
    pub ghost sorted: { IsTrue (is_sorted key_cmp
        (map entry_of (map (λ page. page.value) pages.items))) },
    pub ghost valid: { AllByRecursion IsPage (map (λ page. page.value) pages.items) } by { ArePages-prop (map (λ page. page.value) pages.items) },
}

/// The place of a label among pages that come by rising label: of its page, or as the error the place where its page
/// would stand.
fn place_of(pages: &[Box<Page>], label: &Label) -> Result<usize, usize>
    requires { IsTrue (is_sorted key_cmp (map entry_of (map (λ page. page.value) pages.now))) }
    ensures { IsPlaceOf (map entry_of (map (λ page. page.value) pages.now))
        (label_bytes label.now) result }
{
    pages.binary_search_by(
        |page: &Box<Page>| -> Ordering
            ensures { result ≡ label_cmp page.now.value.label label.entry.now }
        { page.label().cmp(label) },
    )
}

impl MapPages {
    /// Makes an empty map.
    pub fn new(alloc: Global) -> Self
        ensures pages { (⟦<MapPages as Pages>⟧.state result).pages ≡ maps.empty }
        ensures lookups { (⟦<MapPages as Pages>⟧.state result).lookups ≡ 0 }
    {
        MapPages {
            pages: Vec::new(alloc),
            lookups: 0,
        }
    }
}

impl Pages for MapPages {
    ghost state = { λ p. record {
      is_observable = Unit {0};
      pages = map_of_sorted (map (λ page. page.value) p.pages.items);
      faults = 0;
      lookups =
          p.lookups;
      at_hand = λ _. Unit {0};
    } };

    ghost follows = { λ _ _. Unit {0} };

    ghost valid = { λ p _. IsPageMap-sorted (map (λ page. page.value) p.pages.items)
        p.sorted p.valid };

    ghost follows_refl = { λ _. tt };

    ghost follows_trans = { λ _ _ _ _ _. tt };

    fn get(&mut self, label: &Label) -> Result<Option<Page>, Fault> {
        Ok(self.look(label)?.copied())
    }

    fn look(&mut self, label: &Label) -> Result<Option<&Page>, Fault> {
        self.lookups = self.lookups.saturating_add(1);
        match place_of(&self.pages, label) {
            Ok(at) => Ok(Some(&self.pages[at])),
            Err(_) => Ok(None),
        }
    }

    fn put(&mut self, page: Page) -> Result<(), Fault> {
        match place_of(&self.pages, &page.label()) {
            Ok(at) => *self.pages[at] = page,
            Err(at) => {
                let alloc = *self.pages.allocator();
                self.pages.insert(at, Box::new(alloc, page)?)?;
            }
        }
        Ok(())
    }

    fn insert_cell(&mut self, label: &Label, at: u32, cell: &Cell) -> Result<(), Fault>
        requires place { HasPlace (⟦<MapPages as Pages>⟧.state self.old).pages label.now at
            cell.now }
        ensures call { IsCellInsert (⟦<MapPages as Pages>⟧.state self.old)
            (⟦<MapPages as Pages>⟧.state self.new) label.now at cell.now result }
        ensures done { IsOk result }
        ensures follows { ⟦<MapPages as Pages>⟧.follows self.old self.new }
    {
        let Ok(place) = place_of(&self.pages, label) else {
            unreachable!()
        };
        let takes = self.pages[place].insert(at, cell);
        prove!(takes);
        Ok(())
    }

    fn drop_page(&mut self, label: &Label) -> Result<(), Fault> {
        if let Ok(at) = place_of(&self.pages, label) {
            self.pages.remove(at);
        }
        Ok(())
    }
}
