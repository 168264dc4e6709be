//! What is kept of pairs while they come in the order of their keys.

ghost use Rattle.std.specs.Prelude.{◌≡◌, ◌↔◌, ◌++◌, ◌∷◌, [], List, length, None, IsTrue, IfOk, OnOk};
ghost use Rattle.store_model.specs.Draws as draws;
ghost use Rattle.store_model.specs.Pairs.{Pair};
ghost use Rattle.store_model.specs.Pages.{pages_of_pairs};
ghost use Rattle.rising_pages.specs.OpenPages.{open_page};
ghost use Rattle.rising_pages.specs.Raised.{raised_keys};
ghost use Rattle.rising_pages.specs.Kept.{FitSlots, IsKept, JoinsLast, PairComes, PairCame};

use crate::open::OpenPage;
use crate::raised::RaisedKey;
use layout_scratch::PageCounter;
use node_pages::{Cell, Page};
use std::alloc::Global;
use store_base::{Key, NoMemory, Value};

/// What is kept of the pairs of an image while they come in the order of their keys: the last page of level 0, the keys
/// above level 0, and how many pages there are on all levels. Once these are more than the slots they are only counted.
#[derive(Drop)]
pub struct KeptPairs {
    /// How many slots there are.
    slots: u32,
    /// The pages so far.
    counter: PageCounter,
    /// The last page of level 0.
    last: OpenPage,
    /// The keys above level 0.
    raised: Vec<RaisedKey>,
}

/// Adds the key of a pair behind the others, if it stands above level 0.
fn raise(raised: &mut Vec<RaisedKey>, key: Key, level: u8) -> Result<(), NoMemory>
    ensures { (d : draws.Draw) (s : List Pair) (y : Pair) → key ≡ y.0 → level ≡ d.level y.0
        → raised.old.items ≡ raised_keys d s
        → OnOk result (raised.new.items ≡ raised_keys d (s ++ y ∷ [])) }
{
    if level > 0 {
        raised.push(RaisedKey { key, level })?;
    }
    Ok(())
}

impl KeptPairs {
    /// Of no pair, for a table of so many slots.
    pub fn new(alloc: Global, slots: u32) -> Self
        ensures { (d : draws.Draw) → slots ≡ d.slots → IsKept d [] result }
    {
        let counter = PageCounter::new();
        let last = OpenPage::new();
        let raised = Vec::new(alloc);
        KeptPairs {
            slots,
            counter,
            last,
            raised,
        }
    }

    /// Whether the next pair, whose key is drawn this level, comes onto the last page of level 0, as most do.
    pub fn is_joined(&self, level: u8) -> bool
        ensures { IsTrue result ↔ JoinsLast level self.now }
    {
        level == 0 && self.counter.pages() <= self.slots && self.last.has_room(0, level)
    }

    /// Takes such a pair, as `push` does. It costs no more than the bytes of the pair, and takes no memory.
    pub fn join(&mut self, level: u8, pair: (Key, Value))
        requires comes { (d : draws.Draw) × (s : List Pair) × PairComes d s level pair self.old }
        requires joins { JoinsLast level self.old }
        ensures { (d : draws.Draw) (s : List Pair) → PairComes d s level pair self.old
            → PairCame d s pair None self.new }
    {
        self.counter.add_at(0);
        let (key, value) = pair;
        self.last.add(0, level, &Cell::with_value(key, value));
    }

    /// Takes the next pair, whose key is drawn this level. Answers the page of level 0 that it closes: no later pair
    /// comes onto that. It answers none once the pages of all levels are more than the slots.
    ///
    /// After `NoMemory` nothing is known of what is kept.
    pub fn push(&mut self, level: u8, pair: (Key, Value)) -> Result<Option<Page>, NoMemory>
        requires { (d : draws.Draw) × (s : List Pair) × PairComes d s level pair self.old }
        ensures { (d : draws.Draw) (s : List Pair) → PairComes d s level pair self.old
            → IfOk result (λ closed. PairCame d s pair closed self.new) }
    {
        self.counter.add_at(level);
        if self.counter.pages() > self.slots {
            return Ok(None);
        }
        let (key, value) = pair;
        raise(&mut self.raised, key, level)?;
        let cell = Cell::with_value(key, value);
        Ok(self.last.take(0, level, &cell))
    }

    /// How many pages the pairs have, on all levels.
    pub fn pages(&self) -> u32
        ensures { (d : draws.Draw) (s : List Pair) → IsKept d s self.now
            → result ≡ length (pages_of_pairs d s) }
    {
        self.counter.pages()
    }

    /// The last page of level 0. Nothing is promised of it where the pages are more than the slots.
    pub fn last(&self) -> &Option<Page>
        ensures { (d : draws.Draw) (s : List Pair) → IsKept d s self.now → FitSlots d s
            → result.now ≡ open_page d s 0 }
    {
        self.last.page()
    }

    /// The keys above level 0, in their order. Nothing is promised of them where the pages are more than the slots.
    pub fn raised(&self) -> &[RaisedKey]
        ensures { (d : draws.Draw) (s : List Pair) → IsKept d s self.now → FitSlots d s
            → result.now ≡ raised_keys d s }
    {
        self.raised.as_slice()
    }
}
