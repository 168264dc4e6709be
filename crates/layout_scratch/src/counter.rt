//! How many pages pairs have, counted while their keys come.

ghost use Rattle.std.specs.Prelude.{◌≡◌, ◌+◌, ℕ, ◌≤◌, ◌<◌, ◌++◌, ◌∷◌, [], List, map, length};
ghost use Rattle.store_model.specs.Parameters.{height_limit};
ghost use Rattle.store_model.specs.Draws as draws;
ghost use Rattle.store_model.specs.Pairs.{Pair};
ghost use Rattle.store_model.specs.Pages.{pages_of_pairs};
ghost use Rattle.layout_scratch.specs.Counting.{HasCounted};
ghost use Rattle.layout_scratch.specs.Sorting.{sorted_limit};

use node_pages::room;
use seeded_draw::{Draw, Front};
use store_base::{Key, MAX_HEIGHT};

/// Counts the pages of pairs while their keys come, one after another in their order. It keeps no key: on each level it
/// knows how many cells the last group has so far, and a key of level L begins a group on each level below L and adds a
/// cell to the last one on L.
#[derive(Clone, Copy, Debug)]
pub struct PageCounter {
    /// On each level the cells of its last group so far.
    cells: [u32; MAX_HEIGHT as usize],
    /// The pages on all levels, those of the last groups among them.
    pages: u32,
    /// The keys.
    keys: u32,
}

impl PageCounter {
    /// A counter to which no key came.
    pub fn new() -> Self
        ensures { (d : draws.Draw) → HasCounted d [] result }
    {
        PageCounter {
            cells: [0; MAX_HEIGHT as usize],
            pages: 0,
            keys: 0,
        }
    }

    /// How many keys came.
    pub fn keys(&self) -> u32
        ensures value { result ≡ self.now.keys }
        ensures counted { (d : draws.Draw) (keys : List (List ℕ)) → HasCounted d keys self.now
            → result ≡ length keys }
    {
        self.keys
    }

    /// How many pages the pairs have whose keys came, whatever their values are.
    pub fn pages(&self) -> u32
        ensures value { result ≡ self.now.pages }
        ensures counted { (d : draws.Draw) (s : List Pair)
            → HasCounted d (map (λ pair. pair.0) s) self.now
            → result ≡ length (pages_of_pairs d s) }
    {
        self.pages
    }

    /// Takes the next key, which stands behind those that came, of which there have to be fewer than 268,435,456. The
    /// front helps to draw its level, which is answered.
    pub fn add<W: Draw>(&mut self, draw: &W, front: &mut Front, key: &Key) -> u8
        requires height { (W.drawn draw.now).height ≤ height_limit }
        requires few { self.old.keys < sorted_limit }
        ensures counted { (keys : List (List ℕ)) → HasCounted (W.drawn draw.now) keys self.old
            → HasCounted (W.drawn draw.now) (keys ++ key.now ∷ []) self.new }
        ensures grows { self.old.pages ≤ self.new.pages }
        ensures keys { self.new.keys ≡ self.old.keys + 1 }
        ensures level { result ≡ (W.drawn draw.now).level key.now }
    {
        let level = draw.level_from(front, key);
        self.add_at(level);
        level
    }

    /// As `add`, where the level of the key was drawn before.
    pub fn add_at(&mut self, level: u8)
        requires height { level < height_limit }
        requires few { self.old.keys < sorted_limit }
        ensures counted { (d : draws.Draw) (keys : List (List ℕ)) (key : List ℕ)
            → d.height ≤ height_limit → level < d.height → level ≡ d.level key
            → HasCounted d keys self.old → HasCounted d (keys ++ key ∷ []) self.new }
        ensures grows { self.old.pages ≤ self.new.pages }
        ensures keys { self.new.keys ≡ self.old.keys + 1 }
    {
        let at = usize::from(level);
        let count = self.cells[at];
        // The last page of the group is full, or there is no group yet.
        let needs_page = count % u32::from(room(level)) == 0;
        self.pages = self
            .pages
            .saturating_add(u32::from(level) + u32::from(needs_page));
        self.cells[..at].fill(1);
        self.cells[at] = count.saturating_add(1);
        self.keys += 1;
    }
}
