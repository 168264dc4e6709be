//! The skip list with blocks: a sorted list of pairs in pages (Golovin 2010).

ghost use Rattle.std.specs.Prelude.{◌≡◌};
ghost use Rattle.store_base.specs.declared.store_fault.Fault.TheVariants as faults;
ghost use Rattle.store_model.specs.Pairs as model;
ghost use Rattle.node_pages.specs.PagesState as pages_state;
ghost use Rattle.skip_levels.specs.Descent.{HoldsPairs};
ghost use Rattle.skip_levels.specs.PagePairs.{pairs_of_map, list_over};

use crate::walk::Walk;
use node_pages::{Pages, reveal_pair};
use ordered_pairs::OrderedPairs;
use seeded_draw::Draw;
use std::alloc::Global;
use std::marker::Model;
use store_base::{Fault, Key, Value};

/// A sorted list of pairs in pages. Each level of the list holds the keys that the draw puts on it or above,
/// is cut into groups before each key of a higher level, and each group into pages.
///
/// It is observable where its pages are and no `put` or `take` of it failed. After one that failed the list is spent:
/// `into_pages` gives its pages back, and a further `put` or `take` answers `NoMemory` and changes nothing.
///
/// It remembers the group of level 0 at which its last call ended, unless that call took out a key that led its
/// group. A key that lies there needs no descent.
#[derive(Drop)]
pub struct SkipList<P: Pages, W: Draw> {
    /// Its pages, also after a fault. Where it is whole, whoever changes them shows that they are those of a
    /// list still, for which what is known is right.
    pub pages: P,
    draw: W,
    is_whole: bool,
    walk: Walk,
}

impl<P: Pages, W: Draw> Model for SkipList<P, W> {
    ghost use Rattle.skip_levels.specs.ListState.{ListState, list_code};
    ghost use Rattle.skip_levels.specs.PagePairs.{KeepsList};

    ghost Value = { ListState P W };

    ghost coded = { list_code P.code W.code };

    ghost view = { λ s. record { pages = s.pages; draw = s.draw; is_whole = s.is_whole } };

    ghost invariant = { λ s. KeepsList (W.drawn s.draw) s.is_whole (P.state s.pages) s.walk.known };
}

/// The fault of a change of a list that is spent: one of its changes failed, so its pages are no list's. It
/// answers as the change that failed might have, and calls nothing.
fn spent() -> Fault
    ensures { result ≡ faults.NoMemory }
{
    Fault::NoMemory
}

impl<P: Pages, W: Draw + Drop> SkipList<P, W> {
    ghost use Rattle.std.specs.Prelude.{List, true, false};

    /// Takes the pages of a list of at most 8,388,608 pairs, under this draw. The empty list has no page.
    pub fn new(alloc: Global, pages: P, draw: W) -> Self
        requires { pages_state.IsObservable (P.state pages)
            → (s : List model.Pair) × HoldsPairs (W.drawn draw) s (P.state pages).pages }
        ensures pages { result.pages ≡ pages }
        ensures draw { result.draw ≡ draw }
        ensures whole { result.is_whole ≡ true }
    {
        SkipList {
            pages,
            draw,
            is_whole: true,
            walk: Walk::new(alloc),
        }
    }

    /// Forgets what it knows. Until `take_up` its pages may be changed at will, and it is as after a change that
    /// failed.
    pub fn forget(&mut self)
        ensures pages { self.new.pages ≡ self.old.pages }
        ensures draw { self.new.draw ≡ self.old.draw }
        ensures whole { self.new.is_whole ≡ false }
    {
        self.is_whole = false;
    }

    /// Takes its pages up as those of a list, as in `new`.
    pub fn take_up(&mut self)
        requires { pages_state.IsObservable (P.state self.old.pages)
            → (s : List model.Pair) × HoldsPairs (W.drawn self.old.draw) s
            (P.state self.old.pages).pages }
        ensures pages { self.new.pages ≡ self.old.pages }
        ensures draw { self.new.draw ≡ self.old.draw }
        ensures whole { self.new.is_whole ≡ true }
    {
        self.is_whole = true;
        self.walk.known = None;
    }

    /// Gives its pages back, also after a fault.
    pub fn into_pages(self) -> P
        ensures { result ≡ self.pages }
    {
        let SkipList { pages, .. } = self;
        pages
    }
}

impl<P: Pages, W: Draw + Drop> OrderedPairs for SkipList<P, W> {
    ghost use Rattle.std.specs.Prelude.{refl, ◌+◌, ◌<◌, ◌≤◌, length};
    ghost use Rattle.std.proofs.Common.{◌∙◌};
    ghost use Rattle.ordered_pairs.specs.PairsState.{IsObservable, IsPairGet, IsPairPut, IsPairTake, IsNextPair};
    ghost use Rattle.ordered_pairs.specs.PairsState.{most_pairs};
    ghost use Rattle.skip_levels.specs.SearchPath.{path_cost, path_cost_below, low_cost};

    ghost state = { λ list. list_over (W.drawn list.draw) list.is_whole (P.state list.pages) };

    ghost follows = { λ old new. P.follows old.pages new.pages × (new.draw ≡ old.draw) };

    ghost valid = { λ list seen. seen.1.1.pairs };

    ghost few = { λ list seen. seen.1.1.few };

    ghost follows_refl = { λ list. (P.follows_refl list.pages, refl) };

    ghost follows_trans = { λ a b c first second.
        (P.follows_trans a.pages b.pages c.pages first.0 second.0, second.1 ∙ first.1) };

    /// The groups of one search path are read: at most a lookup for each of their full pages, and one for each group.
    fn get(&mut self, key: &Key) -> Result<Option<Value>, Fault>
        ensures call { IsPairGet (⟦<SkipList<P, W> as OrderedPairs>⟧.state self.old)
            (⟦<SkipList<P, W> as OrderedPairs>⟧.state self.new) key.now result }
        ensures follows { ⟦<SkipList<P, W> as OrderedPairs>⟧.follows self.old self.new }
        ensures lookups { IsObservable (⟦<SkipList<P, W> as OrderedPairs>⟧.state self.old)
            → (P.state self.new.pages).lookups ≤ (P.state self.old.pages).lookups
            + path_cost (W.drawn self.old.draw)
            (pairs_of_map (P.state self.old.pages).pages) key.now }
    {
        let height = self.draw.height();
        self.walk.find_value(&mut self.pages, height, key)
    }

    /// The groups of the search path are read to find the key, and those from its own level down once more to
    /// change them.
    fn put(&mut self, key: Key, value: Value) -> Result<(), Fault>
        requires { IsObservable (⟦<SkipList<P, W> as OrderedPairs>⟧.state self.old)
            → length (⟦<SkipList<P, W> as OrderedPairs>⟧.state self.old).pairs < most_pairs }
        ensures call { IsPairPut (⟦<SkipList<P, W> as OrderedPairs>⟧.state self.old)
            (⟦<SkipList<P, W> as OrderedPairs>⟧.state self.new) key value result }
        ensures follows { ⟦<SkipList<P, W> as OrderedPairs>⟧.follows self.old self.new }
        ensures lookups { IsObservable (⟦<SkipList<P, W> as OrderedPairs>⟧.state self.old)
            → (P.state self.new.pages).lookups ≤ (P.state self.old.pages).lookups
            + (path_cost (W.drawn self.old.draw) (pairs_of_map (P.state self.old.pages).pages) key
            + low_cost (W.drawn self.old.draw) (pairs_of_map (P.state self.old.pages).pages) key) }
    {
        reveal_pair(&key, &value);
        if !self.is_whole {
            return Err(spent());
        }
        self.is_whole = false;
        self.walk
            .put_pair(&mut self.pages, &self.draw, &key, value)?;
        self.is_whole = true;
        Ok(())
    }

    /// Reads the groups of the search path as `put` does, and those of the search path strictly below the key too.
    fn take(&mut self, key: &Key) -> Result<Option<Value>, Fault>
        ensures call { IsPairTake (⟦<SkipList<P, W> as OrderedPairs>⟧.state self.old)
            (⟦<SkipList<P, W> as OrderedPairs>⟧.state self.new) key.now result }
        ensures follows { ⟦<SkipList<P, W> as OrderedPairs>⟧.follows self.old self.new }
        ensures lookups { IsObservable (⟦<SkipList<P, W> as OrderedPairs>⟧.state self.old)
            → (P.state self.new.pages).lookups ≤ (P.state self.old.pages).lookups
            + (path_cost (W.drawn self.old.draw)
            (pairs_of_map (P.state self.old.pages).pages) key.now
            + (low_cost (W.drawn self.old.draw)
            (pairs_of_map (P.state self.old.pages).pages) key.now
            + path_cost_below (W.drawn self.old.draw)
            (pairs_of_map (P.state self.old.pages).pages) key.now)) }
    {
        if !self.is_whole {
            return Err(spent());
        }
        self.is_whole = false;
        let value = self.walk.take_pair(&mut self.pages, &self.draw, key)?;
        self.is_whole = true;
        Ok(value)
    }

    /// The groups of one search path are read, and where the pair leads the next group one page more.
    fn next_from(&mut self, key: &Key) -> Result<Option<(Key, Value)>, Fault>
        ensures call { IsNextPair (⟦<SkipList<P, W> as OrderedPairs>⟧.state self.old)
            (⟦<SkipList<P, W> as OrderedPairs>⟧.state self.new) key.now result }
        ensures follows { ⟦<SkipList<P, W> as OrderedPairs>⟧.follows self.old self.new }
        ensures lookups { IsObservable (⟦<SkipList<P, W> as OrderedPairs>⟧.state self.old)
            → (P.state self.new.pages).lookups ≤ (P.state self.old.pages).lookups
            + path_cost (W.drawn self.old.draw)
            (pairs_of_map (P.state self.old.pages).pages) key.now + 1 }
    {
        let height = self.draw.height();
        self.walk.find_next(&mut self.pages, height, key)
    }
}
