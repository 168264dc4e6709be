//! A change of one pair in the pages of a list, level after level from the highest one that changes.

ghost use Rattle.std.specs.Prelude.{◌≡◌, ◌<◌, List, length, IfOk};
ghost use Rattle.store_base.specs.Leads.{model_lead};
ghost use Rattle.store_model.specs.Draws as draws;
ghost use Rattle.store_model.specs.Pairs.{Pair};
ghost use Rattle.store_model.specs.Pages as model;
ghost use Rattle.node_pages.specs.PagesState.{IsObservable};
ghost use Rattle.ordered_pairs.specs.PairsState.{most_pairs};
ghost use Rattle.skip_levels.specs.Descent.{HoldsPairs, IsKnownGroup};
ghost use Rattle.skip_levels.specs.PagePairs.{pairs_of_map};
ghost use Rattle.skip_levels.specs.PairChanges.{IsPutting, IsTaking, PutsPairFrom, TakesPairFrom, PutsPairIn};
ghost use Rattle.skip_levels.specs.PairChanges.{TakesPairIn};

use crate::levels::{join_groups, set_cells, split_group};
use crate::put_place::PutPlace;
use crate::walk::{KeyPlace, Walk};
use node_pages::{Cell, Pages, reveal_pair};
use seeded_draw::Draw;
use std::alloc::Global;
use store_base::{Fault, Key, Lead, NoMemory, Value};

/// The cell of a pair on a level: the value is there at level 0 alone.
fn cell_on(level: u8, key: &Key, value: &Value) -> Result<Cell, NoMemory>
    ensures { IfOk result (λ cell. cell ≡ model.cell_on level (key.now, value.now)) }
{
    if level == 0 {
        Ok(Cell::with_value(*key, value.clone()?))
    } else {
        Ok(Cell::bare(*key))
    }
}

/// Puts the value under the key on level 0 alone, in the group that `lead` leads. After a fault a part of the pages
/// may be changed.
fn put_lowest<P: Pages>(
    alloc: Global,
    pages: &mut P,
    lead: &Lead,
    key: &Key,
    value: Value,
) -> Result<(), Fault>
    requires { IsObservable (P.state pages.old) → (d : draws.Draw) × (s : List Pair)
        × IsPutting d s (P.state pages.old).pages 0 (model_lead lead.now) key.now }
    ensures call { PutsPairFrom (P.state pages.old) (P.state pages.new) 0
        (model_lead lead.now) key.now value result }
    ensures follows { P.follows pages.old pages.new }
{
    reveal_pair(key, &value);
    let own = [Cell::with_value(*key, value)];
    set_cells(alloc, pages, 0, lead, key, &own)?;
    Ok(())
}

/// Puts the value under the key, from the level `top` down. On `top`, `lead` leads the group of the key's search
/// path. For a new key `top` is its own level, and on each lower level the group is cut in two before the key. A key
/// that is there keeps its levels, and `top` is 0: its value stands there alone. After a fault a part of the pages
/// may be changed.
pub fn put_from<P: Pages>(
    alloc: Global,
    pages: &mut P,
    top: u8,
    lead: &Lead,
    key: &Key,
    value: &Value,
) -> Result<(), Fault>
    requires { IsObservable (P.state pages.old) → (d : draws.Draw) × (s : List Pair)
        × IsPutting d s (P.state pages.old).pages top (model_lead lead.now) key.now }
    ensures call { PutsPairFrom (P.state pages.old) (P.state pages.new) top
        (model_lead lead.now) key.now value.now result }
    ensures follows { P.follows pages.old pages.new }
{
    reveal_pair(key, value);
    let own = [cell_on(top, key, value)?];
    let mut next = set_cells(alloc, pages, top, lead, key, &own)?;
    let mut level = top;
    while level > 0 {
        level -= 1;
        let own = cell_on(level, key, value)?;
        next = split_group(alloc, pages, level, &next, key, own)?;
    }
    Ok(())
}

/// Takes the pair of a key out, from its own level down. On that level `lead` leads the group of its search path. On
/// each lower level the group that the key leads is joined to the group before it. After a fault a part of the pages
/// may be changed.
pub fn take_from<P: Pages>(
    alloc: Global,
    pages: &mut P,
    top: u8,
    lead: &Lead,
    key: &Key,
) -> Result<(), Fault>
    requires { IsObservable (P.state pages.old) → (d : draws.Draw) × (s : List Pair)
        × IsTaking d s (P.state pages.old).pages top (model_lead lead.now) key.now }
    ensures call { TakesPairFrom (P.state pages.old) (P.state pages.new) top
        (model_lead lead.now) key.now result }
    ensures follows { P.follows pages.old pages.new }
{
    let mut next = set_cells(alloc, pages, top, lead, key, &[])?;
    let mut level = top;
    while level > 0 {
        level -= 1;
        next = join_groups(alloc, pages, level, &next, key)?;
    }
    Ok(())
}

impl Walk {
    /// Puts the value under the key in the pages of a list. The place on level 0 that the key then has is
    /// known. After a fault a part of the pages may be changed.
    pub fn put_pair<P: Pages, W: Draw>(
        &mut self,
        pages: &mut P,
        draw: &W,
        key: &Key,
        value: Value,
    ) -> Result<(), Fault>
        requires known { IsObservable (P.state pages.old)
            → IsKnownGroup (W.drawn draw.now)
            (pairs_of_map (P.state pages.old).pages) self.old.known }
        requires whole { IsObservable (P.state pages.old)
            → HoldsPairs (W.drawn draw.now) (pairs_of_map (P.state pages.old).pages)
            (P.state pages.old).pages }
        requires room { IsObservable (P.state pages.old)
            → length (pairs_of_map (P.state pages.old).pages) < most_pairs }
        ensures call { PutsPairIn (W.drawn draw.now) (P.state pages.old)
            (P.state pages.new) key.now value self.new.known result }
        ensures follows { P.follows pages.old pages.new }
    {
        reveal_pair(key, &value);
        let own = draw.level_from(&mut self.front, key);
        if own == 0 {
            self.go_to(pages, draw.height(), key)?;
            return put_lowest(self.alloc, pages, &self.known_lead(), key, value);
        }
        let PutPlace { top, lead } = self.place_to_put(pages, draw, own, key)?;
        put_from(self.alloc, pages, top, &lead, key, &value)?;
        self.remember_put(top, key);
        Ok(())
    }

    /// Takes the pair of a key out of the pages of a list, and answers its value; `None` exactly where the
    /// list lacked the key. The place on level 0 that the key then has is known, unless the key led its
    /// group. After a fault a part of the pages may be changed.
    pub fn take_pair<P: Pages, W: Draw>(
        &mut self,
        pages: &mut P,
        draw: &W,
        key: &Key,
    ) -> Result<Option<Value>, Fault>
        requires known { IsObservable (P.state pages.old)
            → IsKnownGroup (W.drawn draw.now)
            (pairs_of_map (P.state pages.old).pages) self.old.known }
        requires whole { IsObservable (P.state pages.old)
            → HoldsPairs (W.drawn draw.now) (pairs_of_map (P.state pages.old).pages)
            (P.state pages.old).pages }
        ensures call { TakesPairIn (W.drawn draw.now) (P.state pages.old)
            (P.state pages.new) key.now self.new.known result }
        ensures follows { P.follows pages.old pages.new }
    {
        let top = draw.level_from(&mut self.front, key);
        let KeyPlace { lead, value } = self.find_place(pages, draw.height(), top, key)?;
        let Some(value) = value else {
            return Ok(None);
        };
        take_from(self.alloc, pages, top, &lead, key)?;
        if top > 0 {
            self.known = None;
        }
        Ok(Some(value))
    }
}
