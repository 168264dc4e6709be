//! The last page of a level while its cells come.

ghost use Rattle.std.specs.Prelude.{◌≡◌, ◌↔◌, ℕ, ◌+◌, ◌<◌, ◌≤◌, ◌∷◌, [], List, Option, Some, None, IsTrue};
ghost use Rattle.store_model.specs.Draws as draws;
ghost use Rattle.store_model.specs.Pairs.{Pair};
ghost use Rattle.store_model.specs.Pages as model;
ghost use Rattle.store_model.specs.Pages.{IsCell, lead_of};
ghost use Rattle.rising_pages.specs.OpenPages.{Comes, HasCome, HasRoom, StandsBehind};
ghost use Rattle.rising_pages.specs.Raised.{KeyComes, key_pair, bare_cell};

use crate::raised::RaisedKey;
use node_pages::{Cell, Page, reveal_key, room};
use std::marker::Model;
use std::mem::replace;
use store_base::{Label, Lead};

/// The last page of a level so far, if there is one. The next cell of the level comes onto it, or closes it. Contracts
/// see it as that page.
#[derive(Drop)]
pub struct OpenPage {
    page: Option<Page>,
}

impl Model for OpenPage {
    ghost use Rattle.std.specs.Prelude.{Option};
    ghost use Rattle.store_model.specs.Pages as model;

    ghost Value = { Option model.Page };

    ghost view = { λ o. o.page };
}

/// The label of the page that begins with a cell: the first of its group, which the cell leads where its key stands
/// on a higher level too.
fn first_label(level: u8, top: u8, cell: &Cell) -> Label
    ensures level { result.level ≡ level }
    ensures value { (d : draws.Draw) → top ≡ d.level cell.now.key → result ≡ record {
      level = level;
      lead = lead_of d level (cell.now ∷ []);
      index = 0;
    } }
{
    reveal_key(&cell.key);
    let lead = if top > level {
        Lead::Key(cell.key)
    } else {
        Lead::Start
    };
    Label {
        level,
        lead,
        index: 0,
    }
}

/// The label of the next page of the group.
fn next_label(label: &Label) -> Label
    ensures level { result.level ≡ label.now.level }
    ensures value { label.now.index + 1 < 4294967296 → result ≡ record {
      level = label.now.level;
      lead = label.now.lead;
      index = label.now.index + 1;
    } }
{
    Label {
        level: label.level,
        lead: label.lead,
        index: label.index.saturating_add(1),
    }
}

impl OpenPage {
    /// No page: no cell of the level has come.
    pub fn new() -> Self
        ensures { result ≡ None }
    {
        OpenPage { page: None }
    }

    /// The page.
    pub fn page(&self) -> &Option<Page>
        ensures { result.now ≡ self.now }
    {
        &self.page
    }

    /// Whether the next cell of the level, up to the level `top`, comes onto the page.
    pub fn has_room(&self, level: u8, top: u8) -> bool
        ensures { IsTrue result ↔ HasRoom self.now level top }
    {
        match &self.page {
            Some(page) => top <= level && page.len() < u32::from(room(level)),
            None => false,
        }
    }

    /// Takes a cell as `take` does, which comes onto the page. It costs no more than the bytes of the cell.
    pub fn add(&mut self, level: u8, top: u8, cell: &Cell)
        requires cell { IsCell level cell.now }
        requires behind { StandsBehind self.old level cell.now }
        requires room { HasRoom self.old level top }
        ensures { (d : draws.Draw) (s : List Pair) (y : Pair) → Comes d level top s y self.old cell.now
            → HasCome d level s y self.new None }
    {
        let Some(page) = &mut self.page else {
            return;
        };
        page.add(cell);
    }

    /// Takes a cell as `take` does, which begins a page.
    fn begin(&mut self, level: u8, top: u8, cell: &Cell) -> Option<Page>
        requires cell { IsCell level cell.now }
        requires behind { StandsBehind self.old level cell.now }
        requires no_room { HasRoom self.old level top → ⊥ }
        ensures { (d : draws.Draw) (s : List Pair) (y : Pair) → Comes d level top s y self.old cell.now
            → HasCome d level s y self.new result }
    {
        let Some(page) = &mut self.page else {
            self.page = Some(Page::with_first(first_label(level, top, cell), cell));
            return None;
        };
        if top > level {
            return Some(replace(page, Page::with_first(first_label(level, top, cell), cell)));
        }
        let label = next_label(&page.label());
        Some(replace(page, Page::with_first(label, cell)))
    }

    /// Takes the cell of the next pair whose key stands on the level, up to the level `top`. Answers the page that it
    /// closes: no later cell comes onto that.
    pub fn take(&mut self, level: u8, top: u8, cell: &Cell) -> Option<Page>
        requires cell { IsCell level cell.now }
        requires behind { StandsBehind self.old level cell.now }
        ensures { (d : draws.Draw) (s : List Pair) (y : Pair) → Comes d level top s y self.old cell.now
            → HasCome d level s y self.new result }
    {
        if self.has_room(level, top) {
            self.add(level, top, cell);
            return None;
        }
        self.begin(level, top, cell)
    }

    /// Takes a key above level 0: its cell, where it stands on the level. Answers as `take` does.
    pub fn take_key(&mut self, level: u8, key: &RaisedKey) -> Option<Page>
        requires above { 1 ≤ level }
        requires behind { level ≤ key.now.level → StandsBehind self.old level (bare_cell key.now) }
        ensures { (d : draws.Draw) (s : List Pair) → KeyComes d level s key.now self.old
            → HasCome d level s (key_pair key.now) self.new result }
    {
        if key.level < level {
            return None;
        }
        self.take(level, key.level, &Cell::bare(key.key))
    }
}
