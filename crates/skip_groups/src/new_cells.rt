//! What setting the cells of a key, or parting all cells by it, makes of the pages of its group.

ghost use Rattle.std.specs.Prelude.{◌≡◌, ◌+◌, ◌<◌, ◌≤◌, [], ◌∷◌, ◌++◌, List, length, IfSome, IfOk, OnOk, ℕ};
ghost use Rattle.store_base.specs.Leads.{model_lead};
ghost use Rattle.store_model.specs.Labels as labels;
ghost use Rattle.store_model.specs.Pages as model;
ghost use Rattle.skip_groups.specs.GroupCells.{IsFirstCell, IsRisingList};

use crate::cells::{append_above, append_own, merge_page, part_page, place_of_own, stays};
use crate::group::is_last;
use node_pages::{Cell, Cells, Page};
use std::alloc::Global;
use store_base::{Key, Lead, NoMemory};

/// The cells that come into a group where those of a key are set, or which the key parts, in the place of the cells of
/// some of its pages.
#[derive(Drop)]
pub struct NewCells {
    /// Where cells are set, what leads the next lower group of the search path; where they are parted, the last key of
    /// the pages that stay, or else what leads the group.
    pub next: Lead,
    /// How many of the first pages stay as they are.
    pub kept: u32,
    /// How many pages behind them give way; any others stay.
    pub count: u32,
    /// The cells that come in their place; none where one cell comes into a page that lies where it is.
    pub cells: Cells,
}

/// What is known behind a page of the group.
#[derive(Clone, Copy)]
pub enum Step {
    /// Pages behind it may give way as well.
    More,
    /// None does.
    Done,
    /// Nothing changes.
    Same,
}

impl NewCells {
    ghost use Rattle.skip_groups.specs.GroupParts.{IsParted};
    ghost use Rattle.skip_groups.specs.NewCells.{IsCellsSet, IsStep, IsStepBehind, IsEnd};
    ghost use Rattle.skip_groups.specs.InsertPlaces.{IsInsertPlace};

    /// What is known behind a page that others may follow.
    fn step_behind(level: u8, page: &Page) -> Step
        ensures { IsStepBehind level page.now result }
    {
        if is_last(level, page) {
            Step::Done
        } else {
            Step::More
        }
    }

    /// Begins with the group that `lead` leads on the level, before its first page. It takes no memory.
    pub fn new(alloc: Global, level: u8, lead: &Lead) -> Self
        ensures valid { IsRisingList level result.cells }
        ensures empty { result.cells.cells ≡ [] }
        ensures set { (key : List ℕ) (own : List model.Cell)
            → IsCellsSet level (model_lead lead.now) key own [] result }
        ensures parted { (key : List ℕ) (start : List model.Cell)
            → IsParted level (model_lead lead.now) key [] start result start }
    {
        NewCells {
            next: *lead,
            kept: 0,
            count: 0,
            cells: Cells::new(alloc, level),
        }
    }

    /// Goes on with a page of the level behind one that gives way.
    fn append(&mut self, level: u8, page: &Page, key: &Key) -> Result<Step, NoMemory>
        requires valid { IsRisingList level self.old.cells }
        requires some { 0 < self.old.count }
        requires number { self.old.kept + self.old.count < 4294967295 }
        ensures valid { OnOk result (IsRisingList level self.new.cells) }
        ensures some { OnOk result (0 < self.new.count) }
        ensures counted { OnOk result
            (self.new.kept + self.new.count ≡ self.old.kept + self.old.count + 1) }
        ensures set { (lead : labels.Lead) (own : List model.Cell) (pages : List model.Page)
            → IsCellsSet level lead key.now own pages self.old
            → OnOk result (IsCellsSet level lead key.now own (pages ++ page.now ∷ []) self.new) }
        ensures step { (lead : labels.Lead)
            → IfOk result (λ step. IsStep level lead page.now self.new step) }
    {
        append_above(&mut self.cells, level, page, key)?;
        self.count += 1;
        Ok(NewCells::step_behind(level, page))
    }

    /// Goes on with the first page that gives way. Where the key's cells take the place of as many, none
    /// behind it does.
    fn begin(
        &mut self,
        level: u8,
        lead: &Lead,
        page: &Page,
        key: &Key,
        own: &[Cell],
    ) -> Result<Step, NoMemory>
        requires valid { IsRisingList level self.old.cells }
        requires none { self.old.count ≡ 0 }
        requires empty { self.old.cells.cells ≡ [] }
        requires first { IsFirstCell level key.now page.now }
        requires number { self.old.kept < 4294967295 }
        ensures valid { OnOk result (IsRisingList level self.new.cells) }
        ensures some { OnOk result (0 < self.new.count) }
        ensures counted { OnOk result
            (self.new.kept + self.new.count ≡ self.old.kept + self.old.count + 1) }
        ensures set { (pages : List model.Page)
            → IsCellsSet level (model_lead lead.now) key.now own.now pages self.old
            → OnOk result (IsCellsSet level (model_lead lead.now) key.now own.now
            (pages ++ page.now ∷ []) self.new) }
        ensures step { IfOk result
            (λ step. IsStep level (model_lead lead.now) page.now self.new step) }
    {
        self.next = merge_page(&mut self.cells, level, &self.next, page, key, own)?;
        self.count = 1;
        if self.cells.len() != page.len() {
            return Ok(NewCells::step_behind(level, page));
        }
        if self.cells.is_page(lead, self.kept, 0, page) {
            Ok(Step::Same)
        } else {
            Ok(Step::Done)
        }
    }

    /// Where the cell of the key comes into a page behind those that stay, and changes no other page.
    pub(crate) fn place(&self, level: u8, page: &Page, key: &Key, own: &[Cell]) -> Option<u32>
        ensures none { IfSome result (λ at. self.now.count ≡ 0) }
        ensures place { IfSome result (λ at. IsInsertPlace level key.now own.now page.now at) }
    {
        if self.count > 0 {
            return None;
        }
        place_of_own(level, page, key, own)
    }

    /// Goes on with the next page of the group that `lead` leads on the level, and answers what is known behind it.
    pub(crate) fn go_on(
        &mut self,
        level: u8,
        lead: &Lead,
        page: &Page,
        key: &Key,
        own: &[Cell],
    ) -> Result<Step, NoMemory>
        requires valid { IsRisingList level self.old.cells }
        requires empty { self.old.count ≡ 0 → self.old.cells.cells ≡ [] }
        requires number { self.old.kept + self.old.count < 4294967295 }
        ensures valid { OnOk result (IsRisingList level self.new.cells) }
        ensures empty { OnOk result (self.new.count ≡ 0 → self.new.cells.cells ≡ []) }
        ensures counted { OnOk result
            (self.new.kept + self.new.count ≡ self.old.kept + self.old.count + 1) }
        ensures set { (pages : List model.Page)
            → IsCellsSet level (model_lead lead.now) key.now own.now pages self.old
            → OnOk result (IsCellsSet level (model_lead lead.now) key.now own.now
            (pages ++ page.now ∷ []) self.new) }
        ensures step { IfOk result
            (λ step. IsStep level (model_lead lead.now) page.now self.new step) }
    {
        if self.count > 0 {
            return self.append(level, page, key);
        }
        if !stays(level, page, key) {
            return self.begin(level, lead, page, key, own);
        }
        self.next = Lead::Key(page.key(page.len() - 1));
        self.kept += 1;
        Ok(Step::More)
    }

    /// Goes on with the next page of a group that is parted by the key: the cells below the key of each page that gives
    /// way come behind one another, and those above it behind `above`. After `NoMemory` nothing is promised of either.
    pub fn part(
        &mut self,
        level: u8,
        page: &Page,
        key: &Key,
        above: &mut Cells,
    ) -> Result<(), NoMemory>
        requires low { IsRisingList level self.old.cells }
        requires high { IsRisingList level above.old }
        requires number { self.old.kept + self.old.count < 4294967295 }
        ensures low { OnOk result (IsRisingList level self.new.cells) }
        ensures high { OnOk result (IsRisingList level above.new) }
        ensures counted { OnOk result
            (self.new.kept + self.new.count ≡ self.old.kept + self.old.count + 1) }
        ensures parted { (lead : labels.Lead) (start : List model.Cell) (pages : List model.Page)
            → IsParted level lead key.now pages start self.old above.old.cells
            → OnOk result (IsParted level lead key.now (pages ++ page.now ∷ []) start self.new
            above.new.cells) }
    {
        if self.count == 0 && stays(level, page, key) {
            self.next = Lead::Key(page.key(page.len() - 1));
            self.kept += 1;
            return Ok(());
        }
        part_page(&mut self.cells, above, level, page, key)?;
        self.count += 1;
        Ok(())
    }

    /// The key's cells come behind all others where no page gives way.
    pub(crate) fn end(&mut self, level: u8, key: &Key, own: &[Cell]) -> Result<(), NoMemory>
        requires valid { IsRisingList level self.old.cells }
        ensures valid { OnOk result (IsRisingList level self.new.cells) }
        ensures ends { OnOk result (IsEnd level key.now own.now self.old self.new) }
    {
        if self.count > 0 {
            return Ok(());
        }
        append_own(&mut self.cells, level, own, key)
    }
}
