//! The cells of one group, and how a change of one key leaves them.

ghost use Rattle.std.specs.Prelude.{◌≡◌, ◌↔◌, ◌+◌, ◌-◌, ◌<◌, ◌≤◌, ◌++◌, [], ◌∷◌, length, take, drop, IsTrue, IfSome};
ghost use Rattle.std.specs.Prelude.{IfOk, OnOk, true, false};
ghost use Rattle.std.specs.declared.cmp.Ordering.TheVariants.{Less, Equal, Greater};
ghost use Rattle.store_model.specs.Pages.{IsCell};
ghost use Rattle.store_base.specs.Leads.{model_lead};
ghost use Rattle.skip_groups.specs.Floors.{last_of, lead_from};
ghost use Rattle.skip_groups.specs.GroupCells.{AreCells, IsRisingList, AreBetween, IsKept, IsFirstCell, IsMerged};
ghost use Rattle.skip_groups.specs.GroupCells.{last_key_of, is_behind, side, merged};
ghost use Rattle.skip_groups.specs.InsertPlaces.{IsInsertPlace};

use crate::group::is_last;
use crate::group_search::count_not_above;
use node_pages::{Cell, Cells, Page};
use store_base::{Key, Lead, NoMemory};

/// Whether two levels have the same cells: those of level 0 have values, and those of all others have none.
fn have_same_cells(level: u8, other: u8) -> bool
    ensures { IsTrue result ↔ ((level ≡ 0) ↔ (other ≡ 0)) }
{
    (level == 0) == (other == 0)
}

/// The key of the last cell, if there is one.
fn last_key(cells: &Cells) -> Option<Key>
    ensures { result ≡ last_key_of cells.now.cells }
{
    if cells.is_empty() {
        return None;
    }
    Some(cells.key(cells.len() - 1))
}

/// Whether a key is above the last one, if there is one.
fn is_above(key: &Key, last: Option<Key>) -> bool
    ensures { result ≡ is_behind key.now last }
{
    match last {
        Some(last) => last.cmp(key).is_lt(),
        None => true,
    }
}

/// What leads the next lower group of a search path: the last of the cells below the key, or else what leads this one.
pub fn lead_behind(cells: &Cells, lead: &Lead) -> Lead
    ensures { model_lead result ≡ lead_from (last_of cells.now.cells) (model_lead lead.now) }
{
    match last_key(cells) {
        Some(key) => Lead::Key(key),
        None => *lead,
    }
}

/// Adds a cell behind the others where it is one of the level and its key is above theirs; any other is left out.
fn push_rising(cells: &mut Cells, level: u8, cell: &Cell) -> Result<(), NoMemory>
    requires { IsRisingList level cells.old }
    ensures valid { IsRisingList level cells.new }
    ensures added { AreCells level (cells.old.cells ++ cell.now ∷ [])
        → OnOk result (cells.new.cells ≡ cells.old.cells ++ cell.now ∷ []) }
    ensures few { length cells.new.cells ≤ length cells.old.cells + 1 }
{
    if !cell.is_of(level) || !is_above(&cell.key, last_key(cells)) {
        return Ok(());
    }
    cells.push(cell)
}

/// Adds the cells of the key behind the others, those left out that are not of the level or do not rise.
/// After `NoMemory` a part of them may be there.
pub fn append_own(cells: &mut Cells, level: u8, own: &[Cell], key: &Key) -> Result<(), NoMemory>
    requires { IsRisingList level cells.old }
    ensures valid { IsRisingList level cells.new }
    ensures added { AreCells level (cells.old.cells ++ side Equal key.now own.now)
        → OnOk result (cells.new.cells ≡ cells.old.cells ++ side Equal key.now own.now) }
    ensures few { length cells.new.cells ≤ length cells.old.cells + length own.now }
{
    for cell in own {
        if cell.key.cmp(key).is_eq() {
            push_rising(cells, level, cell)?;
        }
    }
    Ok(())
}

/// Adds the cells of a page from number `first` up to number `past` behind the others, where they are of the
/// level and above these; any others are left out.
fn append_rising(
    cells: &mut Cells,
    level: u8,
    page: &Page,
    first: u32,
    past: u32,
) -> Result<(), NoMemory>
    requires order { first ≤ past }
    requires within { past ≤ length page.now.cells }
    requires cells { IsRisingList level cells.old }
    ensures valid { IsRisingList level cells.new }
    ensures added { AreCells level (cells.old.cells ++ drop first (take past page.now.cells))
        → OnOk result (cells.new.cells ≡ cells.old.cells ++ drop first (take past page.now.cells)) }
    ensures few { length cells.new.cells ≤ length cells.old.cells + (past - first) }
{
    if first == past
        || !have_same_cells(level, page.label().level)
        || !is_above(&page.key(first), last_key(cells))
    {
        return Ok(());
    }
    cells.append_from(page, first, past)
}

/// From which cell of a page on its cells are not below the key, and from which on they are above it.
fn places_of(page: &Page, key: &Key) -> (u32, u32)
    ensures order { result.0 ≤ result.1 }
    ensures between { AreBetween key.now page.now.cells result.0 result.1 }
{
    if page.key(page.len() - 1).cmp(key).is_lt() {
        return (page.len(), page.len());
    }
    let past = count_not_above(page, key);
    if past > 0 && page.key(past - 1).cmp(key).is_eq() {
        (past - 1, past)
    } else {
        (past, past)
    }
}

/// Where the cell of the key, if it has just one and that is one of the level, comes into a page with room
/// that lacks the key.
pub fn place_of_own(level: u8, page: &Page, key: &Key, own: &[Cell]) -> Option<u32>
    ensures { IfSome result (λ at. IsInsertPlace level key.now own.now page.now at) }
{
    if !is_last(level, page) || page.level() != level || own.len() != 1 {
        return None;
    }
    let cell = &own[0];
    page.reveal();
    if !cell.is_of(level) || !cell.key.cmp(key).is_eq() {
        return None;
    }
    let (at, past) = places_of(page, key);
    if at != past {
        return None;
    }
    Some(at)
}

/// What leads the next lower group of a search path, where the cells before this place of a page are those
/// below the key: the last of them, or else what leads this one.
pub fn lead_before(page: &Page, at: u32, lead: &Lead) -> Lead
    requires { at ≤ length page.now.cells }
    ensures { model_lead result ≡ lead_from (last_of (take at page.now.cells))
        (model_lead lead.now) }
{
    if at == 0 {
        return *lead;
    }
    Lead::Key(page.key(at - 1))
}

/// Adds the cells of a page that are above the key behind the others, those left out that are not of the
/// level or do not rise.
pub fn append_above(cells: &mut Cells, level: u8, page: &Page, key: &Key) -> Result<(), NoMemory>
    requires { IsRisingList level cells.old }
    ensures valid { IsRisingList level cells.new }
    ensures added { AreCells level (cells.old.cells ++ side Greater key.now page.now.cells)
        → OnOk result (cells.new.cells ≡ cells.old.cells ++ side Greater key.now page.now.cells) }
    ensures few { length cells.new.cells ≤ length cells.old.cells + length page.now.cells }
{
    let (_, past) = places_of(page, key);
    append_rising(cells, level, page, past, page.len())
}

/// Parts the cells of a page by the key: those below it come behind the ones of `low`, and those above it
/// behind the ones of `high`, any left out that are not of the level or do not rise.
pub fn part_page(
    low: &mut Cells,
    high: &mut Cells,
    level: u8,
    page: &Page,
    key: &Key,
) -> Result<(), NoMemory>
    requires low { IsRisingList level low.old }
    requires high { IsRisingList level high.old }
    ensures low_valid { IsRisingList level low.new }
    ensures high_valid { IsRisingList level high.new }
    ensures low { AreCells level (low.old.cells ++ side Less key.now page.now.cells)
        → OnOk result (low.new.cells ≡ low.old.cells ++ side Less key.now page.now.cells) }
    ensures high { AreCells level (high.old.cells ++ side Greater key.now page.now.cells)
        → OnOk result (high.new.cells ≡ high.old.cells ++ side Greater key.now page.now.cells) }
    ensures low_few { length low.new.cells ≤ length low.old.cells + length page.now.cells }
    ensures high_few { length high.new.cells ≤ length high.old.cells + length page.now.cells }
{
    let (at, past) = places_of(page, key);
    append_rising(low, level, page, 0, at)?;
    append_rising(high, level, page, past, page.len())
}

/// Whether a change of the key leaves a page of the level as it is: it is full, and its cells are below the key.
pub fn stays(level: u8, page: &Page, key: &Key) -> bool
    ensures stays { result ≡ true → IsKept level key.now page.now }
    ensures goes { result ≡ false → IsFirstCell level key.now page.now }
{
    if is_last(level, page) {
        return false;
    }
    page.key(page.len() - 1).cmp(key).is_lt()
}

/// Sets the cells of the key among those of a page: the cells below the key, then its own, then those above
/// it. The answer is what leads the next lower group of the search path. Cells that are not of the level or
/// do not rise are left out.
pub fn merge_page(
    cells: &mut Cells,
    level: u8,
    lead: &Lead,
    page: &Page,
    key: &Key,
    own: &[Cell],
) -> Result<Lead, NoMemory>
    requires valid { IsRisingList level cells.old }
    requires empty { cells.old.cells ≡ [] }
    ensures valid { IsRisingList level cells.new }
    ensures merged { AreCells level (merged key.now page.now.cells own.now page.now.cells)
        → IfOk result (λ next. IsMerged (model_lead lead.now)
        key.now page.now.cells own.now page.now.cells (next, cells.new.cells)) }
    ensures few { length cells.new.cells ≤ length page.now.cells
        + (length own.now + length page.now.cells) }
{
    let (at, past) = places_of(page, key);
    append_rising(cells, level, page, 0, at)?;
    let next = lead_behind(cells, lead);
    append_own(cells, level, own, key)?;
    append_rising(cells, level, page, past, page.len())?;
    Ok(next)
}
