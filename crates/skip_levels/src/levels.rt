//! A change of one key on one level of the list: the pages of one group, or of two that become one.

ghost use Rattle.std.specs.Prelude.{◌≡◌, ◌+◌, ◌<◌, ◌≤◌, [], ◌∷◌, length, cond};
ghost use Rattle.std.specs.FinMap as maps;
ghost use Rattle.store_base.specs.Leads.{model_lead};
ghost use Rattle.store_model.specs.Labels.Lead.{Leader};
ghost use Rattle.node_pages.specs.PagesState.{IsObservable, most_pages};
ghost use Rattle.skip_levels.specs.CellChanges.{PagesHaveRoom, SetsCells, SplitsGroup, JoinsGroups};
ghost use Rattle.skip_groups.specs.GroupCells.{IsRisingList};
ghost use Rattle.skip_groups.specs.GroupChanges.{IsRunChange};
ghost use Rattle.skip_groups.specs.GroupParts.{run_past};

use node_pages::{Cell, Cells, Pages, room};
use skip_groups::{
    NewCells, append_own, change_run, label_in_group, lead_behind, part_group, read_new_cells,
};
use std::alloc::Global;
use store_base::{Fault, Key, Lead};

/// Sets the key's cells, one or none, in the group that `lead` leads on the level, in the place of the cell
/// that the key had there. Where one page takes one cell more, that page is changed where it lies. The answer
/// is what leads the group of the next lower level, strictly below the key.
pub fn set_cells<P: Pages>(
    alloc: Global,
    pages: &mut P,
    level: u8,
    lead: &Lead,
    key: &Key,
    own: &[Cell],
) -> Result<Lead, Fault>
    requires own { length own.now ≤ 1 }
    requires room { IsObservable (P.state pages.old)
        → PagesHaveRoom (P.state pages.old).pages level (model_lead lead.now) }
    ensures call { SetsCells (P.state pages.old) (P.state pages.new) level
        (model_lead lead.now) key.now own.now result }
    ensures follows { P.follows pages.old pages.new }
{
    let mut made = NewCells::new(alloc, level, lead);
    if let Some(at) = read_new_cells(pages, level, lead, key, own, &mut made)? {
        pages.insert_cell(&label_in_group(level, lead, made.kept), at, &own[0])?;
        return Ok(made.next);
    }
    change_run(pages, level, lead, made.kept, made.count, &made.cells)?;
    Ok(made.next)
}

/// Changes the pages of the group that `lead` leads on the level to those that come of it, unless all its cells are
/// where they were.
fn change_moved<P: Pages>(
    pages: &mut P,
    level: u8,
    lead: &Lead,
    made: &NewCells,
    moved: bool,
) -> Result<(), Fault>
    requires valid { IsRisingList level made.now.cells }
    requires room { IsObservable (P.state pages.old)
        → maps.len (P.state pages.old).pages
        + (made.now.count + length made.now.cells.cells) < most_pages }
    ensures call { IsRunChange (P.state pages.old) (P.state pages.new) level
        (model_lead lead.now) made.now.kept made.now.count made.now.cells.cells
        (cond moved (run_past level made.now) 0) result }
    ensures follows { P.follows pages.old pages.new }
{
    if !moved {
        return Ok(());
    }
    change_run(pages, level, lead, made.kept, made.count, &made.cells)
}

/// Cuts the group that `lead` leads on the level in two: the cells below the key stay, and the key's own cell
/// and those above it make the group that the key leads. The answer is what leads the group of the next lower
/// level, strictly below the key.
pub fn split_group<P: Pages>(
    alloc: Global,
    pages: &mut P,
    level: u8,
    lead: &Lead,
    key: &Key,
    own: Cell,
) -> Result<Lead, Fault>
    requires room { IsObservable (P.state pages.old)
        → PagesHaveRoom (P.state pages.old).pages level (model_lead lead.now) }
    ensures call { SplitsGroup (P.state pages.old) (P.state pages.new) level
        (model_lead lead.now) key.now (own ∷ []) result }
    ensures follows { P.follows pages.old pages.new }
{
    let mut high = Cells::with_room(alloc, level, u32::from(room(level)) + 1)?;
    append_own(&mut high, level, &[own], key)?;
    let first = high.len();
    let mut made = NewCells::new(alloc, level, lead);
    part_group(pages, level, lead, key, &mut made, &mut high)?;
    change_moved(pages, level, lead, &made, high.len() > first)?;
    change_run(pages, level, &Lead::Key(*key), 0, 0, &high)?;
    Ok(lead_behind(&made.cells, &made.next))
}

/// Joins the group that the key leads on the level to that of `lead`, which stands before it, and leaves out
/// the key's own cell. The answer is what leads the group of the next lower level, strictly below the key.
pub fn join_groups<P: Pages>(
    alloc: Global,
    pages: &mut P,
    level: u8,
    lead: &Lead,
    key: &Key,
) -> Result<Lead, Fault>
    requires room { IsObservable (P.state pages.old)
        → PagesHaveRoom (P.state pages.old).pages level (model_lead lead.now) }
    requires own_room { IsObservable (P.state pages.old)
        → PagesHaveRoom (P.state pages.old).pages level (Leader key.now) }
    ensures call { JoinsGroups (P.state pages.old) (P.state pages.new) level
        (model_lead lead.now) key.now result }
    ensures follows { P.follows pages.old pages.new }
{
    let leader = Lead::Key(*key);
    let mut made = NewCells::new(alloc, level, lead);
    let mut none = Cells::new(alloc, level);
    part_group(pages, level, lead, key, &mut made, &mut none)?;
    let next = lead_behind(&made.cells, &made.next);
    let first = made.cells.len();
    let mut gone = NewCells::new(alloc, level, &leader);
    part_group(pages, level, &leader, key, &mut gone, &mut made.cells)?;
    let count = gone.kept + gone.count;
    change_run(pages, level, &leader, 0, count, &Cells::new(alloc, level))?;
    change_moved(pages, level, lead, &made, made.cells.len() > first)?;
    Ok(next)
}
