//! Reading and changing the pages of a group in which the cells of a key are set, or which a key parts.

ghost use Rattle.std.specs.Prelude.{◌≡◌, ◌+◌, ◌<◌, [], max, length, IfSome, IfOk, OnOk};
ghost use Rattle.std.specs.FinMap as maps;
ghost use Rattle.store_model.specs.Lists.{runs};
ghost use Rattle.store_model.specs.Pages.{page_room};
ghost use Rattle.store_base.specs.Leads.{model_lead};
ghost use Rattle.store_base.specs.declared.store_fault.Fault.TheVariants as faults;
ghost use Rattle.node_pages.specs.PagesState.{IsObservable, most_pages};
ghost use Rattle.skip_groups.specs.GroupCells.{IsRisingList};
ghost use Rattle.skip_groups.specs.GroupChanges.{IsRunChange};
ghost use Rattle.skip_groups.specs.GroupParts.{IsParted, IsGroupParted};
ghost use Rattle.skip_groups.specs.InsertPlaces.{IsSetRead};
ghost use Rattle.skip_groups.specs.NewCells.{IsCellsSet};

use crate::cells::lead_before;
use crate::group::{is_last, label_in_group};
use crate::new_cells::{NewCells, Step};
use node_pages::{Cell, Cells, Pages};
use store_base::{Fault, Key, Lead};

/// Reads the group that `lead` leads on the level, as far as it changes where the key's cells are set in it: each page
/// is asked for once at most, and none behind a page with room. Where one cell comes into the page behind those that
/// stay, and nothing else changes, the answer is its place there, and no cells are gathered. After a fault the pages
/// are as they were.
pub fn read_new_cells<P: Pages>(
    pages: &mut P,
    level: u8,
    lead: &Lead,
    key: &Key,
    own: &[Cell],
    made: &mut NewCells,
) -> Result<Option<u32>, Fault>
    requires valid { IsRisingList level made.old.cells }
    requires empty { made.old.cells.cells ≡ [] }
    requires none { IsCellsSet level (model_lead lead.now) key.now own.now [] made.old }
    ensures call { IsSetRead (P.state pages.old) (P.state pages.new) level (model_lead lead.now)
        key.now own.now made.new result }
    ensures valid { OnOk result (IsRisingList level made.new.cells) }
    ensures number { IfOk result (λ place. IfSome place (λ at. made.new.kept < 4294967296)) }
    ensures follows { P.follows pages.old pages.new }
{
    for index in 0..u32::MAX {
        let found = pages.look(&label_in_group(level, lead, index))?;
        let Some(page) = found else {
            made.end(level, key, own)?;
            return Ok(None);
        };
        if let Some(at) = made.place(level, page, key, own) {
            made.next = lead_before(page, at, &made.next);
            return Ok(Some(at));
        }
        match made.go_on(level, lead, page, key, own)? {
            Step::More => {}
            Step::Done => return Ok(None),
            Step::Same => {
                made.count = 0;
                made.cells.restart(level);
                return Ok(None);
            }
        }
    }
    Ok(None)
}

/// Reads the group that `lead` leads on the level, and parts its cells by the key: the first full pages of cells below
/// it stay, of the others the cells below the key are taken together, and those above it come behind `above`. Each page
/// is asked for once, and none behind a page with room. After a fault the pages are as they were.
pub fn part_group<P: Pages>(
    pages: &mut P,
    level: u8,
    lead: &Lead,
    key: &Key,
    made: &mut NewCells,
    above: &mut Cells,
) -> Result<(), Fault>
    requires valid { IsRisingList level made.old.cells }
    requires above { IsRisingList level above.old }
    requires none { IsParted level (model_lead lead.now) key.now [] above.old.cells made.old
        above.old.cells }
    ensures call { IsGroupParted (P.state pages.old) (P.state pages.new) level
        (model_lead lead.now) key.now above.old.cells made.new above.new.cells result }
    ensures valid { OnOk result (IsRisingList level made.new.cells) }
    ensures above { OnOk result (IsRisingList level above.new) }
    ensures number { OnOk result (made.new.kept + made.new.count < 4294967296) }
    ensures follows { P.follows pages.old pages.new }
{
    for index in 0..u32::MAX {
        let found = pages.look(&label_in_group(level, lead, index))?;
        let Some(page) = found else {
            return Ok(());
        };
        made.part(level, page, key, above)?;
        if is_last(level, page) {
            return Ok(());
        }
    }
    Ok(())
}

/// The fault of a group that would have 2^32 pages or more. No list of pairs has such a group, so it comes
/// only of pages that do not tell their map, and of which nothing is promised. It is answered as want of
/// memory.
fn too_many_pages() -> Fault
    ensures { result ≡ faults.NoMemory }
{
    Fault::NoMemory
}

/// Changes so many pages of the group that `lead` leads on the level, from page `first` on, to those of these cells:
/// pages for which there are no cells are dropped. After a fault a part of the pages is changed.
pub fn change_run<P: Pages>(
    pages: &mut P,
    level: u8,
    lead: &Lead,
    first: u32,
    count: u32,
    cells: &Cells,
) -> Result<(), Fault>
    requires valid { IsRisingList level cells.now }
    requires room { IsObservable (P.state pages.old)
        → maps.len (P.state pages.old).pages + (count + length cells.now.cells) < most_pages }
    ensures call { IsRunChange (P.state pages.old) (P.state pages.new) level
        (model_lead lead.now) first count cells.now.cells
        (max count (length (runs (page_room level) cells.now.cells))) result }
    ensures follows { P.follows pages.old pages.new }
{
    let filled = cells.page_count();
    let all = count.max(filled);
    if all > u32::MAX - first {
        return Err(too_many_pages());
    }
    for i in 0..all {
        if i < filled {
            cells.put_page(pages, lead, first, i)?;
        } else {
            pages.drop_page(&label_in_group(level, lead, first + i))?;
        }
    }
    Ok(())
}
