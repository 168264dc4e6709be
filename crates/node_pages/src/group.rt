//! Groups: the pages that the cells of one group make.

ghost use Rattle.std.specs.Prelude.{◌≡◌, ◌++◌, ◌==◌, ℕ, List, map, length, take, IfOk, OnOk, OnErr};
ghost use Rattle.std.specs.List.{filter, flat_map};
ghost use Rattle.std.specs.List.Sorted.{IsStrictlySortedBy};
ghost use Rattle.store_model.specs.Paths.{key_cmp};
ghost use Rattle.store_model.specs.Pages.{Cell as ModelCell, group_pages};
ghost use Rattle.store_model.specs.Labels.{Lead as ModelLead};
ghost use Rattle.store_base.specs.Leads.{model_lead};
ghost use Rattle.node_pages.specs.Groups.{level_of_pages};

use crate::cells::Cells;
use crate::sequence::PageList;
use std::alloc::Global;
use store_base::{Lead, NoMemory};

/// Cuts the cells of the group of the level that `lead` leads into pages: runs of 10 cells at level 0 and of 31 above,
/// the last run holding the rest, with labels numbered from 0.
pub fn cut_group(alloc: Global, level: u8, lead: &Lead, cells: &Cells) -> Result<PageList, NoMemory>
    requires of_level { cells.now.level ≡ level }
    requires sorted { IsStrictlySortedBy key_cmp (map (λ c. c.key) cells.now.cells) }
    ensures { IfOk result (λ pages. pages
        ≡ group_pages level (model_lead lead.now) cells.now.cells) }
{
    let _ = level;
    let mut pages = PageList::with_room(alloc, cells.page_count())?;
    append_group(&mut pages, lead, cells)?;
    Ok(pages)
}

/// Appends the pages that `cut_group` gives, so that no page moves to another list. `NoMemory` leaves the first
/// few of them appended, or none.
pub fn append_group(pages: &mut PageList, lead: &Lead, cells: &Cells) -> Result<(), NoMemory>
    requires { IsStrictlySortedBy key_cmp (map (λ c. c.key) cells.now.cells) }
    ensures ok { OnOk result (pages.new ≡ pages.old
        ++ group_pages cells.now.level (model_lead lead.now) cells.now.cells) }
    ensures err { OnErr result ((n : ℕ)
        × (pages.new ≡ pages.old ++ take n
        (group_pages cells.now.level (model_lead lead.now) cells.now.cells))) }
{
    cells.reveal();
    for index in 0..cells.page_count() {
        pages.push(cells.page(lead, 0, index))?;
    }
    Ok(())
}

/// The level of the first of the pages, 0 where there is none.
#[tactic(auto, unfolding(crate::specs::Groups::level_of_pages))]
fn level_of(pages: &PageList) -> u8
    ensures { result ≡ level_of_pages pages.now }
{
    match pages.as_slice().first() {
        Some(page) => page.label().level,
        None => 0,
    }
}

/// Joins the cells of the pages of a group, one page after another: the cells that `cut_group` cut. Of a list of pages
/// that no group has, the cells of those pages are joined that are of the first one's level.
pub fn join_group(alloc: Global, pages: &PageList) -> Result<Cells, NoMemory>
    ensures cells { IfOk result (λ joined. joined ≡ record {
      level = level_of_pages pages.now;
      cells = flat_map (λ page. page.cells)
          (filter (λ page. page.label.level == level_of_pages pages.now) pages.now);
    }) }
    ensures group { (level : ℕ) (lead : ModelLead) (cells : List ModelCell)
        → pages.now ≡ group_pages level lead cells
        → IfOk result (λ joined. joined.cells ≡ cells) }
{
    join_level(alloc, level_of(pages), pages)
}

/// Joins the cells of the pages that are of the level, one page after another.
fn join_level(alloc: Global, level: u8, pages: &PageList) -> Result<Cells, NoMemory>
    ensures { IfOk result (λ joined. joined ≡ record {
      level = level;
      cells = flat_map (λ page. page.cells) (filter (λ page. page.label.level == level) pages.now);
    }) }
{
    let room = pages
        .as_slice()
        .iter()
        .fold(0_u32, |room, page| room.saturating_add(page.len()));
    let mut cells = Cells::with_room(alloc, level, room)?;
    for page in pages.as_slice() {
        if page.label().level == level {
            cells.append_from(page, 0, page.len())?;
        }
    }
    Ok(cells)
}
