//! The groups of a level, each a part of the pairs in the order of their keys. Pairs of a group whose keys do not
//! stand on the level have no cell in it.

ghost use Rattle.std.specs.Prelude.{◌≡◌, ◌≤◌, length, drop, IfOk, nat_le};
ghost use Rattle.std.specs.List.{AllByRecursion, take_while};
ghost use Rattle.store_model.specs.Draws.{Draw};
ghost use Rattle.store_model.specs.Pages as model;
ghost use Rattle.store_model.specs.Pages.{cell_on, IsCell};
ghost use Rattle.store_base.specs.Leads.{model_lead};
ghost use Rattle.layout_scratch.specs.Sorting.{sorted_limit};
ghost use Rattle.layout_scratch.specs.Ranks.{AreRanked, cells_on, IsFirstGroup};

use crate::ranked::Ranked;
use node_pages::{Cell, Cells};
use std::alloc::Global;
use store_base::{Key, Lead, NoMemory, Value};

/// How many pairs stand in front of the next that begins a group.
fn follower_count(level: u8, others: &[Ranked]) -> usize
    ensures { result ≡ length (take_while (λ other. nat_le other.level level) others.now) }
{
    others
        .iter()
        .take_while(|other| other.level <= level)
        .count()
}

/// The first group of the level: it ends before the next pair whose key stands on a higher level.
pub fn first_group<'a, 'p>(level: u8, ranked: &'a [Ranked<'p>]) -> &'a [Ranked<'p>]
    requires { 1 ≤ length ranked.now }
    ensures { IsFirstGroup level ranked.now result.now (drop (length result.now) ranked.now) }
{
    &ranked[..1 + follower_count(level, &ranked[1..])]
}

/// How many cells a group has.
pub fn cell_count(level: u8, group: &[Ranked]) -> u32
    requires { length group.now ≤ sorted_limit }
    ensures { result ≡ length (cells_on level group.now) }
{
    group.iter().filter(|pair| level <= pair.level).count() as u32
}

/// What leads a group: the key of its first pair where that stands on a higher level, and else the start.
pub fn lead_of_group(level: u8, group: &[Ranked]) -> Lead
    requires some { 1 ≤ length group.now }
    requires uncut { AllByRecursion (λ other. other.level ≤ level) (drop 1 group.now) }
    ensures { (d : Draw) → AreRanked d group.now
        → model_lead result ≡ model.lead_of d level (cells_on level group.now) }
{
    let first = &group[0];
    if first.level > level {
        Lead::Key(first.pair.0)
    } else {
        Lead::Start
    }
}

/// The cell of a pair on the level.
fn cell(level: u8, pair: &(Key, Value)) -> Result<Cell, NoMemory>
    ensures value { IfOk result (λ cell. cell ≡ cell_on level pair.now) }
    ensures valid { IfOk result (IsCell level) }
{
    let cell = if level == 0 {
        Cell::with_value(pair.0, pair.1.clone()?)
    } else {
        Cell::bare(pair.0)
    };
    Ok(cell)
}

/// The cells of a group.
pub fn cells_of_group(alloc: Global, level: u8, group: &[Ranked]) -> Result<Cells, NoMemory>
    ensures { IfOk result (λ cells. cells ≡ record {
      level = level;
      cells = cells_on level group.now;
    }) }
{
    let mut cells = Cells::new(alloc, level);
    for ranked in group {
        if level <= ranked.level {
            cells.push(&cell(level, ranked.pair)?)?;
        }
    }
    Ok(cells)
}
