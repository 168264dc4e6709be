//! The pages of pairs in the order of their keys: cut into groups on each level, and these into pages.

ghost use Rattle.std.specs.Prelude.{◌≡◌, ◌≤◌, ◌++◌, length, map, IfOk, IfErr, OnOk};
ghost use Rattle.std.specs.List.{flat_map};
ghost use Rattle.std.specs.List.Sorted.{IsStrictlySortedBy};
ghost use Rattle.store_model.specs.Parameters.{height_limit};
ghost use Rattle.store_model.specs.Lists.{numbers_below};
ghost use Rattle.store_model.specs.Labels.{label_cmp};
ghost use Rattle.store_model.specs.Draws as draws;
ghost use Rattle.store_model.specs.Pairs.{IsPairs};
ghost use Rattle.store_model.specs.Pages.{level_pages, pages_of_pairs};
ghost use Rattle.layout_scratch.specs.Sorting.{pair_cmp, sorted_limit};
ghost use Rattle.layout_scratch.specs.Ranks.{pairs_of, AreRanked};
ghost use Rattle.layout_scratch.specs.Faults.{RefusesPages};

use crate::count::page_count;
use crate::fault::ScratchFault;
use crate::groups::{cells_of_group, first_group, lead_of_group};
use crate::ranked::Ranked;
use node_pages::{PageList, append_group};
use seeded_draw::Draw;
use std::alloc::Global;
use store_base::NoMemory;

/// Appends the pages of a level to those of the levels below it.
fn cut_level(
    alloc: Global,
    level: u8,
    ranked: &[Ranked],
    pages: &mut PageList,
) -> Result<(), NoMemory>
    requires { IsStrictlySortedBy pair_cmp (pairs_of ranked.now) }
    ensures { OnOk result ((d : draws.Draw) → AreRanked d ranked.now
        → pages.new ≡ pages.old ++ level_pages d (pairs_of ranked.now) level) }
{
    let mut start = 0;
    while start < ranked.len() {
        let group = first_group(level, &ranked[start..]);
        let cells = cells_of_group(alloc, level, group)?;
        append_group(pages, &lead_of_group(level, group), &cells)?;
        start += group.len();
    }
    Ok(())
}

/// The pages of the levels below a height.
fn cut_levels(alloc: Global, height: u8, ranked: &[Ranked]) -> Result<PageList, NoMemory>
    requires { IsStrictlySortedBy pair_cmp (pairs_of ranked.now) }
    ensures { IfOk result (λ pages. (d : draws.Draw) → AreRanked d ranked.now
        → pages ≡ flat_map (level_pages d (pairs_of ranked.now)) (numbers_below height)) }
{
    let mut pages = PageList::new(alloc);
    for level in 0..height {
        cut_level(alloc, level, ranked, &mut pages)?;
    }
    Ok(pages)
}

/// Cuts pairs whose keys rise into pages, level after level and group after group. `Full` comes exactly where they
/// are more than the draw's slots.
pub fn cut_pages<W: Draw>(
    alloc: Global,
    draw: &W,
    pairs: Vec<Ranked>,
) -> Result<PageList, ScratchFault>
    requires rising { IsPairs (pairs_of pairs.items) }
    requires levels { AreRanked (W.drawn draw.now) pairs.items }
    requires few { length pairs.items ≤ sorted_limit }
    requires height { (W.drawn draw.now).height ≤ height_limit }
    ensures value { IfOk result
        (λ pages. pages ≡ pages_of_pairs (W.drawn draw.now) (pairs_of pairs.entry.items)) }
    ensures fits { IfOk result (λ pages. length pages ≤ (W.drawn draw.now).slots) }
    ensures ranked { IfOk result
        (λ pages. IsStrictlySortedBy label_cmp (map (λ page. page.label) pages)) }
    ensures full { IfErr result
        (RefusesPages (W.drawn draw.now)
        (pages_of_pairs (W.drawn draw.now) (pairs_of pairs.entry.items))) }
{
    let ranked = pairs.as_slice();
    let height = draw.height();
    let need = page_count(height, ranked);
    let slots = draw.slots();
    if need > slots {
        return Err(ScratchFault::Full { need, slots });
    }
    Ok(cut_levels(alloc, height, ranked)?)
}
