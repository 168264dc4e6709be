//! From pairs to a layout.

ghost use Rattle.std.specs.Prelude.{◌≡◌, ◌≤◌, length, IfOk, IfErr};
ghost use Rattle.seeded_draw.specs.AnyDrawn.{any_draw};
ghost use Rattle.store_model.specs.Parameters.{IsParameters, height_limit};
ghost use Rattle.store_model.specs.Draws.{draw_of};
ghost use Rattle.store_model.specs.Pairs.{IsPairs};
ghost use Rattle.store_model.specs.Pages.{pages_of_pairs};
ghost use Rattle.store_model.specs.Placement.{place};
ghost use Rattle.layout_scratch.specs.Sorting.{HasDistinctKeys, by_key, sorted_limit};
ghost use Rattle.layout_scratch.specs.Levels.{AreLevels};
ghost use Rattle.layout_scratch.specs.Ranks.{pairs_of, AreRanked};
ghost use Rattle.layout_scratch.specs.Faults.{IsRefusal, RefusesPages};

use crate::cut::cut_pages;
use crate::drawn::DrawnPairs;
use crate::fault::ScratchFault;
use crate::layout::Layout;
use crate::place::place_pages;
use crate::ranked::{Ranked, ranked_pairs, sorted_pairs};
use node_pages::PairList;
use seeded_draw::{AnyDraw, Draw};
use std::alloc::Global;
use store_base::Params;

/// The layout of pairs whose keys rise, under a draw.
fn lay_out<W: Draw>(alloc: Global, draw: &W, pairs: Vec<Ranked>) -> Result<Layout, ScratchFault>
    requires rising { IsPairs (pairs_of pairs.items) }
    requires levels { AreRanked (W.drawn draw.now) pairs.items }
    requires few { length pairs.items ≤ sorted_limit }
    requires height { (W.drawn draw.now).height ≤ height_limit }
    ensures value { IfOk result (λ layout. layout
        ≡ place (W.drawn draw.now)
        (pages_of_pairs (W.drawn draw.now) (pairs_of pairs.entry.items))) }
    ensures fits { IfOk result
        (λ _. length (pages_of_pairs (W.drawn draw.now) (pairs_of pairs.entry.items))
        ≤ (W.drawn draw.now).slots) }
    ensures full { IfErr result
        (RefusesPages (W.drawn draw.now)
        (pages_of_pairs (W.drawn draw.now) (pairs_of pairs.entry.items))) }
{
    let pages = cut_pages(alloc, draw, pairs)?;
    Ok(place_pages(alloc, draw, pages)?)
}

/// The layout of a list of pairs under a draw.
fn build_by<W: Draw>(alloc: Global, draw: &W, pairs: &PairList) -> Result<Layout, ScratchFault>
    requires distinct { HasDistinctKeys pairs.now }
    requires few { length pairs.now ≤ sorted_limit }
    requires height { (W.drawn draw.now).height ≤ height_limit }
    ensures value { IfOk result (λ layout. layout
        ≡ place (W.drawn draw.now) (pages_of_pairs (W.drawn draw.now) (by_key pairs.now))) }
    ensures fits { IfOk result (λ _. length (pages_of_pairs (W.drawn draw.now) (by_key pairs.now))
        ≤ (W.drawn draw.now).slots) }
    ensures full { IfErr result (IsRefusal (W.drawn draw.now) pairs.now) }
{
    let sorted = sorted_pairs(alloc, draw, pairs)?;
    lay_out(alloc, draw, sorted)
}

/// The layout of a list of pairs whose keys rise, under a draw. The levels of the first pairs are known.
fn build_drawn_by<W: Draw>(
    alloc: Global,
    draw: &W,
    pairs: &PairList,
    levels: &[u8],
) -> Result<Layout, ScratchFault>
    requires levels { AreLevels (W.drawn draw.now) pairs.now levels.now }
    requires rising { IsPairs pairs.now }
    requires few { length pairs.now ≤ sorted_limit }
    requires height { (W.drawn draw.now).height ≤ height_limit }
    ensures value { IfOk result (λ layout. layout
        ≡ place (W.drawn draw.now) (pages_of_pairs (W.drawn draw.now) pairs.now)) }
    ensures fits { IfOk result (λ _. length (pages_of_pairs (W.drawn draw.now) pairs.now)
        ≤ (W.drawn draw.now).slots) }
    ensures full { IfErr result
        (RefusesPages (W.drawn draw.now) (pages_of_pairs (W.drawn draw.now) pairs.now)) }
{
    let ranked = ranked_pairs(alloc, draw, pairs, levels)?;
    lay_out(alloc, draw, ranked)
}

/// Says that the parameters are some, so that their height is one. It costs nothing.
fn reveal_params(params: &Params)
    ensures { IsParameters params.now }
{
    let _ = params.height();
}

/// Lays out a list of pairs with distinct keys, at most 268,435,456 of them, in whatever order they come: sorts the
/// pairs by key, cuts them into groups and pages, and places the pages by rank (Blelloch and Golovin 2007).
///
/// `Full` comes exactly where the pages are more than the slots, and says how many they are.
#[tactic(auto, unfolding(store_model::specs::Draws::draw_of))]
pub fn build(alloc: Global, params: &Params, pairs: &PairList) -> Result<Layout, ScratchFault>
    requires distinct { HasDistinctKeys pairs.now }
    requires few { length pairs.now ≤ sorted_limit }
    ensures value { IfOk result (λ layout. layout
        ≡ place (draw_of params.now) (pages_of_pairs (draw_of params.now) (by_key pairs.now))) }
    ensures fits { IfOk result (λ _. length (pages_of_pairs (draw_of params.now) (by_key pairs.now))
        ≤ params.now.slots) }
    ensures full { IfErr result (IsRefusal (draw_of params.now) pairs.now) }
{
    reveal_params(params);
    build_by(alloc, &AnyDraw::new(params), pairs)
}

/// Lays out a list of pairs whose keys rise, at most 268,435,456 of them, as `build` does: nothing is sorted, and no
/// level is drawn that is known under these parameters.
///
/// `Full` comes exactly where the pages are more than the slots, and says how many they are.
#[tactic(auto, unfolding(store_model::specs::Draws::draw_of))]
pub fn build_drawn(
    alloc: Global,
    params: &Params,
    pairs: &DrawnPairs<'_>,
) -> Result<Layout, ScratchFault>
    requires rising { IsPairs pairs.now }
    requires few { length pairs.now ≤ sorted_limit }
    ensures value { IfOk result (λ layout. layout
        ≡ place (draw_of params.now) (pages_of_pairs (draw_of params.now) pairs.now)) }
    ensures fits { IfOk result
        (λ _. length (pages_of_pairs (draw_of params.now) pairs.now) ≤ params.now.slots) }
    ensures full { IfErr result
        (RefusesPages (draw_of params.now) (pages_of_pairs (draw_of params.now) pairs.now)) }
{
    reveal_params(params);
    let draw = AnyDraw::new(params);
    build_drawn_by(alloc, &draw, pairs.pairs(), pairs.levels(params))
}

/// Lays out a list of pairs whose keys rise, at most 268,435,456 of them, as `build` does: nothing is sorted.
///
/// `Full` comes exactly where the pages are more than the slots, and says how many they are.
pub fn build_sorted(
    alloc: Global,
    params: &Params,
    pairs: &PairList,
) -> Result<Layout, ScratchFault>
    requires rising { IsPairs pairs.now }
    requires few { length pairs.now ≤ sorted_limit }
    ensures value { IfOk result (λ layout. layout
        ≡ place (draw_of params.now) (pages_of_pairs (draw_of params.now) pairs.now)) }
    ensures fits { IfOk result
        (λ _. length (pages_of_pairs (draw_of params.now) pairs.now) ≤ params.now.slots) }
    ensures full { IfErr result
        (RefusesPages (draw_of params.now) (pages_of_pairs (draw_of params.now) pairs.now)) }
{
    build_drawn(alloc, params, &DrawnPairs::new(params, pairs, &[]))
}
