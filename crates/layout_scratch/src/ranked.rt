//! Pairs in the order of their keys, each with the level of its key.

ghost use Rattle.std.specs.Prelude.{◌≡◌, ℕ, Some, IfOk, nat_eq, slice_get};
ghost use Rattle.std.proofs.Common.{refl};
ghost use Rattle.std.specs.List.{AllByRecursion};
ghost use Rattle.std.specs.Cmp.{partial_equiv_from_equiv, on_equiv, on_per, on_po, on_total};
ghost use Rattle.std.specs.Cmp.Lexicographic.{pointwise, nat_list_eq_equiv, nat_list_cmp_total, texts_po, texts_ties};
ghost use Rattle.store_model.specs.Paths.{key_cmp};
ghost use Rattle.store_model.specs.Pairs.{IsPair, IsPairs};
ghost use Rattle.layout_scratch.specs.Sorting.{HasDistinctKeys, by_key};
ghost use Rattle.layout_scratch.specs.Levels.{AreLevels};
ghost use Rattle.layout_scratch.specs.Ranks.{key_of, pairs_of, AreRanked};

use node_pages::{PairList, reveal_pair};
use seeded_draw::{Draw, Front};
use std::alloc::Global;
use std::cmp::Ordering;
use store_base::{Key, NoMemory, Value};

/// A pair where it lies, and the level that is drawn for its key. Such pairs are ordered as their keys, so that
/// sorting moves no pair.
#[derive(Clone, Copy)]
pub struct Ranked<'a> {
    /// The pair.
    pub pair: &'a (Key, Value),
    /// The highest level on which its key stands.
    pub level: u8,
}

impl PartialEq for Ranked<'_> {
    ghost eq = { λ a b. pointwise nat_eq (key_of a) (key_of b) };

    ghost laws = { on_per key_of (partial_equiv_from_equiv nat_list_eq_equiv) };

    fn eq(&self, other: &Self) -> bool {
        self.pair.0 == other.pair.0
    }
}

impl Eq for Ranked<'_> {
    ghost laws = { on_equiv key_of nat_list_eq_equiv };
}

impl PartialOrd for Ranked<'_> {
    ghost partial_cmp = { λ a b. Some (key_cmp (key_of a) (key_of b)) };

    ghost laws = { on_po key_of texts_po };

    fn partial_cmp(&self, other: &Self) -> Option<Ordering> {
        Some(self.cmp(other))
    }
}

impl Ord for Ranked<'_> {
    ghost cmp = { λ a b. key_cmp (key_of a) (key_of b) };

    ghost total = { on_total key_of nat_list_cmp_total };

    ghost matches_partial_cmp = { λ a b. refl };

    ghost matches_eq = { λ a b. texts_ties (key_of a) (key_of b) };

    fn cmp(&self, other: &Self) -> Ordering {
        self.pair.0.cmp(&other.pair.0)
    }
}

/// Says that a key and a value are a pair, as `reveal_pair` says of the two. It costs nothing.
fn reveal(pair: &(Key, Value))
    ensures { IsPair pair.now }
{
    reveal_pair(&pair.0, &pair.1);
}

/// The level of the key of the pair at this place: it is drawn where it is not known.
fn level_at<W: Draw>(draw: &W, front: &mut Front, levels: &[u8], at: usize, key: &Key) -> u8
    requires { (level : ℕ) → slice_get levels.now at ≡ Some level
        → level ≡ (W.drawn draw.now).level key.now }
    ensures { result ≡ (W.drawn draw.now).level key.now }
{
    match levels.get(at) {
        Some(level) => *level,
        None => draw.level_from(front, key),
    }
}

/// The pairs as they come, each with the level of its key. The levels of the first pairs are known.
pub fn ranked_pairs<'a, W: Draw>(
    alloc: Global,
    draw: &W,
    pairs: &'a PairList,
    levels: &[u8],
) -> Result<Vec<Ranked<'a>>, NoMemory>
    requires { AreLevels (W.drawn draw.now) pairs.now levels.now }
    ensures pairs { IfOk result (λ ranked. pairs_of ranked.items ≡ pairs.now) }
    ensures levels { IfOk result (λ ranked. AreRanked (W.drawn draw.now) ranked.items) }
    ensures valid { IfOk result (λ _. AllByRecursion IsPair pairs.now) }
{
    let mut front = Front::new();
    let mut ranked = Vec::with_capacity(alloc, pairs.len() as usize)?;
    for pair in pairs.as_slice() {
        reveal(pair);
        let level = level_at(draw, &mut front, levels, ranked.len(), &pair.0);
        ranked.push(Ranked { pair, level })?;
    }
    Ok(ranked)
}

/// The pairs in the order of their keys, each with the level of its key.
#[tactic(auto, using(crate::proofs::SortedPairs::sorted_by_key))]
pub fn sorted_pairs<'a, W: Draw>(
    alloc: Global,
    draw: &W,
    pairs: &'a PairList,
) -> Result<Vec<Ranked<'a>>, NoMemory>
    requires distinct { HasDistinctKeys pairs.now }
    ensures pairs { IfOk result (λ ranked. pairs_of ranked.items ≡ by_key pairs.now) }
    ensures levels { IfOk result (λ ranked. AreRanked (W.drawn draw.now) ranked.items) }
    ensures valid { IfOk result (λ _. IsPairs (by_key pairs.now)) }
{
    let mut ranked = ranked_pairs(alloc, draw, pairs, &[])?;
    ranked.sort()?;
    Ok(ranked)
}
