//! Laws of lists of pairs and their pages.
#![tactic(auto)]

ghost use Rattle.std.specs.Prelude.{◌≡◌, ℕ, ◌<◌, ◌≤◌, ◌^◌, List, ◌∷◌, ◌++◌, map, length, ◌&&◌, IsTrue, nat_le};
ghost use Rattle.std.specs.Prelude.{count_by, if◌then◌else◌, ◌-◌, drop};
ghost use Rattle.std.specs.Ordering.{eq_by_cmp};
ghost use Rattle.std.specs.List.{flat_map, list_any, AllByRecursion, IsDistinct};
ghost use Rattle.std.specs.List.Sorted.{IsStrictlySortedBy};
ghost use Rattle.std.specs.FinMap.{is_sorted};
ghost use Rattle.store_model.specs.Lists.{same_bytes, in_order};
ghost use Rattle.store_model.specs.Parameters.{Parameters, IsParameters};
ghost use Rattle.store_model.specs.Paths.{key_cmp};
ghost use Rattle.store_model.specs.Trees.{Tree, IsTree};
ghost use Rattle.store_model.specs.Pairs.{Pair, IsPairs};
ghost use Rattle.store_model.specs.Labels.{label_cmp};
ghost use Rattle.store_model.specs.Draws.{Draw, IsLawful};
ghost use Rattle.store_model.specs.Pages.{cell_on, level_list, level_pages, pages_of_pairs, pages, Fits, IsPage, Cell};
ghost use Rattle.store_model.specs.Pages.{groups, lead_of, IsGroup, IsLedGroup};
ghost use Rattle.store_model.specs.Labels.Lead.{Start};
ghost use Rattle.store_model.specs.Placement.{page_cmp};

/// The pages of a level, one after another, hold the cells of that level's list, each once and in
/// order; and those of level 0 hold every pair of the list.
pub fn cells_are_in_one_page()
    ensures level { (d : Draw) (s : List Pair) (level : ℕ)
        → flat_map (λ page. page.cells) (level_pages d s level) ≡ level_list d s level }
    ensures all_pairs { (d : Draw) (s : List Pair)
        → flat_map (λ page. page.cells) (level_pages d s 0) ≡ map (cell_on 0) s }
{}

/// A key of a finite map stands in exactly one page of each level up to its own, and in none of a
/// level above; a key that the map lacks stands in none.
pub fn each_key_is_in_one_page()
    ensures { (d : Draw) (s : List Pair) (level : ℕ) (k : List ℕ) → IsTrue (is_sorted key_cmp s)
        → count_by (λ page. list_any (λ cell. same_bytes cell.key k) page.cells)
        (level_pages d s level)
        ≡ (if list_any (λ pair. same_bytes pair.0 k) s && nat_le level (d.level k) then 1 else 0) }
{}

/// The pages of a list of pairs come in the order of their labels, so no label stands twice; and so do
/// those of a tree that fits.
pub fn labels_are_distinct()
    ensures rise { (d : Draw) (s : List Pair) → IsPairs s → length s ≤ 2 ^ 32
        → IsStrictlySortedBy label_cmp (map (λ page. page.label) (pages_of_pairs d s)) }
    ensures distinct { (d : Draw) (s : List Pair) → IsPairs s → length s ≤ 2 ^ 32
        → IsDistinct (eq_by_cmp label_cmp) (map (λ page. page.label) (pages_of_pairs d s)) }
    ensures tree_rise { (t : Tree) (p : Parameters) → IsParameters p → IsTree t → Fits t p
        → IsStrictlySortedBy label_cmp (map (λ page. page.label) (pages t p)) }
    ensures tree_distinct { (t : Tree) (p : Parameters) → IsParameters p → IsTree t → Fits t p
        → IsDistinct (eq_by_cmp label_cmp) (map (λ page. page.label) (pages t p)) }
{}

/// The pages of a tree that fits come by rank: placement takes them as they come.
pub fn pages_come_by_rank()
    ensures { (t : Tree) (p : Parameters) → IsParameters p → IsTree t → Fits t p
        → in_order page_cmp (pages t p) ≡ pages t p }
{}

/// Each page can stand in a slot: it has a label, room for its cells, and keys that rise.
pub fn pages_are_pages()
    ensures of_pairs { (d : Draw) (s : List Pair) → d.height ≤ 256 → IsPairs s → length s ≤ 2 ^ 32
        → AllByRecursion IsPage (pages_of_pairs d s) }
    ensures of_tree { (t : Tree) (p : Parameters) → IsParameters p → IsTree t → Fits t p
        → AllByRecursion IsPage (pages t p) }
{}

/// The groups of a level, one after another, are its list. None is empty or holds, behind its first key, a key
/// that stands on a higher level; each but the first is led by its first key. The highest level has one group
/// at most, led by the start.
pub fn groups_are_cut_at_higher_keys()
    ensures list { (d : Draw) (s : List Pair) (level : ℕ)
        → flat_map (λ group. group) (groups d s level) ≡ level_list d s level }
    ensures within { (d : Draw) (s : List Pair) (level : ℕ)
        → AllByRecursion (IsGroup d level) (groups d s level) }
    ensures led { (d : Draw) (s : List Pair) (level : ℕ)
        → AllByRecursion (IsLedGroup d level) (drop 1 (groups d s level)) }
    ensures highest { (d : Draw) (s : List Pair) → IsLawful d
        → length (groups d s (d.height - 1)) ≤ 1 }
    ensures highest_lead { (d : Draw) (cells : List Cell) → IsLawful d
        → lead_of d (d.height - 1) cells ≡ Start }
{}

/// A key parts the groups and pages of each level below its own: those in front of it are those of the pairs in front,
/// and those from it on are those of the pairs from it on. On each level above its own they are those without it.
pub fn keys_part_the_levels_below()
    ensures groups_below { (d : Draw) (s : List Pair) (y : Pair) (t : List Pair) (level : ℕ)
        → level < d.level y.0 →
        groups d (s ++ y ∷ t) level ≡ groups d s level ++ groups d (y ∷ t) level }
    ensures pages_below { (d : Draw) (s : List Pair) (y : Pair) (t : List Pair) (level : ℕ)
        → level < d.level y.0 →
        level_pages d (s ++ y ∷ t) level ≡ level_pages d s level ++ level_pages d (y ∷ t) level }
    ensures groups_above { (d : Draw) (s : List Pair) (y : Pair) (t : List Pair) (level : ℕ)
        → d.level y.0 < level →
        groups d (s ++ y ∷ t) level ≡ groups d (s ++ t) level }
    ensures pages_above { (d : Draw) (s : List Pair) (y : Pair) (t : List Pair) (level : ℕ)
        → d.level y.0 < level →
        level_pages d (s ++ y ∷ t) level ≡ level_pages d (s ++ t) level }
{}
