//! Laws of greedy placement by rank.
#![tactic(auto)]

ghost use Rattle.std.specs.Prelude.{◌≡◌, ℕ, ◌≤◌, List, map, length};
ghost use Rattle.std.specs.List.{AllByRecursion, Contains, IsDistinct};
ghost use Rattle.std.specs.List.Sorted.{IsPermutation};
ghost use Rattle.std.specs.Ordering.{eq_by_cmp};
ghost use Rattle.store_model.specs.Parameters.{Parameters, IsParameters};
ghost use Rattle.store_model.specs.Trees.{Tree, IsTree};
ghost use Rattle.store_model.specs.Labels.{label_cmp};
ghost use Rattle.store_model.specs.Draws.{Draw, IsLawful, draw_of};
ghost use Rattle.store_model.specs.Pages.{Page, IsPage, Fits, pages};
ghost use Rattle.store_model.specs.Placement.{Table, place, pages_in, HoldsPage, IsInOrder, IsOrderedTable};

/// Under each kind of draw every start lies in the table and every level below the height.
pub fn draws_are_lawful()
    ensures { (p : Parameters) → IsParameters p → IsLawful (draw_of p) }
{}

/// The table of at most as many pages as there are slots has every slot, and holds just those pages, each as
/// often as it was given. Where their labels differ, each of them stands in exactly one slot.
pub fn placement_keeps_every_page_once()
    ensures slots { (d : Draw) (pages : List Page) → length (place d pages) ≡ d.slots }
    ensures pages { (d : Draw) (pages : List Page) → IsLawful d → length pages ≤ d.slots →
        IsPermutation pages (pages_in (place d pages)) }
    ensures one_slot_each { (d : Draw) (pages : List Page) → IsLawful d → length pages ≤ d.slots →
        IsDistinct (eq_by_cmp label_cmp) (map (λ page. page.label) pages) →
        (page : Page) → Contains pages page →
        (slot : ℕ) × HoldsPage (place d pages) slot page
        × ((other : ℕ) → HoldsPage (place d pages) other page → other ≡ slot) }
{}

/// The table of pages with different labels is in order: each slot from a page's start up to its own holds a
/// page of smaller label. Where each of them can stand in a slot, it is an ordered table.
pub fn placement_is_in_order()
    ensures in_order { (d : Draw) (pages : List Page) → IsLawful d → length pages ≤ d.slots →
        IsDistinct (eq_by_cmp label_cmp) (map (λ page. page.label) pages) →
        IsInOrder d (place d pages) }
    ensures ordered_table { (d : Draw) (pages : List Page) → IsLawful d → length pages ≤ d.slots →
        IsDistinct (eq_by_cmp label_cmp) (map (λ page. page.label) pages)
        → AllByRecursion IsPage pages →
        IsOrderedTable d (place d pages) }
{}

/// Two ordered tables that hold the same pages are the same table, and an ordered table is the placement of its
/// pages, however it came about: no label stands in it twice. The same holds of tables in order of other pages
/// whose labels differ.
pub fn order_makes_the_table_unique()
    ensures one_ordered_table { (d : Draw) (a b : Table) → IsLawful d
        → IsOrderedTable d a → IsOrderedTable d b →
        ((page : Page) → Contains (pages_in a) page → Contains (pages_in b) page) →
        ((page : Page) → Contains (pages_in b) page → Contains (pages_in a) page) → a ≡ b }
    ensures its_placement { (d : Draw) (table : Table) → IsLawful d → IsOrderedTable d table
        → table ≡ place d (pages_in table) }
    ensures distinct_labels { (d : Draw) (table : Table) → IsLawful d → IsOrderedTable d table →
        IsDistinct (eq_by_cmp label_cmp) (map (λ page. page.label) (pages_in table)) }
    ensures one_table { (d : Draw) (a b : Table) → IsLawful d
        → length a ≡ d.slots → length b ≡ d.slots →
        IsDistinct (eq_by_cmp label_cmp) (map (λ page. page.label) (pages_in a)) →
        IsPermutation (pages_in a) (pages_in b) → IsInOrder d a → IsInOrder d b → a ≡ b }
    ensures the_placement { (d : Draw) (table : Table) (pages : List Page) → IsLawful d
        → length table ≡ d.slots →
        IsDistinct (eq_by_cmp label_cmp) (map (λ page. page.label) pages) →
        IsPermutation pages (pages_in table) → IsInOrder d table → table ≡ place d pages }
{}

/// The table of a tree that fits is an ordered table, and each of the tree's pages stands in exactly one of its slots.
/// It is the only table in order of these pages.
pub fn tree_has_one_table()
    ensures ordered { (t : Tree) (p : Parameters) → IsParameters p → IsTree t → Fits t p →
        IsOrderedTable (draw_of p) (place (draw_of p) (pages t p)) }
    ensures one_slot_each { (t : Tree) (p : Parameters) → IsParameters p → IsTree t → Fits t p →
        (page : Page) → Contains (pages t p) page →
        (slot : ℕ) × HoldsPage (place (draw_of p) (pages t p)) slot page
        × ((other : ℕ) → HoldsPage (place (draw_of p) (pages t p)) other page → other ≡ slot) }
    ensures only_order { (t : Tree) (p : Parameters) (table : Table) → IsParameters p → IsTree t →
        length table ≡ p.slots → IsPermutation (pages t p) (pages_in table)
        → IsInOrder (draw_of p) table →
        table ≡ place (draw_of p) (pages t p) }
{}
