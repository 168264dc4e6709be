//! Laws of pages as a finite map, and of the slots that hold them.
#![tactic(auto)]

ghost use Rattle.std.specs.Prelude.{◌≡◌, ℕ, ◌≤◌, ◌^◌, List, [], ◌∷◌, map, length, cond, not, Some, None};
ghost use Rattle.std.specs.List.{find, filter, AllByRecursion, Contains, IsDistinct};
ghost use Rattle.std.specs.List.Sorted.{IsStrictlySortedBy};
ghost use Rattle.std.specs.Ordering.{eq_by_cmp};
ghost use Rattle.std.specs.FinMap as maps;
ghost use Rattle.store_model.specs.Lists.{insert_in_order, in_order};
ghost use Rattle.store_model.specs.Parameters.{Parameters, IsParameters};
ghost use Rattle.store_model.specs.Trees.{Tree, IsTree};
ghost use Rattle.store_model.specs.Pairs.{Pair, IsPairs};
ghost use Rattle.store_model.specs.Labels.{Label, label_cmp};
ghost use Rattle.store_model.specs.Draws.{Draw, IsLawful, draw_of};
ghost use Rattle.store_model.specs.Pages.{Page, IsPage, pages_of_pairs, Fits, pages};
ghost use Rattle.store_model.specs.Placement.{Table, place, pages_in, page_cmp, HoldsPage, IsOrderedTable};
ghost use Rattle.store_model.specs.Images.{slots_of};
ghost use Rattle.store_model.specs.PageMaps.{PageMap, page_at, with_page, without_page, map_of_pages, pages_of_map};
ghost use Rattle.store_model.specs.PageMaps.{IsPageMap, HoldsPages, IsTableOf};

/// Lookups: a page put in is found under its label and nothing else changes, one taken out is found no more,
/// and the map of a list has the first page of each label.
pub fn pages_are_found_under_their_labels()
    ensures with_page { (m : PageMap) (page : Page) (l : Label) →
        page_at (with_page m page) l ≡ cond (eq_by_cmp label_cmp l page.label)
        (Some page) (page_at m l) }
    ensures without_page { (m : PageMap) (k l : Label) →
        page_at (without_page m k) l ≡ cond (eq_by_cmp label_cmp l k) None (page_at m l) }
    ensures of_list { (pages : List Page) (l : Label) →
        page_at (map_of_pages pages) l ≡ find (λ page. eq_by_cmp label_cmp l page.label) pages }
    ensures of_distinct { (pages : List Page) (page : Page) →
        IsDistinct (eq_by_cmp label_cmp) (map (λ p. p.label) pages) → Contains pages page →
        page_at (map_of_pages pages) page.label ≡ Some page }
{}

/// A map whose pages stand under their labels stays one.
pub fn page_maps_stay_page_maps()
    ensures empty { IsPageMap maps.empty }
    ensures with_page { (m : PageMap) (page : Page) → IsPageMap m → IsPage page
        → IsPageMap (with_page m page) }
    ensures without_page { (m : PageMap) (l : Label) → IsPageMap m → IsPageMap (without_page m l) }
    ensures of_list { (pages : List Page) → AllByRecursion IsPage pages
        → IsPageMap (map_of_pages pages) }
    ensures of_pairs { (d : Draw) (s : List Pair) → d.height ≤ 256 → IsPairs s → length s ≤ 2 ^ 32 →
        IsPageMap (map_of_pages (pages_of_pairs d s)) }
{}

/// The pages of a map come by rank, each a page, and they tell the map. The map of pages that differ in their
/// labels has them by rank, so that of the pages of a list of pairs has them as they come.
pub fn maps_list_their_pages_by_rank()
    ensures rise { (m : PageMap) → IsPageMap m → IsStrictlySortedBy page_cmp (pages_of_map m) }
    ensures pages { (m : PageMap) → IsPageMap m → AllByRecursion IsPage (pages_of_map m) }
    ensures whole { (m : PageMap) → IsPageMap m → map_of_pages (pages_of_map m) ≡ m }
    ensures count { (m : PageMap) → maps.len m ≡ length (pages_of_map m) }
    ensures of_distinct { (pages : List Page)
        → IsDistinct (eq_by_cmp label_cmp) (map (λ page. page.label) pages) →
        pages_of_map (map_of_pages pages) ≡ in_order page_cmp pages }
    ensures of_rising { (pages : List Page) → IsStrictlySortedBy page_cmp pages
        → pages_of_map (map_of_pages pages) ≡ pages }
    ensures of_pairs { (d : Draw) (s : List Pair) → IsPairs s → length s ≤ 2 ^ 32 →
        pages_of_map (map_of_pages (pages_of_pairs d s)) ≡ pages_of_pairs d s }
    ensures with_page { (m : PageMap) (page : Page) → IsPageMap m → page_at m page.label ≡ None →
        pages_of_map (with_page m page) ≡ insert_in_order page_cmp page (pages_of_map m) }
    ensures without_page { (m : PageMap) (l : Label) → IsPageMap m →
        pages_of_map (without_page m l)
        ≡ filter (λ page. not (eq_by_cmp label_cmp l page.label)) (pages_of_map m) }
{}

/// The slots of an ordered table hold the map of its pages, and slots that hold a map are those of one ordered
/// table, with the pages of the map in it; so they hold no other map. A table in order holds a map where its slots
/// hold just the pages under their labels. Placed pages that come by rank are held, as those of a tree are.
pub fn ordered_tables_hold_their_pages()
    ensures held { (d : Draw) (table : Table) → IsLawful d → IsOrderedTable d table →
        HoldsPages d (slots_of table) (map_of_pages (pages_in table)) }
    ensures table { (d : Draw) (slots : List (List ℕ)) (m : PageMap) → IsLawful d
        → HoldsPages d slots m →
        (table : Table) × IsTableOf d slots m table }
    ensures held_in_table { (d : Draw) (slots : List (List ℕ)) (m : PageMap) (table : Table)
        → IsLawful d →
        IsTableOf d slots m table → HoldsPages d slots m }
    ensures one_map { (d : Draw) (slots : List (List ℕ)) (m n : PageMap) (a b : Table) →
        IsTableOf d slots m a → IsTableOf d slots n b → (a ≡ b) × (m ≡ n) }
    ensures found_stands { (d : Draw) (slots : List (List ℕ)) (m : PageMap)
        (table : Table) (page : Page) →
        IsTableOf d slots m table → page_at m page.label ≡ Some page
        → (slot : ℕ) × HoldsPage table slot page }
    ensures standing_found { (d : Draw) (slots : List (List ℕ)) (m : PageMap) (table : Table)
        (slot : ℕ) (page : Page) →
        IsLawful d → IsTableOf d slots m table → HoldsPage table slot page
        → page_at m page.label ≡ Some page }
    ensures by_lookups { (d : Draw) (table : Table) (m : PageMap) → IsLawful d
        → IsOrderedTable d table → IsPageMap m →
        ((slot : ℕ) (page : Page) → HoldsPage table slot page → page_at m page.label ≡ Some page) →
        ((page : Page) → page_at m page.label ≡ Some page → (slot : ℕ) × HoldsPage table slot page)
        →
        HoldsPages d (slots_of table) m }
    ensures placed { (d : Draw) (pages : List Page) → length pages ≤ d.slots
        → AllByRecursion IsPage pages →
        IsStrictlySortedBy page_cmp pages
        → HoldsPages d (slots_of (place d pages)) (map_of_pages pages) }
    ensures tree { (t : Tree) (p : Parameters) → IsParameters p → IsTree t → Fits t p →
        HoldsPages (draw_of p) (slots_of (place (draw_of p) (pages t p)))
        (map_of_pages (pages t p)) }
{}
