//! Laws of the pairs of a tree.
#![tactic(auto)]

ghost use Rattle.std.specs.Prelude.{◌≡◌, ℕ, ◌<◌, ◌^◌, IsTrue, map};
ghost use Rattle.std.specs.Ordering.{nat_cmp, ordering_then};
ghost use Rattle.std.specs.FinMap.{is_sorted};
ghost use Rattle.std.specs.List.Sorted.{IsStrictlySortedBy};
ghost use Rattle.store_model.specs.Parameters.{Parameters};
ghost use Rattle.store_model.specs.Paths.{Path, Name, is_path, is_attribute_name, attribute_place, attribute_key};
ghost use Rattle.store_model.specs.Paths.{fits_attribute, is_place, key, path_cmp, key_cmp};
ghost use Rattle.store_model.specs.Trees.{Tree, IsTree};
ghost use Rattle.store_model.specs.Pairs.{pairs, IsPairs};

/// Keys have the order of their places, and at one place that of the block numbers. A path is a place, and so is
/// where an attribute stands that its field holds; its key is one of that place.
pub fn fields_order_as_paths()
    ensures order { (p q : Path) (i j : ℕ) → IsTrue (is_place p) → IsTrue (is_place q)
        → i < 2 ^ 32 → j < 2 ^ 32
        → key_cmp (key p i) (key q j) ≡ ordering_then (path_cmp p q) (nat_cmp i j) }
    ensures path { (p : Path) → IsTrue (is_path p) → IsTrue (is_place p) }
    ensures attribute { (p : Path) (a : Name) → IsTrue (is_path p) → IsTrue (is_attribute_name a)
        → IsTrue (fits_attribute p a) →
        IsTrue (is_place (attribute_place p a)) }
    ensures its_key { (p : Path) (a : Name) → attribute_key p a ≡ key (attribute_place p a) 0 }
{}

/// The pairs of a tree are a finite map: their keys strictly rise, so no key stands twice.
pub fn pairs_are_sorted()
    ensures finite_map { (t : Tree) (p : Parameters) → IsTree t
        → IsTrue (is_sorted key_cmp (pairs t p)) }
    ensures keys_rise { (t : Tree) (p : Parameters) → IsTree t
        → IsStrictlySortedBy key_cmp (map (λ pair. pair.0) (pairs t p)) }
{}

/// The pairs of a tree are a list of pairs: the keys rise, each key has 124 bytes, and each value 1 to 256.
pub fn pairs_are_pairs()
    ensures { (t : Tree) (p : Parameters) → IsTree t → IsPairs (pairs t p) }
{}
