//! What is a name, a file, a value, a cell, a page, a label, a draw and an ordered table, and what nearly is.
#![tactic(auto, unfolding(crate::specs::Compute::everything))]

ghost use Rattle.std.specs.Prelude.{◌≡◌, ℕ, List, [], ◌∷◌, map, codes, length, replicate, false, Some, None};
ghost use Rattle.store_model.specs.Paths.{is_name};
ghost use Rattle.store_model.specs.Trees.{IsNode};
ghost use Rattle.store_model.specs.Trees.Node.{File};
ghost use Rattle.store_model.specs.Pairs.{IsValue};
ghost use Rattle.store_model.specs.Labels.{IsLabel};
ghost use Rattle.store_model.specs.Labels.Lead.{Start, Leader};
ghost use Rattle.store_model.specs.Draws.{IsLawful, draw_of};
ghost use Rattle.store_model.specs.Pages.{IsPage};
ghost use Rattle.store_model.specs.Placement.{IsOrderedTable};
ghost use Rattle.model_laws.specs.Examples.{ruler, start_label, led_label, page, directory_cell, key_cell, key_of};

/// No name has a space, a `/` or a byte past 7E, is empty, or is `.` or `..`.
pub fn no_names()
    ensures { map (λ name. is_name name)
        (codes "a b" ∷ codes "a/b" ∷ (0x61 ∷ 0x7f ∷ []) ∷ [] ∷ codes "." ∷ codes ".."
        ∷ []) ≡ replicate 6 false }
{}

/// A file has at most 16,777,216 bytes, a value 1 to 256, a label a level of one byte, a leader of 124 bytes and an
/// index of 32 bits.
pub fn ranges_of_parts()
    ensures file { (bytes : List ℕ) → length bytes ≡ 16777217 → IsNode (File bytes) → ⊥ }
    ensures no_value { IsValue [] → ⊥ }
    ensures long_value { IsValue (replicate 257 7) → ⊥ }
    ensures level { IsLabel (start_label 256 0) → ⊥ }
    ensures index { IsLabel (start_label 0 4294967296) → ⊥ }
    ensures leader { IsLabel (record { level = 0; lead = Leader (replicate 123 1); index = 0 })
        → ⊥ }
{}

/// The keys of a page strictly rise, and its cells have values at level 0 alone.
pub fn no_pages()
    ensures falling { IsPage (page (start_label 0 0)
        (directory_cell (codes "b") ∷ directory_cell (codes "a") ∷ []))
        → ⊥ }
    ensures twice { IsPage (page (start_label 0 0)
        (directory_cell (codes "a") ∷ directory_cell (codes "a") ∷ [])) → ⊥ }
    ensures no_value { IsPage (page (start_label 0 0) (key_cell (codes "a") ∷ [])) → ⊥ }
    ensures value_above { IsPage (page (start_label 1 0) (directory_cell (codes "a") ∷ [])) → ⊥ }
{}

/// No draw starts past the table's end or gives a level of the height.
pub fn no_draws()
    ensures start { IsLawful (record { slots = 2; height = 1; start = λ l. 2; level = λ k. 0 })
        → ⊥ }
    ensures level { IsLawful (record { slots = 2; height = 1; start = λ l. 1; level = λ k. 1 })
        → ⊥ }
{}

/// Ordered tables: an empty one, and one with a page at its start. One with the page behind an empty slot is none.
pub fn ordered_tables()
    ensures empty { IsOrderedTable (draw_of (ruler 1 1)) (None ∷ []) }
    ensures at_its_start { IsOrderedTable (draw_of (ruler 2 1))
        (Some (page (start_label 0 0) (directory_cell (codes "a") ∷ [])) ∷ None ∷ []) }
    ensures behind_its_start { IsOrderedTable (draw_of (ruler 2 1))
        (None ∷ Some (page (start_label 0 0) (directory_cell (codes "a") ∷ [])) ∷ []) → ⊥ }
{}
