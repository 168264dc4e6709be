//! Pages and the slots that they lie in, after scripts.
#![tactic(auto, unfolding(crate::specs::Compute::everything))]

ghost use Rattle.std.specs.Prelude.{◌≡◌, ℕ, List, [], ◌∷◌, ◌++◌, codes, map, replicate, Some, None};
ghost use Rattle.store_model.specs.Labels.{Lead, Label};
ghost use Rattle.model_laws.specs.Examples.{ruler, text, table, page_list, start_label, led_label, page};
ghost use Rattle.model_laws.specs.Examples.{directory_cell, key_cell, key_of};
ghost use Rattle.store_model.specs.Lists.{zero_filled};
ghost use Rattle.store_model.specs.Pages.{Cell};

/// One directory in one slot.
pub fn one_directory()
    ensures { table (ruler 1 1) (text ("make /a" ∷ [])) ≡
        Some (page (start_label 0 0) (directory_cell (codes "a") ∷ [])) ∷ [] }
{}

/// Two pages that both want slot 3: the page of smaller label gets it and the other goes on round the
/// end, in whichever order they came.
pub fn two_pages_for_one_slot()
    ensures first { table (ruler 4 2) (text ("make /Ua" ∷ "make /UU" ∷ [])) ≡
        Some (page (led_label 0 (codes "Ua")) (directory_cell (codes "Ua") ∷ []))
        ∷ Some (page (start_label 1 0) (key_cell (codes "UU") ∷ key_cell (codes "Ua") ∷ []))
        ∷ None
        ∷ Some (page (led_label 0 (codes "UU")) (directory_cell (codes "UU") ∷ [])) ∷ [] }
    ensures other_order { table (ruler 4 2) (text ("make /UU" ∷ "make /Ua" ∷ [])) ≡
        table (ruler 4 2) (text ("make /Ua" ∷ "make /UU" ∷ [])) }
{}

/// What was removed is gone: the table is that of the directory which is left.
pub fn removed_page()
    ensures after { table (ruler 4 2) (text ("make /Ua" ∷ "make /UU" ∷ "remove /UU" ∷ [])) ≡
        None
        ∷ Some (page (start_label 1 0) (key_cell (codes "Ua") ∷ []))
        ∷ None
        ∷ Some (page (led_label 0 (codes "Ua")) (directory_cell (codes "Ua") ∷ [])) ∷ [] }
    ensures same { table (ruler 4 2) (text ("make /Ua" ∷ "make /UU" ∷ "remove /UU" ∷ [])) ≡
        table (ruler 4 2) (text ("make /Ua" ∷ [])) }
{}

/// A table of two slots is full with one directory that stands on two levels; the second is refused.
pub fn full_table()
    ensures full { table (ruler 2 2) (text ("make /Ua" ∷ "make /UU" ∷ [])) ≡
        Some (page (start_label 1 0) (key_cell (codes "Ua") ∷ []))
        ∷ Some (page (led_label 0 (codes "Ua")) (directory_cell (codes "Ua") ∷ [])) ∷ [] }
    ensures emptied { table (ruler 2 2) (text ("make /Ua" ∷ "make /UU" ∷ "remove /Ua" ∷ []))
        ≡ None ∷ None ∷ [] }
{}

/// A removal moves the page behind it only where that page's start does not lie past the hole.
pub fn backward_shift()
    ensures before { table (ruler 8 2) (text ("make /UD" ∷ "make /UE" ∷ "make /Ud" ∷ [])) ≡
        None
        ∷ Some (page (start_label 1 0)
        (key_cell (codes "UD") ∷ key_cell (codes "UE") ∷ key_cell (codes "Ud") ∷ []))
        ∷ Some (page (led_label 0 (codes "UD")) (directory_cell (codes "UD") ∷ []))
        ∷ Some (page (led_label 0 (codes "UE")) (directory_cell (codes "UE") ∷ []))
        ∷ Some (page (led_label 0 (codes "Ud")) (directory_cell (codes "Ud") ∷ []))
        ∷ None ∷ None ∷ None ∷ [] }
    ensures after { table (ruler 8 2)
        (text ("make /UD" ∷ "make /UE" ∷ "make /Ud" ∷ "remove /UD" ∷ [])) ≡
        None
        ∷ Some (page (start_label 1 0) (key_cell (codes "UE") ∷ key_cell (codes "Ud") ∷ []))
        ∷ Some (page (led_label 0 (codes "Ud")) (directory_cell (codes "Ud") ∷ []))
        ∷ Some (page (led_label 0 (codes "UE")) (directory_cell (codes "UE") ∷ []))
        ∷ None ∷ None ∷ None ∷ None ∷ [] }
{}

/// Eleven directories take two pages of one group, and ten of them one.
pub fn two_runs()
    ensures eleven { table (ruler 4 1)
        (text ("make /a" ∷ "make /b" ∷ "make /c" ∷ "make /d" ∷ "make /e" ∷ "make /f" ∷ "make /g"
        ∷ "make /h" ∷ "make /i"
        ∷ "make /j" ∷ "make /k" ∷ [])) ≡
        Some (page (start_label 0 0) (map (λ c. directory_cell (c ∷ [])) (codes "abcdefghij")))
        ∷ Some (page (start_label 0 1) (directory_cell (codes "k") ∷ []))
        ∷ None ∷ None ∷ [] }
    ensures ten { table (ruler 4 1)
        (text ("make /a" ∷ "make /b" ∷ "make /c" ∷ "make /d" ∷ "make /e" ∷ "make /f" ∷ "make /g"
        ∷ "make /h" ∷ "make /i"
        ∷ "make /j" ∷ "make /k" ∷ "remove /a" ∷ [])) ≡
        Some (page (start_label 0 0) (map (λ c. directory_cell (c ∷ [])) (codes "bcdefghijk")))
        ∷ None ∷ None ∷ None ∷ [] }
{}

/// A file whose first pair leads a group, with the block behind it in the same group.
pub fn file_in_its_group()
    ensures { table (ruler 8 2) (text ("write /U 0 00" ∷ [])) ≡
        None
        ∷ Some (page (start_label 1 0) (key_cell (codes "U") ∷ []))
        ∷ None ∷ None ∷ None ∷ None
        ∷ Some (page (led_label 0 (codes "U"))
        (record { key = key_of (codes "U"); value = Some (2 ∷ 0 ∷ 0 ∷ 0 ∷ 1 ∷ []) }
        ∷ record {
          key = zero_filled 120 (codes "U") ++ 0 ∷ 0 ∷ 0 ∷ 1 ∷ [];
          value = Some (0 ∷ []);
        } ∷ []))
        ∷ None ∷ [] }
{}
