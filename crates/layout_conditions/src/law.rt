//! The law of the conditions.

ghost use Rattle.std.specs.Prelude.{◌≡◌, ℕ, List};
ghost use Rattle.store_model.specs.Parameters.{Parameters, IsParameters};
ghost use Rattle.store_model.specs.Trees.{Tree};
ghost use Rattle.layout_conditions.specs.Conditions.{MeetConditions};
ghost use Rattle.layout_conditions.specs.Layouts.{table_of_tree, HaveLayout};

/// Slots meet the conditions exactly where they are the layout of a tree, the one that the conditions tell.
/// They are the layout of no other tree.
pub fn local_conditions_are_the_layout()
    // A layout meets them, with its tree.
    ensures layout { (slots : List (List ℕ)) (p : Parameters) (t : Tree) → IsParameters p
        → HaveLayout slots t p →
        (c : MeetConditions slots p) × (c.tree ≡ t) }
    // Slots that meet them are the layout of their tree, which fits.
    ensures conditions { (slots : List (List ℕ)) (p : Parameters) → IsParameters p
        → (c : MeetConditions slots p) →
        HaveLayout slots c.tree p }
    // The table that the conditions speak of is that tree's.
    ensures table { (slots : List (List ℕ)) (p : Parameters) → IsParameters p
        → (c : MeetConditions slots p) →
        c.table ≡ table_of_tree c.tree p }
    // No slots are the layouts of two trees.
    ensures one_tree { (slots : List (List ℕ)) (p : Parameters) (t u : Tree) → IsParameters p →
        HaveLayout slots t p → HaveLayout slots u p → t ≡ u }
{}
