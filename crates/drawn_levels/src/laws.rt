//! What holds of levels.

ghost use Rattle.std.specs.Prelude.{◌≡◌, List, ℕ};
ghost use Rattle.store_model.specs.Parameters.{Parameters};
ghost use Rattle.store_model.specs.Draws.{draw_of};

/// The level of a key doesn't depend on how many slots a table has: so levels that are drawn before that is settled
/// are those of the table.
pub fn levels_are_the_same_under_other_slots()
    ensures { (p : Parameters) (slots : ℕ) (key : List ℕ)
        → (draw_of (record p { slots = slots })).level key ≡ (draw_of p).level key }
{}
