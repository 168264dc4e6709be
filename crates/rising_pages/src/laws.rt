//! Laws, as functions that do nothing.

ghost use Rattle.std.specs.Prelude.{ℕ, List};
ghost use Rattle.store_model.specs.Draws.{Draw};
ghost use Rattle.store_model.specs.Pairs.{Pair};
ghost use Rattle.rising_pages.specs.OpenPages.{ClosedStay};
ghost use Rattle.rising_pages.specs.Raised.{RaisedTell};

/// The closed pages of the first pairs of a list are pages of the whole list: the first of their level.
pub fn closed_pages_stay()
    ensures { (d : Draw) (s t : List Pair) (level : ℕ) → ClosedStay d s t level }
{}

/// The pages above level 0 follow from the keys that stand there.
pub fn raised_keys_tell_the_levels_above()
    ensures { (d : Draw) (s : List Pair) (level : ℕ) → RaisedTell d s level }
{}
