//! What holds of the ladder of slots.

ghost use Rattle.std.specs.Prelude.{◌≡◌, ◌<◌, ◌↔◌, ℕ, Some, None};
ghost use Rattle.store_model.specs.Parameters.{slots_limit};
ghost use Rattle.image_create.specs.Ladder.{AreLeast, ladder_of};

/// The slots of the ladder are the least that have room, and there are none exactly where the pages fit no image.
pub fn the_ladder_has_the_least_slots()
    ensures least { (pages slots : ℕ) → ladder_of pages ≡ Some slots → AreLeast pages slots }
    ensures none { (pages : ℕ) → (ladder_of pages ≡ None) ↔ (slots_limit < pages) }
{}

/// The ends of the ladder, and the two rungs at its foot.
pub fn the_ladder_by_examples()
    ensures nothing { ladder_of 0 ≡ Some 64 }
    ensures first { ladder_of 48 ≡ Some 64 }
    ensures second { ladder_of 49 ≡ Some 128 }
    ensures third { ladder_of 97 ≡ Some 256 }
    ensures last { ladder_of 49152 ≡ Some 65536 }
    ensures above { ladder_of 49153 ≡ Some 65536 }
    ensures full { ladder_of 65536 ≡ Some 65536 }
    ensures too_many { ladder_of 65537 ≡ None }
{}
