//! What holds of scrubs one after another.

ghost use Rattle.std.specs.Prelude.{ℕ, List};
ghost use Rattle.store_model.specs.Parameters.{Parameters};
ghost use Rattle.store_model.specs.Trees.{Tree};
ghost use Rattle.scrub_free.specs.Scrubbing.{ScrubsAs};
ghost use Rattle.scrub_free.specs.ScrubCalls.{ScrubsTo};

/// What a scrub that was cut short leaves scrubs to the same tree: scrubbed again, it ends in the same layout.
pub fn a_second_scrub_ends_in_the_same_layout()
    ensures { (old image : List ℕ) (t : Tree) (p : Parameters) → ScrubsTo old t p
        → ScrubsAs p.slots old image → ScrubsTo image t p }
{}
