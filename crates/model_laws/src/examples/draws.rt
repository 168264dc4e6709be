//! Starts and levels under both draws.
#![tactic(auto, unfolding(crate::specs::Compute::everything))]

ghost use Rattle.std.specs.Prelude.{◌≡◌, ℕ, List, [], ◌∷◌, ◌++◌, codes, replicate};
ghost use Rattle.sha2.specs.Sha256.{sha256};
ghost use Rattle.store_model.specs.Lists.{zeros, zero_filled};
ghost use Rattle.store_model.specs.Labels.{label_bytes};
ghost use Rattle.store_model.specs.Draws.{ruler_start, ruler_level, start_of_digest, level_of_digest};
ghost use Rattle.model_laws.specs.Examples.{start_label, led_label, key_of};

/// The start of a label under `ruler` is the sum of its bytes, round the table.
pub fn ruler_starts()
    ensures uu { ruler_start 4 (led_label 0 (codes "UU")) ≡ 3 }
    ensures ua { ruler_start 4 (led_label 0 (codes "Ua")) ≡ 3 }
    ensures ua_of_two { ruler_start 2 (led_label 0 (codes "Ua")) ≡ 1 }
    ensures upper_of_four { ruler_start 4 (start_label 1 0) ≡ 1 }
    ensures upper_of_two { ruler_start 2 (start_label 1 0) ≡ 1 }
    ensures upper_of_eight { ruler_start 8 (start_label 1 0) ≡ 1 }
    ensures second_upper { ruler_start 2 (start_label 1 1) ≡ 0 }
    ensures second_lower { ruler_start 4 (start_label 0 1) ≡ 1 }
    ensures u { ruler_start 8 (led_label 0 (codes "U")) ≡ 6 }
    ensures upper_d { ruler_start 8 (led_label 0 (codes "UD")) ≡ 2 }
    ensures upper_e { ruler_start 8 (led_label 0 (codes "UE")) ≡ 3 }
    ensures lower_d { ruler_start 8 (led_label 0 (codes "Ud")) ≡ 2 }
{}

/// The level of a key under `ruler` is the number of letters `U` in its field, below the height, and 0
/// for a file's blocks.
pub fn ruler_levels()
    ensures one { ruler_level 8 (key_of (codes "Ua")) ≡ 1 }
    ensures two { ruler_level 8 (key_of (codes "UU")) ≡ 2 }
    ensures capped { ruler_level 2 (key_of (codes "UU")) ≡ 1 }
    ensures lowest { ruler_level 1 (key_of (codes "UU")) ≡ 0 }
    ensures other { ruler_level 8 (key_of (codes "b")) ≡ 0 }
    ensures block { ruler_level 8 (zero_filled 120 (codes "U") ++ 0 ∷ 0 ∷ 0 ∷ 1 ∷ []) ≡ 0 }
{}

/// Starts and levels from the digest of `abc`, the worked message of FIPS 180-4.
pub fn starts_of_abc()
    ensures largest { start_of_digest (sha256 (codes "abc")) 16384 ≡ 4074 }
    ensures thousand { start_of_digest (sha256 (codes "abc")) 1000 ≡ 74 }
    ensures one { start_of_digest (sha256 (codes "abc")) 1 ≡ 0 }
    ensures level { level_of_digest (sha256 (codes "abc")) 8 ≡ 0 }
{}

/// The level from a digest is the number of leading zero digits, below the height.
pub fn levels_of_digests()
    ensures three { level_of_digest (0x00 ∷ 0x0a ∷ replicate 30 255) 8 ≡ 3 }
    ensures capped { level_of_digest (0x00 ∷ 0x0a ∷ replicate 30 255) 2 ≡ 1 }
    ensures lowest { level_of_digest (0x00 ∷ 0x0a ∷ replicate 30 255) 1 ≡ 0 }
    ensures all_zeros { level_of_digest (zeros 32) 8 ≡ 7 }
{}
