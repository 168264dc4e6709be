//! Worked examples of what this crate defines, each the contract of a function with an empty body and proved by
//! computing.
#![tactic(auto, unfolding(crate::specs::Reports::report_text, crate::specs::MirrorCall::mirror_text, crate::specs::Compute::everything))]

ghost use Rattle.std.specs.Prelude.{◌≡◌, ◌++◌, ◌∷◌, [], codes};
ghost use Rattle.image_check.specs.declared.verdict.Verdict.TheVariants.{Clean, NotImage, Damaged};
ghost use Rattle.image_subcommands.specs.MirrorCall.{mirror_text};
ghost use Rattle.image_subcommands.specs.Reports.{report_text};

/// The lines that a check prints.
pub fn reports()
    ensures clean { report_text (Clean 2 1 0 0) ≡ codes "clean 2 1 0 0" ++ 10 ∷ [] }
    ensures bytes { report_text (Clean 16384 0 10 4294967296)
        ≡ codes "clean 16384 0 10 4294967296" ++ 10 ∷ [] }
    ensures none { report_text NotImage ≡ codes "not-image" ++ 10 ∷ [] }
    ensures damaged { report_text Damaged ≡ codes "damaged" ++ 10 ∷ [] }
{}

/// The lines that a mirror prints.
pub fn mirrors()
    ensures none { mirror_text 0 ≡ codes "mirror 0" ++ 10 ∷ [] }
    ensures one { mirror_text 1 ≡ codes "mirror 1" ++ 10 ∷ [] }
    ensures many { mirror_text 16384 ≡ codes "mirror 16384" ++ 10 ∷ [] }
{}
