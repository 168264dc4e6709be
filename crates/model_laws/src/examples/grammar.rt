//! Lines that the grammar has and has not, and command lines.
#![tactic(auto, unfolding(crate::specs::Compute::everything))]

ghost use Rattle.std.specs.Prelude.{◌≡◌, ℕ, List, [], ◌∷◌, ◌++◌, codes, map, replicate, Some, None, Ok};
ghost use Rattle.std.specs.Prelude.{is_some, true, false};
ghost use Rattle.store_model.specs.declared.draw_kind.DrawKind.TheVariants.{Ruler};
ghost use Rattle.store_model.specs.declared.version.Version.TheVariants.{Two};
ghost use Rattle.store_model.specs.Lists.{zeros};
ghost use Rattle.store_model.specs.declared.refusal.Refusal.TheVariants as refusals;
ghost use Rattle.store_model.specs.Commands.{reply_text};
ghost use Rattle.store_model.specs.Commands.Command.{Digest};
ghost use Rattle.store_model.specs.Commands.Reply.{ImageDigest, Refused};
ghost use Rattle.store_model.specs.Grammar.{parse};
ghost use Rattle.store_model.specs.Parameters.{with_version};
ghost use Rattle.store_model.specs.Words.{request_of};
ghost use Rattle.store_model.specs.Words.Request.{Run, Session, Check, Scrub, Upgrade, Dump, Load, Format, Big};
ghost use Rattle.model_laws.specs.Examples.{ruler, text, output};

/// Lines that no command spells, a path that no key can hold, and a missing parent.
pub fn refused_lines()
    ensures syntax { output (ruler 4 1)
        (text ("make a" ∷ "MAKE /a" ∷ "make /a " ∷ "make /.." ∷ "make /a/" ∷ "write /a 00 -"
        ∷ "read /a 0 4294967296"
        ∷ "write /a 0 123" ∷ [])) ≡
        text ("no syntax" ∷ "no syntax" ∷ "no syntax" ∷ "no syntax" ∷ "no syntax" ∷ "no syntax"
        ∷ "no syntax" ∷ "no syntax" ∷ []) }
    ensures path { output (ruler 4 1) (codes "make /" ++ replicate 120 0x61 ++ 10 ∷ [])
        ≡ text ("no path" ∷ []) }
    ensures parent { output (ruler 4 1) (text ("write /x/y 5 00" ∷ [])) ≡ text ("no parent" ∷ []) }
{}

/// The line `digest`, and texts of replies that no script here gives.
pub fn texts_of_replies()
    ensures digest_line { parse (codes "digest") ≡ Ok Digest }
    ensures digest_text { reply_text (ImageDigest (0 ∷ 0x9a ∷ 0xff ∷ []))
        ≡ codes "digest 009aff" ++ 10 ∷ [] }
    ensures long { reply_text (Refused refusals.Long) ≡ codes "no long" ++ 10 ∷ [] }
{}

/// Empty lines are answered by nothing, and a last line needs no LF.
pub fn cut_into_lines()
    ensures { output (ruler 1 1) (10 ∷ 10 ∷ codes "space") ≡ text ("space 0 1" ∷ []) }
{}

/// Command lines that are well formed and that are not.
pub fn command_lines()
    ensures by_themselves { map (λ word. is_some (request_of (codes word ∷ [])))
        ("run" ∷ "session" ∷ "check" ∷ "scrub" ∷ "wipe" ∷ "upgrade" ∷ "dump" ∷ "load" ∷ "format"
        ∷ "format2" ∷ "big" ∷ []) ≡ replicate 8 true ++ replicate 3 false }
    ensures one_word { map (λ word. request_of (codes word ∷ []))
        ("run" ∷ "session" ∷ "check" ∷ "scrub" ∷ "upgrade" ∷ "dump" ∷ "load" ∷ []) ≡ Some Run ∷ Some Session
        ∷ Some Check ∷ Some Scrub ∷ Some Upgrade ∷ Some Dump ∷ Some Load ∷ [] }
    ensures format { request_of (codes "format" ∷ codes "4" ∷ codes "2" ∷ codes "ruler"
        ∷ replicate 64 0x30 ∷ []) ≡
        Some (Format (ruler 4 2)) }
    ensures format_two { request_of (codes "format2" ∷ codes "4" ∷ codes "2" ∷ codes "ruler"
        ∷ replicate 64 0x30 ∷ []) ≡
        Some (Format (with_version (ruler 4 2) Two)) }
    ensures other_formats { map (λ word.
        request_of (codes word ∷ codes "4" ∷ codes "2" ∷ codes "ruler" ∷ replicate 64 0x30 ∷ []))
        ("format1" ∷ "format3" ∷ "Format2" ∷ "upgrade" ∷ []) ≡ replicate 4 None }
    ensures other_draws { map (λ draw.
        request_of (codes "format" ∷ codes "4" ∷ codes "2" ∷ codes draw ∷ replicate 64 0x30 ∷ []))
        ("Ruler" ∷ "sha-256" ∷ "sha" ∷ "" ∷ []) ≡ replicate 4 None }
    ensures no_levels { map (λ height.
        request_of (codes "format" ∷ codes "4" ∷ codes height ∷ codes "ruler"
        ∷ replicate 64 0x30 ∷ []))
        ("0" ∷ "9" ∷ []) ≡ None ∷ None ∷ [] }
    ensures no_slots { request_of (codes "format" ∷ codes "0" ∷ codes "1" ∷ codes "ruler"
        ∷ replicate 64 0x30 ∷ [])
        ≡ None }
    ensures big { request_of (codes "big" ∷ codes "0" ∷ codes "1" ∷ []) ≡ Some (Big 0 1) }
    ensures extra_word { map (λ word. request_of (codes word ∷ codes "x" ∷ []))
        ("run" ∷ "session" ∷ "check" ∷ "scrub" ∷ "wipe" ∷ "upgrade" ∷ "dump" ∷ "load" ∷ [])
        ≡ replicate 8 None }
    ensures no_word { request_of [] ≡ None }
{}
