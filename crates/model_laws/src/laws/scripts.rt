//! Laws of steps and scripts.
#![tactic(auto)]

ghost use Rattle.std.specs.Prelude.{◌≡◌, ◌≤◌, ℕ, List, ◌++◌, length, Ok, codes};
ghost use Rattle.store_model.specs.declared.refusal.Refusal.{Refusal};
ghost use Rattle.store_model.specs.Parameters.{Parameters};
ghost use Rattle.store_model.specs.Trees.{Tree};
ghost use Rattle.sha2.specs.Sha256.{sha256};
ghost use Rattle.store_model.specs.Images.{layout};
ghost use Rattle.store_model.specs.Commands.{Command, IsCommand, command_text};
ghost use Rattle.store_model.specs.Commands.Reply.{Refused, ImageDigest};
ghost use Rattle.store_model.specs.Grammar.{parse};
ghost use Rattle.store_model.specs.Steps.{step};
ghost use Rattle.store_model.specs.Scripts.{line_limit, reading, answer, replies_by, tree_by, replies, tree_after};

/// A command or a line whose reply is a refusal leaves the tree as it was.
pub fn refused_command_leaves_the_tree()
    ensures command { (t : Tree) (c : Command) (p : Parameters) (r : Refusal) →
        (step t c p).reply ≡ Refused r → (step t c p).tree ≡ t }
    ensures line { (t : Tree) (text : List ℕ) (p : Parameters) (r : Refusal) →
        (answer t text p).reply ≡ Refused r → (answer t text p).tree ≡ t }
{}

/// The line `digest` is answered by the SHA-256 of the whole image of the tree.
pub fn digest_is_of_the_whole_image()
    ensures { (t : Tree) (p : Parameters)
        → (answer t (codes "digest") p).reply ≡ ImageDigest (sha256 (layout t p)) }
{}

/// Lines that are cut in two parts answer as the first part and then the second, from the tree that the first
/// part leaves. So do commands.
pub fn scripts_run_one_after_another()
    ensures replies { (t : Tree) (first second : List (List ℕ)) (p : Parameters) →
        replies t (first ++ second) p ≡ replies t first p
        ++ replies (tree_after t first p) second p }
    ensures tree { (t : Tree) (first second : List (List ℕ)) (p : Parameters) →
        tree_after t (first ++ second) p ≡ tree_after (tree_after t first p) second p }
    ensures replies_to_commands { (t : Tree) (first second : List Command) (p : Parameters) →
        replies_by (λ u c. step u c p) t (first ++ second) ≡
        replies_by (λ u c. step u c p) t first
        ++ replies_by (λ u c. step u c p) (tree_by (λ u c. step u c p) t first) second }
    ensures tree_after_commands { (t : Tree) (first second : List Command) (p : Parameters) →
        tree_by (λ u c. step u c p) t (first ++ second) ≡
        tree_by (λ u c. step u c p) (tree_by (λ u c. step u c p) t first) second }
{}

/// A command's line is read back: its text spells it, and so it does to whoever reads the line, where it keeps the
/// limit of a line.
pub fn lines_spell_their_commands()
    ensures parsed { (c : Command) → IsCommand c → parse (command_text c) ≡ Ok c }
    ensures read { (c : Command) → IsCommand c → length (command_text c) ≤ line_limit
        → reading (command_text c) ≡ Ok c }
{}
