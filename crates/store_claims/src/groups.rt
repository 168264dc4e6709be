//! Groups are committed whole.

ghost use Rattle.std.specs.Prelude.{List, ℕ};
ghost use Rattle.store_model.specs.Parameters.{Parameters};
ghost use Rattle.store_model.specs.Trees.{Tree};
ghost use Rattle.store_claims.specs.Groups.{CommitsWhole};

use session_core::every_history_is_serial;

/// The groups that the first lines of any script commit, from any tree on, and no more of what was staged: each is
/// whole in their tree, the one of each commit that was answered `ok` is among them, and each question of its session
/// has on the tree of the groups before the answer that it had when it was asked.
pub fn groups_are_whole()
    ensures { (t : Tree) (p : Parameters) (script : List ℕ) (count : ℕ)
        → CommitsWhole t p script count }
{
    every_history_is_serial();
}
