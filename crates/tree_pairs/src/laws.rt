//! Laws of the meaning that the calls share.
#![tactic(auto)]

ghost use Rattle.std.specs.Prelude.{◌≡◌, ◌&&◌, false, nat_lt, Some};
ghost use Rattle.store_model.specs.declared.refusal.Refusal.{Refusal};
ghost use Rattle.store_model.specs.Parameters.{Parameters};
ghost use Rattle.store_model.specs.Trees.{Tree};
ghost use Rattle.store_model.specs.Pages.{page_count};
ghost use Rattle.store_model.specs.Commands.{Command};
ghost use Rattle.store_model.specs.Steps.{refusal_of, next_tree, may_fill, lacks_version, step};
ghost use Rattle.tree_pairs.specs.TreeCalls.{uncounted_step};

/// What the calls carry out is the definitions' step, where the image's version has the command, but where that is
/// full: its tree has too many pages, and no other refusal holds.
pub fn calls_are_steps_but_for_full()
    ensures fits { (t : Tree) (command : Command) (p : Parameters) → lacks_version command p ≡ false
        → (may_fill command && nat_lt p.slots (page_count (next_tree t command) p)) ≡ false
        → step t command p ≡ uncounted_step t command p }
    ensures refused { (t : Tree) (command : Command) (p : Parameters) (refusal : Refusal)
        → lacks_version command p ≡ false
        → refusal_of t command ≡ Some refusal → step t command p ≡ uncounted_step t command p }
{}
