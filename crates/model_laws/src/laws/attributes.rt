//! Laws of the attributes of paths: what commands leave of them.
#![tactic(auto)]

ghost use Rattle.std.specs.Prelude.{◌≡◌, ◌≢◌, ℕ, ◌≤◌, List, [], false, ◌&&◌, Some, None, if◌then◌else◌};
ghost use Rattle.std.specs.Ordering.{eq_by_cmp};
ghost use Rattle.store_model.specs.declared.refusal.Refusal.TheVariants as refusals;
ghost use Rattle.store_model.specs.Parameters.{Parameters};
ghost use Rattle.store_model.specs.Paths.{Path, Name, name_cmp, same_path, is_at_or_inside};
ghost use Rattle.store_model.specs.Trees.{Tree, IsTree, node_at, attributes_at, attribute_at, moved_path};
ghost use Rattle.store_model.specs.Pages.{page_count};
ghost use Rattle.store_model.specs.Commands.Command.{Make, Write, Cut, Rename, Remove, Prune, SetAttribute};
ghost use Rattle.store_model.specs.Commands.Command.{UnsetAttribute};
ghost use Rattle.store_model.specs.Commands.Reply.{Acknowledged, Refused};
ghost use Rattle.store_model.specs.Steps.{step};

/// `make`, `write` and `cut` keep the attributes of each path, also of their own. So a path that they make has
/// none.
pub fn nodes_keep_attributes()
    ensures make { (t : Tree) (path other : Path) (p : Parameters) →
        attributes_at (step t (Make path) p).tree other ≡ attributes_at t other }
    ensures write { (t : Tree) (path other : Path) (at : ℕ) (bytes : List ℕ) (p : Parameters) →
        attributes_at (step t (Write path at bytes) p).tree other ≡ attributes_at t other }
    ensures cut { (t : Tree) (path other : Path) (len : ℕ) (p : Parameters) →
        attributes_at (step t (Cut path len) p).tree other ≡ attributes_at t other }
{}

/// `set` and `unset` change what stands at no path. Where they are acknowledged, the one attribute of the one path
/// has the bytes or is gone, and each other attribute stays as it was.
pub fn attributes_change_one_by_one()
    ensures nodes_after_set { (t : Tree) (path other : Path) (a : Name)
        (bytes : List ℕ) (p : Parameters) →
        node_at (step t (SetAttribute path a bytes) p).tree other ≡ node_at t other }
    ensures nodes_after_unset { (t : Tree) (path other : Path) (a : Name) (p : Parameters) →
        node_at (step t (UnsetAttribute path a) p).tree other ≡ node_at t other }
    ensures set { (t : Tree) (path other : Path) (a b : Name) (bytes : List ℕ) (p : Parameters) →
        (step t (SetAttribute path a bytes) p).reply ≡ Acknowledged →
        attribute_at (step t (SetAttribute path a bytes) p).tree other b ≡
        (if same_path other path && eq_by_cmp name_cmp b a then Some bytes else
        attribute_at t other b) }
    ensures unset { (t : Tree) (path other : Path) (a b : Name) (p : Parameters) →
        (step t (UnsetAttribute path a) p).reply ≡ Acknowledged →
        attribute_at (step t (UnsetAttribute path a) p).tree other b ≡
        (if same_path other path && eq_by_cmp name_cmp b a then None else attribute_at t other b) }
{}

/// `rename` takes attributes along, and `remove` and `prune` take them away: those of the path, or of all that goes
/// with it, and no others.
pub fn attributes_go_with_their_paths()
    ensures rename { (t : Tree) (from to other : Path) (p : Parameters) → IsTree t →
        (step t (Rename from to) p).reply ≡ Acknowledged → is_at_or_inside other to ≡ false →
        attributes_at (step t (Rename from to) p).tree (moved_path from to other)
        ≡ attributes_at t other }
    ensures remove { (t : Tree) (path other : Path) (p : Parameters)
        → (step t (Remove path) p).reply ≡ Acknowledged →
        attributes_at (step t (Remove path) p).tree other
        ≡ (if same_path other path then [] else attributes_at t other) }
    ensures prune { (t : Tree) (path other : Path) (p : Parameters)
        → (step t (Prune path) p).reply ≡ Acknowledged →
        attributes_at (step t (Prune path) p).tree other ≡
        (if is_at_or_inside other path then [] else attributes_at t other) }
{}

/// `unset` needs no more pages, and is never refused as `full`.
pub fn unset_is_never_full()
    ensures pages { (t : Tree) (path : Path) (a : Name) (p : Parameters) → IsTree t →
        page_count (step t (UnsetAttribute path a) p).tree p ≤ page_count t p }
    ensures reply { (t : Tree) (path : Path) (a : Name) (p : Parameters) (need slots : ℕ) →
        (step t (UnsetAttribute path a) p).reply ≢ Refused (refusals.Full need slots) }
{}
