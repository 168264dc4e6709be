//! Laws of the words: where their steps lead, that tree is meant, and where they stop, the word is refused.

ghost use Rattle.std.specs.Prelude.{◌≡◌, ℕ, List, [], ◌∷◌, ◌++◌, Bool, IsTrue, None};
ghost use Rattle.std.specs.List.{AllByRecursion};
ghost use Rattle.store_model.specs.declared.refusal.Refusal.{Refusal};
ghost use Rattle.store_model.specs.Parameters.{Parameters};
ghost use Rattle.store_model.specs.Paths.{Path, Name, is_path};
ghost use Rattle.store_model.specs.Trees.{Tree, IsTree, empty_tree};
ghost use Rattle.store_model.specs.Commands.{IsCommand};
ghost use Rattle.store_model.specs.Commands.Command.{SetAttribute, UnsetAttribute};
ghost use Rattle.store_model.specs.Steps.{next_tree};
ghost use Rattle.dump_streams.specs.Dumps.{DumpStep, after_step, step_path};
ghost use Rattle.dump_streams.specs.Streams.{Extends};
ghost use Rattle.tree_changes.specs.Conditional.{Conditional, Leads, Stops, refusal_under};
ghost use Rattle.tree_changes.specs.Meant.{Standing, HasJust};
ghost use Rattle.tree_changes.specs.Folders.{AreMade, RefusesMaking, making_steps};
ghost use Rattle.tree_changes.specs.Folders.{AreMadeWithParents, RefusesParents, making_parents_steps};
ghost use Rattle.tree_changes.specs.AttributeChanges.{HasSet, HasUnset};
ghost use Rattle.tree_changes.specs.Moves.{IsMoved, RefusesMove, move_steps};
ghost use Rattle.tree_changes.specs.Puts.{HasRoomBelow, IsPut, RefusesPut, fresh_of, put_step, put_changes};
ghost use Rattle.tree_changes.specs.Removals.{AreInOrder, IsRemoved, RefusesRemoval, removal_steps};

/// At most one tree has at each path just what is told.
pub fn a_standing_tells_its_tree()
    ensures { (standing : Standing) (u v : Tree) → HasJust standing u → HasJust standing v → u ≡ v }
{}

/// Where the steps of a removal lead, the paths are removed; and where they stop, one of the paths is not to be
/// removed, for that reason.
pub fn removals_are_meant()
    ensures leads { (recursive forced : Bool) (paths : List Path) (p : Parameters) (t u : Tree) → IsTree t
        → AreInOrder recursive paths → Leads p t (removal_steps recursive forced paths) u
        → IsRemoved recursive forced paths t u }
    ensures stops { (recursive forced : Bool) (paths : List Path) (p : Parameters) (t : Tree) (g : Conditional)
        (why : Refusal) → IsTree t → AreInOrder recursive paths
        → Stops p t (removal_steps recursive forced paths) g why → RefusesRemoval recursive forced paths t g why }
{}

/// Where the steps of making directories lead, they are made in their order; and where they stop, one of them was not
/// to be made behind those before it, for that reason.
pub fn makings_are_meant()
    ensures leads { (paths : List Path) (p : Parameters) (t u : Tree) → IsTree t
        → AllByRecursion (λ q. IsTrue (is_path q)) paths → Leads p t (making_steps paths) u
        → AreMade paths t u }
    ensures stops { (paths : List Path) (p : Parameters) (t : Tree) (g : Conditional) (why : Refusal) → IsTree t
        → AllByRecursion (λ q. IsTrue (is_path q)) paths → Stops p t (making_steps paths) g why
        → RefusesMaking paths t g why }
{}

/// The same with all that lead to the paths: only a file is in the way.
pub fn parents_are_meant()
    ensures leads { (paths : List Path) (p : Parameters) (t u : Tree) → IsTree t
        → AllByRecursion (λ q. IsTrue (is_path q)) paths → Leads p t (making_parents_steps paths) u
        → AreMadeWithParents paths t u }
    ensures stops { (paths : List Path) (p : Parameters) (t : Tree) (g : Conditional) (why : Refusal) → IsTree t
        → AllByRecursion (λ q. IsTrue (is_path q)) paths → Stops p t (making_parents_steps paths) g why
        → RefusesParents paths t g why }
{}

/// Where the steps of a move lead, it is moved; and where they stop, the move is refused, for that reason.
pub fn moves_are_meant()
    ensures leads { (forced : Bool) (from to : Path) (p : Parameters) (t u : Tree) → IsTree t
        → IsTrue (is_path to) → Leads p t (move_steps forced from to) u → IsMoved forced from to t u }
    ensures stops { (forced : Bool) (from to : Path) (p : Parameters) (t : Tree) (g : Conditional) (why : Refusal)
        → IsTree t → Stops p t (move_steps forced from to) g why → RefusesMove forced from to t g why }
{}

/// A command on an attribute that is not refused changes the attributes of its path alone, by that one.
pub fn attributes_are_meant()
    ensures set { (p : Parameters) (path : Path) (name : Name) (bytes : List ℕ) (t : Tree) → IsTree t
        → IsCommand (SetAttribute path name bytes) → refusal_under p t (SetAttribute path name bytes) ≡ None
        → HasSet p path name bytes t (next_tree t (SetAttribute path name bytes)) }
    ensures unset { (p : Parameters) (path : Path) (name : Name) (t : Tree) → IsTree t
        → IsCommand (UnsetAttribute path name) → refusal_under p t (UnsetAttribute path name) ≡ None
        → HasUnset p path name t (next_tree t (UnsetAttribute path name)) }
{}

/// Where all changes of a put lead, the tree of the sources is put over the first. Where they stop on the way to the
/// place, or at one of a further step of the sources, what comes to the path of that change is not put there, for that
/// reason.
pub fn puts_are_meant()
    ensures leads { (replaces : Bool) (to : Path) (listed : List Path) (p : Parameters) (u t w : Tree) → IsTree t
        → IsTrue (is_path to) → IsTree u → HasRoomBelow to u
        → Leads p t (put_changes replaces to (fresh_of to listed t) u) w → IsPut replaces to listed u t w }
    ensures stops_on_the_way { (replaces : Bool) (to : Path) (listed : List Path) (p : Parameters) (t : Tree)
        (g : Conditional) (why : Refusal) → IsTree t → IsTrue (is_path to)
        → Stops p t (making_parents_steps (to ∷ [])) g why
        → RefusesPut replaces p to listed empty_tree t g why }
    ensures stops { (replaces : Bool) (to : Path) (listed : List Path) (p : Parameters) (u t w : Tree) (s : DumpStep)
        (g : Conditional) (why : Refusal) → IsTree t → IsTrue (is_path to) → IsTree u → HasRoomBelow to u
        → Extends u s → IsTrue (is_path (to ++ step_path s))
        → Leads p t (put_changes replaces to (fresh_of to listed t) u) w
        → Stops p w (put_step replaces to (fresh_of to listed t) u s) g why
        → RefusesPut replaces p to listed (after_step u s) t g why }
{}
