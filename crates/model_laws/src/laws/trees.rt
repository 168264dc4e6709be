//! Laws of commands and trees: which lines are commands, what they keep of a tree, and that layouts tell trees
//! apart.
#![tactic(auto)]

ghost use Rattle.std.specs.Prelude.{◌≡◌, ℕ, ◌≤◌, List, [], ◌∷◌, ◌++◌, map, length, Bool, true, false, is_some, IsTrue};
ghost use Rattle.std.specs.Prelude.{Ok};
ghost use Rattle.std.specs.FinMap.{find, is_sorted};
ghost use Rattle.std.specs.List.{filter, AllByRecursion};
ghost use Rattle.store_model.specs.declared.version.Version.{Version};
ghost use Rattle.store_model.specs.declared.version.Version.TheVariants.{Two};
ghost use Rattle.store_model.specs.Parameters.{Parameters, IsParameters, with_version};
ghost use Rattle.store_model.specs.Paths.{Path, is_root, is_path, is_at_or_inside, key_cmp, parent};
ghost use Rattle.store_model.specs.Trees.{Tree, empty_tree, IsTree, node_at, attributes_at, is_directory, exists};
ghost use Rattle.store_model.specs.Pairs.{Pair, pairs};
ghost use Rattle.store_model.specs.Draws.{Draw};
ghost use Rattle.store_model.specs.Pages.{Fits, page_count, pages_of_pairs};
ghost use Rattle.store_model.specs.Images.{layout, Represents};
ghost use Rattle.store_model.specs.Commands.{Command, IsCommand};
ghost use Rattle.store_model.specs.Commands.Command.{Make, Prune};
ghost use Rattle.store_model.specs.Steps.{next_tree, step};
ghost use Rattle.store_model.specs.Grammar.{parse};
ghost use Rattle.store_model.specs.Scripts.{answer, tree_after, line_limit};
ghost use Rattle.model_laws.specs.ShortFiles.{HasNoShortFile};
ghost use Rattle.model_laws.specs.Within.{works_within, stays_within};

/// The empty tree is a tree, and fits any table.
pub fn empty_tree_is_a_tree()
    ensures tree { IsTree empty_tree }
    ensures fits { (p : Parameters) → Fits empty_tree p }
{}

/// A tree stays one when a directory is made at a path other than the root, where nothing stands and whose
/// parent is a directory.
pub fn made_directories_keep_a_tree()
    ensures { (t : Tree) (p : Path) → IsTree t → IsTrue (is_path p) → is_root p ≡ false →
        is_directory t (parent p) ≡ true → exists t p ≡ false → IsTree (next_tree t (Make p)) }
{}

/// A line that is parsed gives a command that a script can ask for: its paths are made of names and fit the
/// field of a key, its numbers have 32 bits, its contents are bytes.
pub fn parsed_lines_are_commands()
    ensures { (text : List ℕ) (c : Command) → parse text ≡ Ok c → IsCommand c }
{}

/// A step of any command leaves a tree of a tree.
pub fn steps_keep_trees()
    ensures { (t : Tree) (c : Command) (p : Parameters) → IsTree t → IsCommand c
        → IsTree (step t c p).tree }
{}

/// The answer to any line leaves a tree of a tree, and so do the answers to a list of lines.
pub fn answers_keep_trees()
    ensures line { (t : Tree) (text : List ℕ) (p : Parameters) → IsTree t
        → IsTree (answer t text p).tree }
    ensures lines { (t : Tree) (texts : List (List ℕ)) (p : Parameters) → IsTree t
        → IsTree (tree_after t texts p) }
{}

/// A list of pairs has no more pages than another if its keys are those of the other that pass a test, in their
/// order; or if both are finite maps, and each key of the one is a key of the other. The values do not matter.
pub fn fewer_keys_need_no_more_pages()
    ensures kept { (d : Draw) (r s : List Pair) (kept : List ℕ → Bool) →
        map (λ pair. pair.0) r ≡ filter kept (map (λ pair. pair.0) s) →
        length (pages_of_pairs d r) ≤ length (pages_of_pairs d s) }
    ensures subset { (d : Draw) (r s : List Pair) → IsTrue (is_sorted key_cmp r)
        → IsTrue (is_sorted key_cmp s) →
        ((k : List ℕ) → is_some (find key_cmp k r) ≡ true → is_some (find key_cmp k s) ≡ true) →
        length (pages_of_pairs d r) ≤ length (pages_of_pairs d s) }
{}

/// A tree has no more pages under version 2 than under any version of the same other parameters, so it fits where it
/// did.
pub fn version_two_needs_no_more_pages()
    ensures pages { (t : Tree) (p : Parameters)
        → page_count t (with_version p Two) ≤ page_count t p }
    ensures fits { (t : Tree) (p : Parameters) → Fits t p → Fits t (with_version p Two) }
{}

/// A tree without files of at most 200 bytes has the same pairs under both versions.
pub fn versions_agree_on_long_files()
    ensures { (t : Tree) (p : Parameters) (version : Version) → AllByRecursion HasNoShortFile t →
        pairs t (with_version p version) ≡ pairs t p }
{}

/// A step of any command on a tree that fits leaves a tree that fits.
pub fn steps_keep_fitting()
    ensures { (t : Tree) (c : Command) (p : Parameters) → IsTree t → Fits t p
        → Fits (step t c p).tree p }
{}

/// The answer to any line on a tree that fits leaves a tree that fits, and so do the answers to a list of lines.
pub fn answers_keep_fitting()
    ensures line { (t : Tree) (text : List ℕ) (p : Parameters) → IsTree t → Fits t p
        → Fits (answer t text p).tree p }
    ensures lines { (t : Tree) (texts : List (List ℕ)) (p : Parameters) → IsTree t → Fits t p →
        Fits (tree_after t texts p) p }
{}

/// Two layouts with the same bytes are of the same tree, attributes and all, and the same parameters, the version
/// among them. So an image represents one tree at most, under one list of parameters.
pub fn layouts_tell_trees_apart()
    ensures layout { (t u : Tree) (p q : Parameters) → IsParameters p → IsParameters q
        → IsTree t → IsTree u →
        Fits t p → Fits u q → layout t p ≡ layout u q → (t ≡ u) × (p ≡ q) }
    ensures image { (image : List ℕ) (t u : Tree) (p q : Parameters) → Represents image t p
        → Represents image u q →
        (t ≡ u) × (p ≡ q) }
{}

/// A command that works at or below a path changes nothing elsewhere, neither what stands there nor attributes. Nor
/// do lines that ask for such commands, or are refused.
pub fn commands_change_nothing_elsewhere()
    ensures command { (t : Tree) (c : Command) (p : Parameters) (at other : Path)
        → works_within at c ≡ true →
        is_at_or_inside other at ≡ false → node_at (step t c p).tree other ≡ node_at t other }
    ensures command_attributes { (t : Tree) (c : Command) (p : Parameters) (at other : Path)
        → works_within at c ≡ true →
        is_at_or_inside other at ≡ false
        → attributes_at (step t c p).tree other ≡ attributes_at t other }
    ensures lines { (t : Tree) (texts : List (List ℕ)) (p : Parameters) (at other : Path) →
        AllByRecursion (λ text. stays_within at text ≡ true) texts
        → is_at_or_inside other at ≡ false →
        node_at (tree_after t texts p) other ≡ node_at t other }
    ensures lines_attributes { (t : Tree) (texts : List (List ℕ)) (p : Parameters) (at other : Path)
        →
        AllByRecursion (λ text. stays_within at text ≡ true) texts
        → is_at_or_inside other at ≡ false →
        attributes_at (tree_after t texts p) other ≡ attributes_at t other }
{}

/// Where nothing stands at a path, lines that work at or below it, and then a `prune` of it, leave the tree as it was.
pub fn pruned_trees_are_as_before()
    ensures { (t : Tree) (texts : List (List ℕ)) (text : List ℕ) (p : Parameters) (at : Path)
        → IsTree t →
        exists t at ≡ false → AllByRecursion (λ text. stays_within at text ≡ true) texts
        → length text ≤ line_limit →
        parse text ≡ Ok (Prune at) → tree_after t (texts ++ text ∷ []) p ≡ t }
{}
