//! Laws on parts of trees.

ghost use Rattle.std.specs.Prelude.{◌≡◌, [], ◌∷◌};
ghost use Rattle.store_model.specs.Paths.{Path, root};
ghost use Rattle.store_model.specs.Trees.{Tree};
ghost use Rattle.store_stream.specs.Parts.{parts_at};
ghost use Rattle.store_stream.specs.Rooted.{tree_below};

/// What lies below a path in the part of a tree at that path is what lies below it in the whole tree. And the part at
/// the root is the whole tree.
pub fn a_part_has_all_below_its_path()
    ensures below { (t : Tree) (path : Path) → tree_below (parts_at t (path ∷ [])) path ≡ tree_below t path }
    ensures whole { (t : Tree) → parts_at t (root ∷ []) ≡ t }
{}
