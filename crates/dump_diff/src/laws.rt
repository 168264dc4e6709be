//! Laws of differences.

ghost use Rattle.std.specs.Prelude.{List, ◌≡◌, ◌↔◌, []};
ghost use Rattle.store_model.specs.Paths.{Path};
ghost use Rattle.store_model.specs.Trees.{Tree, IsTree};
ghost use Rattle.dump_diff.specs.declared.difference.Mark.{Mark};
ghost use Rattle.dump_diff.specs.Differences.{AreDifferences};

/// Where no path is marked, the trees are equal, and equal trees have no mark. So no difference is found exactly where
/// there is none.
pub fn no_mark_says_that_trees_are_equal()
    ensures { (t u : Tree) (marks : List (Path × Mark)) → IsTree t → IsTree u
        → AreDifferences t u marks
        → (marks ≡ []) ↔ (t ≡ u) }
{}
