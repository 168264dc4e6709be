//! Laws of paths and their texts.
#![tactic(auto)]

ghost use Rattle.std.specs.Prelude.{◌≡◌, IsTrue, Some};
ghost use Rattle.std.specs.List.{list_all};
ghost use Rattle.store_model.specs.Paths.{Path, is_name, path_text};
ghost use Rattle.store_model.specs.Grammar.{path_of};

/// Reading the text of a path made of names gives the path back.
pub fn texts_spell_their_paths()
    ensures { (path : Path) → IsTrue (list_all is_name path)
        → path_of (path_text path) ≡ Some path }
{}
