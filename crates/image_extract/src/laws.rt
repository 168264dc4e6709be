//! Laws on what is asked for of a tree.

ghost use Rattle.std.specs.Prelude.{◌≡◌, List, [], true};
ghost use Rattle.std.specs.List.{list_any};
ghost use Rattle.store_model.specs.Paths.{Path, is_root};
ghost use Rattle.store_model.specs.Trees.{Tree};
ghost use Rattle.host_builder.specs.declared.attribute.Wanted.{Wanted};
ghost use Rattle.host_builder.specs.Views.{host_view};
ghost use Rattle.image_extract.specs.Extracts.{asked};
ghost use Rattle.image_extract.specs.Times.{HasNoTime, with_times};

/// No paths ask for the whole tree, and so do paths among which the root is.
pub fn no_paths_and_the_root_ask_for_all()
    ensures none { (t : Tree) → asked t [] ≡ t }
    ensures root { (t : Tree) (paths : List Path) → list_any is_root paths ≡ true → asked t paths ≡ t }
{}

/// What the host has of a tree in which no path has a time is the same with times as without. So who keeps the times of
/// an image that has some asks for times, whatever the image is.
pub fn times_that_no_path_has_change_nothing()
    ensures { (wanted : Wanted) (t : Tree) → HasNoTime t
        → host_view (with_times wanted) t ≡ host_view wanted t }
{}
