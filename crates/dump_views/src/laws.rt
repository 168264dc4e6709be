//! Laws of the views of a dump.

ghost use Rattle.std.specs.Prelude.{◌≡◌};
ghost use Rattle.store_model.specs.Paths.{Path};
ghost use Rattle.store_model.specs.Trees.{Tree, IsTree, empty_tree, node_at, contents};
ghost use Rattle.dump_streams.specs.Dumps.{dump};
ghost use Rattle.dump_views.specs.Contents.{written_at, standing_after, standing_of};

/// The steps of the dump of a tree write at a path just the bytes of the file that stands there, in their order, and
/// nothing where no file stands; and they tell what stands there.
pub fn a_dump_writes_each_file()
    ensures written { (t : Tree) (p : Path) → IsTree t → written_at p (dump t) ≡ contents t p }
    ensures standing { (t : Tree) (p : Path) → IsTree t
        → standing_after p (standing_of (node_at empty_tree p)) (dump t)
        ≡ standing_of (node_at t p) }
{}
