//! A law, as a function that does nothing.

ghost use Rattle.std.specs.Prelude.{◌≡◌};
ghost use Rattle.store_model.specs.Parameters.{Parameters};
ghost use Rattle.store_model.specs.Trees.{Tree};
ghost use Rattle.store_model.specs.Pairs.{pairs};
ghost use Rattle.store_model.specs.Images.{layout};
ghost use Rattle.image_writer.specs.Sealing.{image_of_pairs};

/// The image of a tree's pairs is the layout of the tree.
pub fn pairs_of_a_tree_give_its_layout()
    ensures { (t : Tree) (p : Parameters) → image_of_pairs p (pairs t p) ≡ layout t p }
{}
