//! How the list of a tree is asked for a pair.

ghost use Rattle.std.specs.Prelude.{◌≡◌, false};
ghost use Rattle.store_model.specs.Parameters.{Parameters};
ghost use Rattle.store_model.specs.Trees.{Tree};
ghost use Rattle.store_model.specs.Pairs as model;
ghost use Rattle.ordered_pairs.specs.PairsState as sorted;
ghost use Rattle.staged_tree.specs.StagedTree.{IsListAt, GoesOn};
ghost use Rattle.staged_tree.specs.Steps.{EndsStep};

use crate::commands::{TreeList, give_up};
use disk_model::Disk;
use image_check::ApplyFault;
use ordered_pairs::OrderedPairs;
use store_base::{Key, Value};

/// Finds the first pair of a tree's list whose key is not below the given one. After it nothing is staged.
pub fn find_next<D: Disk>(
    pairs: &mut TreeList<D>,
    key: &Key,
) -> Result<Option<(Key, Value)>, ApplyFault>
    requires runs { pairs.old.pages.is_spent ≡ false }
    requires list { (t : Tree) × ((p : Parameters) × IsListAt D.state t p pairs.old) }
    ensures call { (t : Tree) (p : Parameters) → IsListAt D.state t p pairs.old
        → EndsStep D.state t t (λ pair. pair ≡ sorted.next_pair key.now (model.pairs t p)) p
        pairs.old.pages pairs.new.pages result }
    ensures list { GoesOn D.state pairs.old pairs.new }
{
    match pairs.next_from(key) {
        Ok(pair) => {
            pairs.pages.discard();
            Ok(pair)
        }
        Err(fault) => {
            give_up(pairs);
            Err(fault.into())
        }
    }
}
