//! How the pairs of a tree are pulled from its list by a stream, from the first one on or from a key on.

ghost use Rattle.std.specs.Prelude.{◌≡◌, false, List};
ghost use Rattle.store_model.specs.Parameters.{Parameters};
ghost use Rattle.store_model.specs.Trees.{Tree};
ghost use Rattle.store_model.specs.Pairs as model;
ghost use Rattle.store_model.specs.Pairs.{Pair};
ghost use Rattle.disk_model.specs.DiskState.{IsObservable};
ghost use Rattle.skip_levels.specs.SearchPath.{below};
ghost use Rattle.staged_tree.specs.StagedTree.{IsListAt, GoesOn};
ghost use Rattle.staged_tree.specs.Steps.{EndsStep};
ghost use Rattle.staged_tree.specs.Walks.{StandsIn, IsNextFor, passed_after};

use crate::commands::{TreeList, give_up};
use disk_model::Disk;
use image_check::ApplyFault;
use pair_stream::PairStream;
use store_base::{Key, Params, Value};

/// Finds by one search from the top where a stream stands that is to give the pairs of a tree's list whose keys are not
/// below the given one. After it nothing is staged.
pub fn start_stream<D: Disk>(
    pairs: &mut TreeList<D>,
    params: &Params,
    key: &Key,
) -> Result<PairStream, ApplyFault>
    requires runs { pairs.old.pages.is_spent ≡ false }
    requires list { (t : Tree) × IsListAt D.state t params.now pairs.old }
    ensures call { (t : Tree) → IsListAt D.state t params.now pairs.old
        → EndsStep D.state t t (StandsIn t params.now (below key.now (model.pairs t params.now)))
        params.now pairs.old.pages pairs.new.pages result }
    ensures list { GoesOn D.state pairs.old pairs.new }
{
    match PairStream::starting_at(&mut pairs.pages, params.height(), key) {
        Ok(stream) => {
            pairs.pages.discard();
            Ok(stream)
        }
        Err(fault) => {
            give_up(pairs);
            Err(fault.into())
        }
    }
}

/// Pulls the next pair of a tree's list by a stream. After it nothing is staged, and after a fault the stream stands
/// where it stood.
pub fn pull_next<D: Disk>(
    pairs: &mut TreeList<D>,
    stream: &mut PairStream,
) -> Result<Option<(Key, Value)>, ApplyFault>
    requires runs { pairs.old.pages.is_spent ≡ false }
    requires list { (t : Tree) × ((p : Parameters) × IsListAt D.state t p pairs.old) }
    ensures call { (t : Tree) (p : Parameters) → IsListAt D.state t p pairs.old
        → EndsStep D.state t t (IsNextFor t p stream.old) p pairs.old.pages pairs.new.pages result }
    ensures stream { (t : Tree) (p : Parameters) → IsListAt D.state t p pairs.old
        → IsObservable (D.state pairs.old.pages.disk)
        → (passed : List Pair) → StandsIn t p passed stream.old
        → StandsIn t p (passed_after passed result) stream.new }
    ensures list { GoesOn D.state pairs.old pairs.new }
{
    match stream.next(&mut pairs.pages) {
        Ok(pair) => {
            pairs.pages.discard();
            Ok(pair)
        }
        Err(fault) => {
            give_up(pairs);
            Err(fault.into())
        }
    }
}
