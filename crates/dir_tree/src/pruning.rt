//! Removing a path with all that lies below it.

ghost use Rattle.store_model.specs.Commands.Command.{Prune};
ghost use Rattle.store_model.specs.Commands.Reply.{Acknowledged};
ghost use Rattle.tree_pairs.specs.TreeCalls.{CarriesOut};
ghost use Rattle.dir_tree.specs.RefusalCalls.{TellsRefusal};

use crate::take_subtree;
use ordered_pairs::OrderedPairs;
use path_keys::Path;
use store_base::{Answer, Fault};
use store_model::Refusal;
use tree_pairs::kind_of;

/// Removes what stands at the path and all that lies below it.
///
/// It is refused, in this order: `Root` for the root, `Missing` where nothing stands there. A refusal changes nothing.
/// A fault of the pairs is handed on; nothing is promised of the pairs after it.
pub fn prune<P: OrderedPairs>(pairs: &mut P, path: &Path) -> Result<Answer<()>, Fault>
    ensures call { CarriesOut (λ _. Acknowledged) (Prune path.now) (P.state pairs.old)
        (P.state pairs.new) result }
    ensures follows { P.follows pairs.old pairs.new }
{
    if let Some(refusal) = refusal_to_prune(pairs, path)? {
        return Ok(Err(refusal));
    }
    take_subtree(pairs, path)?;
    Ok(Ok(()))
}

/// Why what stands at the path is not pruned, if it is refused.
fn refusal_to_prune<P: OrderedPairs>(pairs: &mut P, path: &Path) -> Result<Option<Refusal>, Fault>
    ensures call { TellsRefusal (Prune path.now) (P.state pairs.old) (P.state pairs.new) result }
    ensures follows { P.follows pairs.old pairs.new }
{
    if path.is_root() {
        return Ok(Some(Refusal::Root));
    }
    match kind_of(pairs, path)? {
        None => Ok(Some(Refusal::Missing)),
        Some(_) => Ok(None),
    }
}
