//! What stands at a path.

ghost use Rattle.std.specs.Prelude.{◌≡◌};
ghost use Rattle.ordered_pairs.specs.PairsState.{IsObservable};
ghost use Rattle.dir_tree.specs.KindCalls.{TellsKind, named_kind};

use ordered_pairs::OrderedPairs;
use path_keys::Path;
use store_base::Fault;
use tree_pairs::Kind as Found;

/// What stands at a path.
#[derive(Clone, Copy, Debug, PartialEq, Eq)]
pub enum Kind {
    /// Nothing.
    Absent,
    /// A directory, as the root always is.
    Dir,
    /// A file of so many bytes.
    File(u32),
}

/// Says what stands at a path. The pairs stay as they were, also after a fault, which is handed on.
pub fn kind_of<P: OrderedPairs>(pairs: &mut P, path: &Path) -> Result<Kind, Fault>
    ensures call { TellsKind path.now (P.state pairs.old) (P.state pairs.new) result }
    ensures hidden { IsObservable (P.state pairs.new) → IsObservable (P.state pairs.old) }
    ensures follows { P.follows pairs.old pairs.new }
{
    let found = tree_pairs::kind_of(pairs, path)?;
    Ok(named(&found))
}

/// The kind that was found, by its name here.
fn named(found: &Option<Found>) -> Kind
    ensures { result ≡ named_kind found.now }
{
    match *found {
        None => Kind::Absent,
        Some(Found::Directory) => Kind::Dir,
        Some(Found::File(len)) => Kind::File(len),
    }
}
