//! The pairs of a subtree: they stand together, from the key of the path at its top on. Attributes are among them.

ghost use Rattle.std.specs.Prelude.{IsTrue, ◌↔◌};
ghost use Rattle.dir_tree.specs.SubtreeCalls.{FindsKey, IsBeforeEnd, TakesSubtree};

use ordered_pairs::OrderedPairs;
use path_keys::Path;
use store_base::{Fault, Key};

/// Finds the first key from `from` on, if it belongs to the path `top` or to a path below it. The pairs stay as they
/// were, also after a fault, which is handed on.
pub fn next_within<P: OrderedPairs>(
    pairs: &mut P,
    from: &Key,
    top: &Path,
) -> Result<Option<Key>, Fault>
    ensures call { FindsKey from.now top.now (P.state pairs.old) (P.state pairs.new) result }
    ensures follows { P.follows pairs.old pairs.new }
{
    let Some(pair) = pairs.next_from(from)? else {
        return Ok(None);
    };
    if is_before_end(&pair.0, top) {
        Ok(Some(pair.0))
    } else {
        Ok(None)
    }
}

/// Whether a key stands before the end of the subtree at the path. The root's has none.
fn is_before_end(key: &Key, top: &Path) -> bool
    ensures { IsTrue result ↔ IsBeforeEnd top.now key.now }
{
    top.is_root() || *key < top.past()
}

/// Takes away all pairs at the path `top` and below it. After a fault of the pairs, which is handed on, nothing is
/// promised of them.
pub fn take_subtree<P: OrderedPairs>(pairs: &mut P, top: &Path) -> Result<(), Fault>
    ensures call { TakesSubtree top.now (P.state pairs.old) (P.state pairs.new) result }
    ensures follows { P.follows pairs.old pairs.new }
{
    let first = top.key(0);
    for _ in 0..u32::MAX {
        let Some(found) = next_within(pairs, &first, top)? else {
            break;
        };
        pairs.take(&found)?;
    }
    Ok(())
}
