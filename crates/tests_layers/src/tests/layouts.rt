//! The layout of directories by their keys.

ghost use Rattle.std.specs.Prelude.{◌≡◌, length, IfOk, IfSome};
ghost use Rattle.std.specs.List.{list_any};
ghost use Rattle.std.specs.Ordering.{is_eq};
ghost use Rattle.store_model.specs.Paths.{key_cmp};
ghost use Rattle.layout_scratch.specs.Sorting.{HasDistinctKeys};

use layout_scratch::{Layout, ScratchFault, build};
use node_pages::PairList;
use std::alloc::Global;
use store_base::{Key, NoMemory, Params, Value};

/// Whether a pair has the key.
fn is_there(pairs: &PairList, key: &Key) -> bool
    ensures { result ≡ list_any (λ pair. is_eq (key_cmp key.now pair.0)) pairs.now }
{
    pairs.as_slice().iter().any(|pair| key.cmp(&pair.0).is_eq())
}

/// Adds the pair of a directory with the key, and says so. Where a pair has the key already, and without the memory
/// for it, all stays as it was.
fn make(pairs: &mut PairList, key: Key) -> Result<bool, NoMemory>
    requires { HasDistinctKeys pairs.old }
    ensures { HasDistinctKeys pairs.new }
{
    if is_there(pairs, &key) {
        return Ok(false);
    }
    pairs.push((key, Value::new(&[1])))?;
    Ok(true)
}

/// The layout of directories with these keys, or why they have none; nothing for more than 16,384 keys, for two equal
/// ones, and without the memory for their pairs.
pub(super) fn layout(
    alloc: Global,
    params: &Params,
    keys: &[Key],
) -> Option<Result<Layout, ScratchFault>>
    ensures { IfSome result (λ answer. IfOk answer (λ layout. length layout ≡ params.now.slots)) }
{
    let mut pairs = PairList::new(alloc);
    for key in keys {
        if !make(&mut pairs, *key).ok()? {
            return None;
        }
    }
    if pairs.len() > 16384 {
        return None;
    }
    Some(build(alloc, params, &pairs))
}
