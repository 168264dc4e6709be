//! Maps that keep their memory.

ghost use Rattle.std.specs.Prelude.{◌≡◌, []};

use std::collections::BTreeMap;

/// Empties a map; one that is empty keeps its memory. It takes no memory.
pub fn empty<K: Ord + Drop, V: Drop>(map: &mut BTreeMap<K, V>)
    ensures { map.new.entries ≡ [] }
{
    if !map.is_empty() {
        map.clear();
    }
}
