//! Which attributes there may be.

ghost use Rattle.std.specs.Prelude.{◌≡◌, ◌↔◌, IsTrue};
ghost use Rattle.store_model.specs.Pairs as model;
ghost use Rattle.tree_pairs.specs.Seen.{IsAbove};

use path_keys::AttrName;
use std::cmp::Ordering;
use store_model::Version;

/// Whether a version has attributes.
pub fn has_attributes(version: Version) -> bool
    ensures { result ≡ model.has_attributes version }
{
    match version {
        Version::One => false,
        Version::Two => true,
    }
}

/// Whether a name may stand behind the last one, if there is one.
pub fn is_above(last: &Option<AttrName>, name: &AttrName) -> bool
    ensures { IsTrue result ↔ IsAbove last.now name.now }
{
    match last {
        Some(last) => last.as_bytes().cmp(name.as_bytes()) == Ordering::Less,
        None => true,
    }
}
