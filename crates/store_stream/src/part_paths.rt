//! Some paths, and how many of them are past.

ghost use Rattle.std.specs.Prelude.{◌≡◌, ◌≤◌, length, take, IsTrue};
ghost use Rattle.std.specs.List.{AllByRecursion, list_all};
ghost use Rattle.std.specs.List.Sorted.{IsSorted};
ghost use Rattle.store_model.specs.Paths.{is_path, path_cmp};
ghost use Rattle.store_stream.specs.PartKeys.{IsPast, IsPlaceAmong};

use crate::place::{Place, past_at, place_of};
use path_keys::Path;
use store_base::Key;

/// The paths of some parts of a tree, in their order.
#[derive(Drop)]
pub(crate) struct PartPaths<'a> {
    paths: &'a [Path],
    /// So many of them are past: all at them and below them came.
    done: usize,
    ghost sorted: { IsSorted path_cmp paths.now },
    ghost valid: { IsTrue (list_all is_path paths.now) },
    ghost within: { done ≤ length paths.now },
}

impl<'a> PartPaths<'a> {
    /// These paths, which stand in their order. None is past.
    pub(crate) fn new(paths: &'a [Path]) -> Self
        requires { IsSorted path_cmp paths.now }
        ensures paths { result.paths.now ≡ paths.now }
        ensures done { result.done ≡ 0 }
    {
        reveal(paths);
        PartPaths { paths, done: 0 }
    }

    /// Where a key stands among those of the parts. Paths that are past there are never looked at again.
    pub(crate) fn place_of(&mut self, key: &Key) -> Place
        ensures paths { self.new.paths.now ≡ self.old.paths.now }
        ensures past { AllByRecursion (IsPast key.now) (take self.old.done self.old.paths.now)
            → AllByRecursion (IsPast key.now) (take self.new.done self.new.paths.now) }
        ensures place { AllByRecursion (IsPast key.now) (take self.old.done self.old.paths.now)
            → IsPlaceAmong self.new.paths.now key.now result }
    {
        self.done = past_at(self.paths, self.done, key);
        if self.done < self.paths.len() {
            place_of(&self.paths[self.done], key)
        } else {
            Place::Behind
        }
    }
}

/// Tells that paths are ones. It costs little.
fn reveal(paths: &[Path])
    ensures { IsTrue (list_all is_path paths.now) }
{
    let mut at = 0;
    while at < paths.len() {
        let _ = paths[at].is_root();
        at += 1;
    }
}
