//! Where a key stands among those of some parts of a tree.

ghost use Rattle.std.specs.Prelude.{◌≡◌, ◌≤◌, ◌<◌, ◌↔◌, length, take, slice_index_or, IsTrue};
ghost use Rattle.std.specs.List.{AllByRecursion};
ghost use Rattle.store_model.specs.Paths as model;
ghost use Rattle.dir_tree.specs.SubtreeCalls.{IsBeforeEnd};
ghost use Rattle.store_stream.specs.PartKeys.{IsPast, IsPlace};

use path_keys::Path;
use std::cmp::Ordering;
use store_base::Key;

/// Where a key stands among those of some parts.
#[derive(Clone, Copy, Debug)]
pub(crate) enum Place {
    /// It is a key of what is at one of the paths or below it.
    Inside,
    /// It is that of a directory that leads to one of them.
    Leads,
    /// It is none of these, and this is the first of them behind it.
    Before(Key),
    /// It is none of these, and none stands behind it.
    Behind,
}

/// Whether a key stands before the end of what is at the path and below it. The root's has none.
fn is_before_end(key: &Key, path: &Path) -> bool
    ensures { IsTrue result ↔ IsBeforeEnd path.now key.now }
{
    path.is_root() || *key < path.past()
}

/// Of these paths, of which the first so many are past, how many are past where a key is reached.
pub(crate) fn past_at(paths: &[Path], past: usize, key: &Key) -> usize
    requires within { past ≤ length paths.now }
    ensures within { result ≤ length paths.now }
    ensures past { AllByRecursion (IsPast key.now) (take past paths.now)
        → AllByRecursion (IsPast key.now) (take result paths.now) }
    ensures next { result < length paths.now
        → (none : model.Path) → IsBeforeEnd (slice_index_or paths.now result none) key.now }
{
    let mut at = past;
    while at < paths.len() {
        if is_before_end(key, &paths[at]) {
            return at;
        }
        at += 1;
    }
    at
}

/// Where a key stands that is before the end of what is at the path and below it.
pub(crate) fn place_of(path: &Path, key: &Key) -> Place
    requires { IsBeforeEnd path.now key.now }
    ensures { IsPlace path.now key.now result }
{
    if path.is_root() {
        return Place::Inside;
    }
    let mut next = path.key(0);
    if next <= *key {
        return Place::Inside;
    }
    let mut at = *path;
    while let Some(parent) = at.parent() {
        let above = parent.key(0);
        match above.cmp(key) {
            Ordering::Less => return Place::Before(next),
            Ordering::Equal => return Place::Leads,
            Ordering::Greater => {
                next = above;
                at = parent;
            }
        }
    }
    Place::Before(next)
}
