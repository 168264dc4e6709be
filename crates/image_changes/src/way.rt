//! The way to a path: all that lead to it, from the top on, and the path itself.

ghost use Rattle.std.specs.Prelude.{◌≡◌, ◌∷◌, ◌++◌, []};
ghost use Rattle.store_model.specs.Paths as model;
ghost use Rattle.image_changes.specs.Ways.{LeadsOn};

use path_keys::Path;

/// A way to a path, and where it stands.
#[derive(Drop)]
pub struct Way {
    path: Path,
    /// The last path that was passed, and the root before the first.
    front: Path,
}

impl Way {
    /// The way to a path, of which none was passed.
    pub fn to(path: &Path) -> Way
        ensures path { result.path ≡ path.now }
        ensures front { result.front ≡ [] }
    {
        Way {
            path: *path,
            front: Path::root(),
        }
    }

    /// The last path that was passed, and the root before the first.
    pub fn front(&self) -> &Path
        ensures { result.now ≡ self.now.front }
    {
        &self.front
    }

    /// Passes the next path, and tells it; `None` where the way is at its end.
    pub fn pass(&mut self) -> Option<Path>
        ensures path { self.new.path ≡ self.old.path }
        ensures leads { (rest : model.Path) → self.old.path ≡ self.old.front ++ rest
            → LeadsOn self.old.front rest self.new.front result }
    {
        if !self.path.is_inside(&self.front) {
            return None;
        }
        let next = next_below(&self.front, &self.path);
        self.front = next;
        Some(next)
    }
}

/// The path below `front` with one name more that leads to a path below `front`, or is it.
fn next_below(front: &Path, path: &Path) -> Path
    ensures { (n : model.Name) (rest : model.Path) → path.now ≡ front.now ++ n ∷ rest
        → result ≡ front.now ++ n ∷ [] }
{
    match path.parent() {
        Some(up) if up != *front => next_below(front, &up),
        _ => *path,
    }
}
