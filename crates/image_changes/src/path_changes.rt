//! Changes of one kind, one for each path of a list, as a stream.

ghost use Rattle.std.specs.Prelude.{◌≡◌, []};
ghost use Rattle.script_lines.specs.Sessions.{change_of};
ghost use Rattle.image_changes.specs.PathChanges.{change_at, HasGiven, AreAll, KeepsPaths};

use path_keys::Path;
use script_lines::Change;
use store_core::{ChangeStream, When};

/// What is changed at a path.
#[derive(Clone, Copy, Debug, PartialEq, Eq)]
pub enum PathChange {
    /// A directory is made.
    Make,
    /// A file or an empty directory is taken away.
    Remove,
    /// What stands there is taken away with all below it.
    Prune,
}

impl PathChange {
    /// The change at a path.
    fn at(self, path: &Path) -> Change
        ensures { change_of result ≡ change_at self path.now }
    {
        match self {
            PathChange::Make => Change::Make(*path),
            PathChange::Remove => Change::Remove(*path),
            PathChange::Prune => Change::Prune(*path),
        }
    }
}

/// The changes of one kind at the paths of a list, in its order, each under the same guard. It never fails.
#[derive(Drop)]
pub struct PathChanges {
    paths: Vec<Path>,
    kind: PathChange,
    when: When,
    given: usize,
    /// The path of the last change that was given.
    last: Path,
}

impl PathChanges {
    /// Changes of which none came.
    pub fn new(paths: Vec<Path>, kind: PathChange, when: When) -> Self
        ensures paths { result.paths ≡ paths }
        ensures kind { result.kind ≡ kind }
        ensures when { result.when ≡ when }
        ensures begins { HasGiven result [] }
    {
        PathChanges {
            paths,
            kind,
            when,
            given: 0,
            last: Path::root(),
        }
    }

    /// The path of the last change that was given, and the root where none was.
    pub fn last(&self) -> &Path
        ensures { result.now ≡ self.now.last }
    {
        &self.last
    }
}

impl ChangeStream for PathChanges {
    type Fault = ();

    ghost came = { HasGiven };

    ghost whole = { AreAll };

    ghost fails = { λ state changes fault. ⊥ };

    ghost keeps = { KeepsPaths };

    /// It is never refused.
    fn next(&mut self, into: &mut Change) -> Result<Option<When>, ()> {
        let Some(path) = self.paths.get(self.given) else {
            return Ok(None);
        };
        *into = self.kind.at(path);
        self.last = *path;
        self.given += 1;
        Ok(Some(self.when))
    }
}
