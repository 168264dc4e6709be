//! Changes that make directories with all that lead to them, as a stream.

ghost use Rattle.std.specs.Prelude.{◌≡◌, []};
ghost use Rattle.image_changes.specs.Ways.{HasPassedTo, ArePassed, KeepsWays};

use crate::way::Way;
use path_keys::Path;
use script_lines::Change;
use store_core::{ChangeStream, When};

/// The changes that make the directories of a list of paths, each behind all that lead to it. What stands already is
/// passed over, if it is a directory. It never fails.
#[derive(Drop)]
pub struct ParentChanges {
    paths: Vec<Path>,
    /// The ways to how many of the paths were begun.
    begun: usize,
    /// The last of them, or that to the root.
    way: Way,
}

impl ParentChanges {
    /// Changes of which none came.
    pub fn new(paths: Vec<Path>) -> Self
        ensures paths { result.paths ≡ paths }
        ensures begins { HasPassedTo result [] }
    {
        ParentChanges {
            paths,
            begun: 0,
            way: Way::to(&Path::root()),
        }
    }

    /// The path of the last change that was given, where one was.
    pub fn last(&self) -> &Path
        ensures { result.now ≡ self.now.way.front }
    {
        self.way.front()
    }
}

impl ChangeStream for ParentChanges {
    type Fault = ();

    ghost came = { HasPassedTo };

    ghost whole = { ArePassed };

    ghost fails = { λ state changes fault. ⊥ };

    ghost keeps = { KeepsWays };

    /// It is never refused.
    fn next(&mut self, into: &mut Change) -> Result<Option<When>, ()> {
        loop {
            if let Some(path) = self.way.pass() {
                *into = Change::Make(path);
                return Ok(Some(When::NotDirectory));
            }
            let Some(path) = self.paths.get(self.begun) else {
                return Ok(None);
            };
            self.way = Way::to(path);
            self.begun += 1;
        }
    }
}
