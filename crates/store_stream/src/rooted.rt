//! A stream of what lies below a path, with that path for the root.

ghost use Rattle.std.specs.Prelude.{◌≡◌, length, drop, true, false, MatchOption, IsTrue};
ghost use Rattle.store_model.specs.Paths.{is_inside, is_path};
ghost use Rattle.store_model.specs.Trees.{Tree, IsTree};
ghost use Rattle.dump_streams.specs.Streams.{IsNext};
ghost use Rattle.store_stream.specs.Rooted.{tree_below, IsBelow, EndsBelow, KeepsBelow, RootsStep};

use dump_streams::{DumpStep, DumpStream, Step, StreamFault};
use path_keys::Path;

/// The steps of the dump of what lies below a path in the tree of another stream, with that path for the root: of its
/// steps those on paths below this one, without the names of this one. What stands at the path itself gives no step.
///
/// It keeps one step.
pub struct RootedStream<S: DumpStream> {
    stream: S,
    path: Path,
    /// The last step of the stream.
    step: DumpStep,
}

impl<S: DumpStream> RootedStream<S> {
    /// What lies below a path, of a stream from which the dump of a tree came so far.
    pub fn new(stream: S, path: Path) -> Self
        ensures came { (t : Tree) → IsTree t → S.came stream t
            → IsBelow S.came result (tree_below t path) }
        ensures stream { result.stream ≡ stream }
        ensures path { result.path ≡ path }
    {
        RootedStream {
            stream,
            path,
            step: DumpStep::new(),
        }
    }

    /// The other stream.
    pub fn stream(&self) -> &S
        ensures { result.now ≡ self.now.stream }
    {
        &self.stream
    }

    /// Gives the other stream back.
    pub fn into_stream(self) -> S
        ensures { result ≡ self.stream }
    {
        let RootedStream {
            stream,
            path: _,
            step: _,
        } = self;
        stream
    }

    /// The next step, as `next` of the stream.
    fn next_step(&mut self, into: &mut DumpStep) -> Result<bool, StreamFault>
        ensures next { IsNext (IsBelow S.came self.old) (IsBelow S.came self.new)
            (IsBelow S.whole self.new) (EndsBelow S.came S.fails self.new) into.new result }
        ensures keeps { (start : RootedStream S) → KeepsBelow S.keeps start self.old
            → KeepsBelow S.keeps start self.new }
    {
        for _ in 0..u64::MAX {
            if !self.stream.next(&mut self.step)? {
                return Ok(false);
            }
            if put_rooted(&self.step, &self.path, into) {
                return Ok(true);
            }
        }
        Err(StreamFault::TooLong)
    }
}

impl<S: DumpStream> DumpStream for RootedStream<S> {
    ghost came = { IsBelow S.came };

    ghost whole = { IsBelow S.whole };

    ghost keeps = { KeepsBelow S.keeps };

    ghost fails = { EndsBelow S.came S.fails };

    /// The faults of the other stream, and `TooLong` also where it gives 2^64 - 1 steps in a row that do not lie below
    /// the path.
    fn next(&mut self, into: &mut DumpStep) -> Result<bool, StreamFault> {
        self.next_step(into)
    }
}

/// Puts the step into `into` without the names of `path`, where it lies below that; `false` where it does not.
fn put_rooted(step: &DumpStep, path: &Path, into: &mut DumpStep) -> bool
    ensures { RootsStep path.now step.now into.new result }
{
    let Some(below) = rooted(step.path(), path) else {
        return false;
    };
    match step.parts() {
        Step::Make(_) => into.make(below),
        Step::Write(_, at, bytes) => into.write(below, at, bytes.as_slice()),
        Step::Set(_, name, bytes) => into.set(below, *name, bytes.as_slice()),
    }
    true
}

/// The path without the names of `top`, where it lies below that.
fn rooted(path: &Path, top: &Path) -> Option<Path>
    ensures { MatchOption result (is_inside path.now top.now ≡ false)
        (λ below. (is_inside path.now top.now ≡ true) × (below ≡ drop (length top.now) path.now)) }
{
    if !path.is_inside(top) {
        return None;
    }
    path.replant(top, &Path::root())
}
