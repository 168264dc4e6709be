//! The changes of a put, one after another.

ghost use Rattle.std.specs.Prelude.{◌≡◌, [], ◌++◌, None, false, IsTrue, IfSome, IfNone, nat_eq};
ghost use Rattle.std.specs.List.{list_any};
ghost use Rattle.std.specs.Cmp.Lexicographic.{pointwise};
ghost use Rattle.store_model.specs.Paths.{is_path, fits_field};
ghost use Rattle.store_model.specs.Trees.{empty_tree};
ghost use Rattle.script_lines.specs.Sessions.{change_of};
ghost use Rattle.staged_tree.specs.ChangeStreams.{GivesChange};
ghost use Rattle.image_puts.specs.PutChanges.{HasPutAt, HasPutSteps, HasPutAll, EndsPut, KeepsPut, BeginsStep};
ghost use Rattle.image_puts.specs.PutChanges.{GivesWrite, room_change};

use crate::fault::PutFault;
use dump_streams::{DumpStep, DumpStream, Step, StreamFault};
use image_changes::Way;
use path_keys::Path;
use script_lines::Change;
use store_base::Bytes;
use store_core::{ChangeStream, When};

/// The changes that put the tree of a source over another, with a path for its root: first those that make the way to
/// that path, and then those of each step of the source, as it comes.
///
/// A file begins with the change that takes away the file at its place, or is refused there. Attributes of a directory
/// are set where it is one of the fresh ones.
pub struct PutChanges<S: DumpStream> {
    source: S,
    to: Path,
    replaces: bool,
    /// The directories of the source whose attributes are set.
    fresh: Vec<Path>,
    way: Way,
    /// The last step of the source.
    step: DumpStep,
    /// The place at which its write is still to be given.
    pending: Option<Path>,
    /// Whether the last path of the source is a directory.
    is_directory: bool,
    /// The path of the last change.
    last: Path,
}

impl<S: DumpStream> PutChanges<S> {
    /// The changes of a source of which nothing came.
    pub fn new(source: S, to: &Path, fresh: Vec<Path>, replaces: bool) -> Self
        ensures source { result.source ≡ source }
        ensures to { result.to ≡ to.now }
        ensures fresh { result.fresh ≡ fresh }
        ensures replaces { result.replaces ≡ replaces }
        ensures begins { S.came source empty_tree → HasPutAt S.came result [] }
    {
        PutChanges {
            source,
            to: *to,
            replaces,
            fresh,
            way: Way::to(to),
            step: DumpStep::new(),
            pending: None,
            is_directory: true,
            last: Path::root(),
        }
    }

    /// The path of the last change that was given, and the root where none was.
    pub fn last(&self) -> &Path
        ensures { result.now ≡ self.now.last }
    {
        &self.last
    }

    /// Gives the source back.
    pub fn into_source(self) -> S
        ensures { result ≡ self.source }
    {
        let PutChanges {
            source,
            to: _,
            replaces: _,
            fresh: _,
            way: _,
            step: _,
            pending: _,
            is_directory: _,
            last: _,
        } = self;
        source
    }
}

impl<S: DumpStream> PutChanges<S> {
    /// Takes steps of the source until one has a change. None is pending.
    fn next_step(&mut self, into: &mut Change) -> Result<Option<When>, PutFault>
        requires { self.old.pending ≡ None }
        ensures next { GivesChange (HasPutSteps S.came self.old) (HasPutAt S.came self.new)
            (HasPutAll S.whole self.new)
            (λ changes fault. EndsPut S.came S.fails self.new fault) (change_of into.new) result }
        ensures keeps { (start : PutChanges S) → KeepsPut S.keeps start self.old
            → KeepsPut S.keeps start self.new }
    {
        for _ in 0..u64::MAX {
            if !self.source.next(&mut self.step)? {
                return Ok(None);
            }
            let Some(place) = placed(self.step.path(), &self.to) else {
                return Err(PutFault::TooLong(*self.step.path()));
            };
            if let Some(when) = self.begin_step(&place, into) {
                return Ok(Some(when));
            }
        }
        Err(PutFault::Source(StreamFault::TooLong))
    }

    /// Puts the first change of the last step, at this place, into `into`, and tells when it is carried out; `None`
    /// where the step has no change. None is pending.
    fn begin_step(&mut self, place: &Path, into: &mut Change) -> Option<When>
        requires { self.old.pending ≡ None }
        ensures { BeginsStep self.old self.new place.now (change_of into.new) result }
    {
        match self.step.parts() {
            Step::Make(_) => {
                self.is_directory = true;
                self.last = *place;
                *into = Change::Make(*place);
                Some(When::NotDirectory)
            }
            Step::Write(_, at, bytes) => {
                self.is_directory = false;
                self.last = *place;
                if at == 0 {
                    self.pending = Some(*place);
                    *into = making_room(self.replaces, place);
                    return Some(When::IsFile);
                }
                *into = Change::Write(*place, at, Bytes::new(bytes.as_slice()));
                Some(When::Always)
            }
            Step::Set(path, name, bytes) => {
                if self.is_directory && !is_among(&self.fresh, path) {
                    return None;
                }
                self.last = *place;
                *into = Change::Set(*place, *name, Bytes::new(bytes.as_slice()));
                Some(When::Always)
            }
        }
    }
}

/// The change that a file begins with where one stands at its place: that one goes, or is in the way.
fn making_room(replaces: bool, place: &Path) -> Change
    ensures { change_of result ≡ room_change replaces place.now }
{
    if replaces {
        Change::Remove(*place)
    } else {
        Change::Make(*place)
    }
}

/// Whether a path is one of these.
fn is_among(paths: &[Path], path: &Path) -> bool
    ensures { result ≡ list_any (pointwise (pointwise nat_eq) path.now) paths.now }
{
    paths.iter().any(|one| path == one)
}

/// The path of a source, at its place; `None` where it is too long there.
fn placed(path: &Path, to: &Path) -> Option<Path>
    ensures some { IfSome result (λ place. (place ≡ to.now ++ path.now) × IsTrue (is_path place)) }
    ensures none { IfNone result (fits_field (to.now ++ path.now) ≡ false) }
{
    path.replant(&Path::root(), to)
}

/// Puts the write of a step, at this place, into `into`; `false` where it is none.
fn put_write(step: &DumpStep, place: &Path, into: &mut Change) -> bool
    ensures { GivesWrite place.now step.now (change_of into.new) result }
{
    match step.parts() {
        Step::Write(_, at, bytes) => {
            *into = Change::Write(*place, at, Bytes::new(bytes.as_slice()));
            true
        }
        Step::Make(_) | Step::Set(_, _, _) => false,
    }
}

impl<S: DumpStream> ChangeStream for PutChanges<S> {
    type Fault = PutFault;

    ghost came = { HasPutAt S.came };

    ghost whole = { HasPutAll S.whole };

    ghost fails = { λ stream changes fault. EndsPut S.came S.fails stream fault };

    ghost keeps = { KeepsPut S.keeps };

    /// `Source`: the stream of the source ended before its dump was whole; `TooLong` of it also where 2^64 - 1 steps in
    /// a row have no change. `TooLong`: a path of the source is too long at its place.
    fn next(&mut self, into: &mut Change) -> Result<Option<When>, PutFault> {
        if let Some(path) = self.way.pass() {
            self.last = path;
            *into = Change::Make(path);
            return Ok(Some(When::NotDirectory));
        }
        if let Some(place) = self.pending.take() {
            if put_write(&self.step, &place, into) {
                self.last = place;
                return Ok(Some(When::Always));
            }
        }
        self.next_step(into)
    }
}
