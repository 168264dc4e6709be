//! A stream of what the host can have of another stream's tree.

ghost use Rattle.std.specs.Prelude.{◌≡◌, ℕ, false};
ghost use Rattle.store_model.specs.Trees.{Tree, empty_tree};
ghost use Rattle.dump_streams.specs.Streams.{IsNext};
ghost use Rattle.host_builder.specs.Passing as passing;
ghost use Rattle.host_builder.specs.Views as views;
ghost use Rattle.host_builder.specs.Viewed as model;
ghost use Rattle.host_builder.specs.Viewed.{IsViewing, ViewBy, CameOfView, IsWholeView, EndsView, KeepsView};
ghost use Rattle.host_builder.specs.Viewed.{TurnsView, GivesHeld, PassesOn};

use crate::attribute::{HostAttribute, Links, Wanted, attribute_in};
use dump_streams::{DumpStep, DumpStream, Step, StreamFault};
use host_names::has_host_text;
use path_keys::Path;

/// Where a stream is in the steps of an entry.
#[derive(Clone, Copy, Debug)]
pub(crate) enum Spot {
    /// At what the host is not to have, or behind all that it has of the entry.
    Nothing,
    /// At a folder.
    Folder,
    /// At a file, and whether it is empty.
    File(bool),
    /// At an empty file, which is held back while it may be a link that is left out.
    Held(Path),
}

/// What one more step gave.
#[derive(Clone, Copy, Debug)]
pub(crate) enum Turn {
    /// The next step.
    Step,
    /// No step yet.
    More,
    /// There was none.
    End,
}

/// The steps of the dump of what the host can have of the tree of another stream: its folders and files, with those of
/// their attributes that are wanted and that the host can have. An attribute comes behind those of lower names, and
/// `link` is below `mode` and `mtime`. So each step decides of itself, but for the one that makes an empty file: where
/// links are left out that is held back, until what comes next tells that the file is none.
///
/// It keeps one step.
pub struct HostViewStream<S: DumpStream> {
    stream: S,
    wanted: Wanted,
    /// The last step of the other stream.
    step: DumpStep,
    spot: Spot,
    /// Whether that step is to be judged yet.
    is_at_hand: bool,
    /// Whether the other stream told its end.
    is_ended: bool,
}

impl<S: DumpStream> HostViewStream<S> {
    /// The stream of what the host can have, of a stream from which no step came.
    pub fn new(stream: S, wanted: Wanted) -> Self
        ensures came { S.came stream empty_tree → CameOfView S.came S.whole result empty_tree }
        ensures stream { result.stream ≡ stream }
        ensures wanted { result.wanted ≡ wanted }
    {
        HostViewStream {
            stream,
            wanted,
            step: DumpStep::new(),
            spot: Spot::Nothing,
            is_at_hand: false,
            is_ended: false,
        }
    }

    /// The other stream.
    pub fn stream(&self) -> &S
        ensures { result.now ≡ self.now.stream }
    {
        &self.stream
    }

    /// Gives the other stream back.
    pub fn into_stream(self) -> S
        ensures { result ≡ self.stream }
    {
        let HostViewStream {
            stream,
            wanted: _,
            step: _,
            spot: _,
            is_at_hand: _,
            is_ended: _,
        } = self;
        stream
    }

    /// The next step, as `next` of the stream.
    fn next_step(&mut self, into: &mut DumpStep) -> Result<bool, StreamFault>
        ensures next { IsNext (CameOfView S.came S.whole self.old) (CameOfView S.came S.whole self.new)
            (IsWholeView S.whole self.new) (EndsView S.came S.fails self.new) into.new result }
        ensures keeps { (start : HostViewStream S) → KeepsView S.keeps start self.old
            → KeepsView S.keeps start self.new }
    {
        for _ in 0..u64::MAX {
            match self.turn(into)? {
                Turn::Step => return Ok(true),
                Turn::End => return Ok(false),
                Turn::More => {}
            }
        }
        Err(StreamFault::TooLong)
    }

    /// Judges one more step of the other stream, and puts what it gives into `into`.
    fn turn(&mut self, into: &mut DumpStep) -> Result<Turn, StreamFault>
        ensures turned { (t : Tree) (count : ℕ) → ViewBy S.came S.whole self.old t count
            → TurnsView S.came S.whole S.fails self.new t count into.new result }
        ensures keeps { (start : HostViewStream S) → KeepsView S.keeps start self.old
            → KeepsView S.keeps start self.new }
    {
        if self.is_ended {
            return Ok(Turn::End);
        }
        if self.is_at_hand {
            self.is_at_hand = false;
            return Ok(self.pass(into));
        }
        self.judge_next(into)
    }

    /// The same where no step is at hand.
    fn judge_next(&mut self, into: &mut DumpStep) -> Result<Turn, StreamFault>
        requires none { self.old.is_at_hand ≡ false }
        requires going { self.old.is_ended ≡ false }
        ensures turned { (t : Tree) (count : ℕ) → IsViewing S.came self.old t count
            → TurnsView S.came S.whole S.fails self.new t count into.new result }
        ensures keeps { (start : HostViewStream S) → KeepsView S.keeps start self.old
            → KeepsView S.keeps start self.new }
    {
        if !self.stream.next(&mut self.step)? {
            self.is_ended = true;
            return Ok(self.give_held(into, Spot::Nothing, Turn::End));
        }
        if settles(self.wanted, self.spot, &self.step) {
            self.is_at_hand = true;
            return Ok(self.give_held(into, Spot::File(true), Turn::More));
        }
        Ok(self.pass(into))
    }

    /// Gives what is held back, and goes on from `spot`; where nothing is, it answers `otherwise`.
    fn give_held(&mut self, into: &mut DumpStep, spot: Spot, otherwise: Turn) -> Turn
        ensures gives { GivesHeld self.old.spot into.new otherwise result }
        ensures same { self.new ≡ record self.old { spot = spot } }
    {
        let held = self.spot;
        self.spot = spot;
        match held {
            Spot::Held(path) => {
                into.write(path, 0, &[]);
                Turn::Step
            }
            Spot::Nothing | Spot::Folder | Spot::File(_) => otherwise,
        }
    }

    /// Passes the step at hand on, or does not.
    fn pass(&mut self, into: &mut DumpStep) -> Turn
        ensures passes { PassesOn self.old.step into.new
            (model.pass self.old.wanted self.old.spot self.old.step).1 result }
        ensures same { self.new ≡ record self.old {
          spot = (model.pass self.old.wanted self.old.spot self.old.step).0;
        } }
    {
        let (spot, gives) = passed(self.wanted, self.spot, &self.step);
        self.spot = spot;
        if !gives {
            return Turn::More;
        }
        copy(&self.step, into);
        Turn::Step
    }
}

impl<S: DumpStream> DumpStream for HostViewStream<S> {
    ghost came = { CameOfView S.came S.whole };

    ghost whole = { IsWholeView S.whole };

    ghost keeps = { KeepsView S.keeps };

    ghost fails = { EndsView S.came S.fails };

    /// The faults of the other stream, and `TooLong` also where it gives 2^64 - 1 steps in a row of which the host can
    /// have nothing.
    fn next(&mut self, into: &mut DumpStep) -> Result<bool, StreamFault> {
        self.next_step(into)
    }
}

/// Whether a step tells that what is held back is no link.
fn settles(wanted: Wanted, spot: Spot, step: &DumpStep) -> bool
    ensures { result ≡ model.settles wanted spot step.now }
{
    match (spot, step.parts()) {
        (Spot::Held(_), Step::Make(_) | Step::Write(_, _, _)) => true,
        (Spot::Held(_), Step::Set(_, name, bytes)) => {
            is_of_file(wanted, attribute_in(name.as_bytes(), bytes.as_slice()))
        }
        _ => false,
    }
}

/// Where a stream is behind a step, and whether that is passed on.
fn passed(wanted: Wanted, spot: Spot, step: &DumpStep) -> (Spot, bool)
    ensures { result ≡ model.pass wanted spot step.now }
{
    match step.parts() {
        Step::Make(path) => {
            if is_passed(wanted, path) {
                (Spot::Folder, true)
            } else {
                (Spot::Nothing, false)
            }
        }
        Step::Write(path, at, bytes) => {
            if is_passed(wanted, path) {
                written(wanted, path, at == 0 && bytes.as_slice().is_empty())
            } else {
                (Spot::Nothing, false)
            }
        }
        Step::Set(_, name, bytes) => set(
            wanted,
            spot,
            attribute_in(name.as_bytes(), bytes.as_slice()),
        ),
    }
}

/// Whether the host is to have what stands at a path.
fn is_passed(wanted: Wanted, path: &Path) -> bool
    ensures { result ≡ passing.is_passed wanted path.now }
{
    !wanted.skips || has_host_text(path)
}

/// The same behind a write, which may be that of an empty file.
fn written(wanted: Wanted, path: &Path, is_empty: bool) -> (Spot, bool)
    ensures { result ≡ model.write_at wanted path.now is_empty }
{
    if is_empty && wanted.links == Links::LeftOut {
        (Spot::Held(*path), false)
    } else {
        (Spot::File(is_empty), true)
    }
}

/// The same behind an attribute, which says this of the host.
fn set(wanted: Wanted, spot: Spot, told: Option<HostAttribute>) -> (Spot, bool)
    ensures { result ≡ model.set_at wanted spot told }
{
    match spot {
        Spot::Nothing => (Spot::Nothing, false),
        Spot::Folder => (Spot::Folder, is_of_folder(wanted, told)),
        Spot::File(is_empty) => {
            if is_empty && is_of_link(wanted, told) {
                (Spot::Nothing, true)
            } else {
                (Spot::File(is_empty), is_of_file(wanted, told))
            }
        }
        Spot::Held(path) => {
            if is_of_link(wanted, told) {
                (Spot::Nothing, false)
            } else {
                (Spot::Held(path), false)
            }
        }
    }
}

/// Whether a folder of the host has it.
fn is_of_folder(wanted: Wanted, told: Option<HostAttribute>) -> bool
    ensures { result ≡ views.folder_has wanted told }
{
    match told {
        Some(HostAttribute::Time(_)) => wanted.mtime,
        Some(HostAttribute::Executes | HostAttribute::Link) | None => false,
    }
}

/// Whether a file has it that is no link.
fn is_of_file(wanted: Wanted, told: Option<HostAttribute>) -> bool
    ensures { result ≡ views.file_has wanted told }
{
    match told {
        Some(HostAttribute::Executes) => wanted.mode,
        Some(HostAttribute::Time(_)) => wanted.mtime,
        Some(HostAttribute::Link) | None => false,
    }
}

/// Whether a link has it.
fn is_of_link(wanted: Wanted, told: Option<HostAttribute>) -> bool
    ensures { result ≡ views.link_has wanted told }
{
    match told {
        Some(HostAttribute::Link) => wanted.links != Links::Data,
        Some(HostAttribute::Executes | HostAttribute::Time(_)) | None => false,
    }
}

/// Puts a step into the place of another.
fn copy(step: &DumpStep, into: &mut DumpStep)
    ensures { into.new ≡ step.now }
{
    match step.parts() {
        Step::Make(path) => into.make(*path),
        Step::Write(path, at, bytes) => into.write(*path, at, bytes.as_slice()),
        Step::Set(path, name, bytes) => into.set(*path, *name, bytes.as_slice()),
    }
}
