//! The lines of the entries of a dump, one after another.

ghost use Rattle.std.specs.Prelude.{◌≡◌, [], IfOk, IsTrue, None, option_map};
ghost use Rattle.store_model.specs.Trees.{empty_tree, node_at};
ghost use Rattle.store_model.specs.Paths as model;
ghost use Rattle.dump_streams.specs.Dumps.DumpStep.{Make, Write, Set};
ghost use Rattle.dump_views.specs.Contents.{standing_of};
ghost use Rattle.entry_lines.specs.Entries.{is_last, tell, told_from, with_kind};
ghost use Rattle.entry_lines.specs.Lines.{is_listed, entry_text};
ghost use Rattle.entry_lines.specs.Listers.{TookSteps, TakesStep, BreaksStep, Begins, PutsText, last_text};

use crate::entry::{EntryFacts, EntryKind};
use crate::form::ListForm;
use crate::line::push_line;
use dump_streams::{DumpStep, Step, Taker, TakerFault};
use dump_views::{Standing, is_same_path};
use path_keys::{AttrName, Path};
use script_lines::{Sink, SinkFault};
use std::alloc::Global;
use store_base::Bytes;

/// Puts the line of each entry of a dump that is listed into a sink, once the entry is complete, and remembers what
/// stands at the path.
#[derive(Drop)]
pub(crate) struct EntryLister<W: Sink> {
    alloc: Global,
    form: ListForm,
    top: Path,
    standing: Standing,
    /// The entry to which the next step may add.
    last: Option<EntryFacts>,
    sink: W,
}

impl<W: Sink> EntryLister<W> {
    /// A lister of what stands at a path, which took no step.
    pub fn new(alloc: Global, form: ListForm, top: Path, sink: W) -> Self
        ensures form { result.form ≡ form }
        ensures top { result.top ≡ top }
        ensures standing { result.standing ≡ standing_of (node_at empty_tree top) }
        ensures last { result.last ≡ None }
        ensures sink { result.sink ≡ sink }
        ensures none { TookSteps W.state result result [] }
    {
        let standing = if top.is_root() {
            Standing::Directory
        } else {
            Standing::Nothing
        };
        EntryLister {
            alloc,
            form,
            top,
            standing,
            last: None,
            sink,
        }
    }

    /// Gives the sink back. The last entry is not written.
    pub fn into_sink(self) -> W
        ensures { result ≡ self.sink }
    {
        let EntryLister {
            alloc: _,
            form: _,
            top: _,
            standing: _,
            last: _,
            sink,
        } = self;
        sink
    }

    /// Writes the line of the last entry, and gives the sink back with what stands at the path.
    pub fn finish(self) -> (W, Result<Standing, TakerFault>)
        ensures puts { PutsText (W.state self.sink) (W.state result.0)
            (last_text self.form self.top self.last) result.1 }
        ensures standing { IfOk result.1 (λ standing. standing ≡ self.standing) }
    {
        let mut lister = self;
        let standing = lister.standing;
        match lister.put_last() {
            Ok(()) => (lister.into_sink(), Ok(standing)),
            Err(fault) => (lister.into_sink(), Err(fault)),
        }
    }

    /// Puts the line of the last entry into the sink, if there is one and it is listed.
    fn put_last(&mut self) -> Result<(), TakerFault>
        ensures puts { PutsText (W.state self.old.sink) (W.state self.new.sink)
            (last_text self.old.form self.old.top self.old.last) result }
        ensures stays { self.new ≡ record self.old { sink = self.new.sink } }
    {
        match &self.last {
            Some(facts) => put_entry(self.alloc, &mut self.sink, self.form, &self.top, facts),
            None => Ok(()),
        }
    }

    /// Begins an entry, once the last one is written.
    fn begin(&mut self, facts: EntryFacts) -> Result<(), TakerFault>
        ensures { Begins W.state self.old self.new facts result }
    {
        self.put_last()?;
        self.last = Some(facts);
        Ok(())
    }

    /// Whether the last entry is that of a path.
    fn is_last(&self, path: &Path) -> bool
        ensures { result ≡ is_last self.now.last path.now }
    {
        match &self.last {
            Some(last) => is_same_path(&last.path, path),
            None => false,
        }
    }

    /// Takes the step that makes a folder.
    fn make(&mut self, path: &Path) -> Result<(), TakerFault>
        ensures { TakesStep W.state self.old self.new (Make path.now) result }
    {
        if is_same_path(&self.top, path) {
            self.standing = Standing::Directory;
        }
        self.begin(EntryFacts::new(*path, EntryKind::Folder))
    }

    /// Takes the step that writes bytes into a file: it then ends behind them.
    fn write(&mut self, path: &Path, at: u32, bytes: &Bytes) -> Result<(), TakerFault>
        ensures { TakesStep W.state self.old self.new (Write path.now at bytes.now) result }
    {
        if is_same_path(&self.top, path) {
            self.standing = Standing::File;
        }
        let kind = EntryKind::File(u64::from(at) + bytes.as_slice().len() as u64);
        if self.is_last(path) {
            self.set_kind(kind);
            Ok(())
        } else {
            self.begin(EntryFacts::new(*path, kind))
        }
    }

    /// Notes what stands at the path of the last entry.
    fn set_kind(&mut self, kind: EntryKind)
        ensures { self.new ≡ record self.old { last = option_map (with_kind kind) self.old.last } }
    {
        if let Some(last) = &mut self.last {
            last.kind = kind;
        }
    }

    /// Notes an attribute that a path is given.
    fn note(&mut self, path: &Path, name: &AttrName, bytes: &Bytes)
        ensures { self.new ≡ record self.old {
          last = (tell (told_from self.old.last) (Set path.now name.now bytes.now)).last;
        } }
    {
        if !self.is_last(path) {
            return;
        }
        if let Some(last) = &mut self.last {
            last.note(name, bytes);
        }
    }

    /// Takes the step that gives a path an attribute.
    fn set(&mut self, path: &Path, name: &AttrName, bytes: &Bytes) -> Result<(), TakerFault>
        ensures { TakesStep W.state self.old self.new (Set path.now name.now bytes.now) result }
    {
        self.note(path, name, bytes);
        Ok(())
    }

    /// Takes a step.
    fn take_one(&mut self, step: &DumpStep) -> Result<(), TakerFault>
        ensures { TakesStep W.state self.old self.new step.now result }
    {
        match step.parts() {
            Step::Make(path) => self.make(path),
            Step::Write(path, at, bytes) => self.write(path, at, bytes),
            Step::Set(path, name, bytes) => self.set(path, name, bytes),
        }
    }
}

/// Puts the line of an entry into the sink, if it is listed.
fn put_entry<W: Sink>(
    alloc: Global,
    sink: &mut W,
    form: ListForm,
    top: &Path,
    facts: &EntryFacts,
) -> Result<(), TakerFault>
    ensures { PutsText (W.state sink.old) (W.state sink.new) (entry_text form top.now facts.now) result }
{
    if !is_listed(form, top, facts) {
        return Ok(());
    }
    let mut line = Vec::new(alloc);
    if push_line(alloc, &mut line, form, top, facts).is_err() {
        return Err(TakerFault::NoMemory);
    }
    match sink.put(&line) {
        Ok(()) => Ok(()),
        Err(SinkFault) => Err(TakerFault::Failed),
    }
}

/// Whether an entry is listed: of a file itself, of a folder its children or all below it.
fn is_listed(form: ListForm, top: &Path, facts: &EntryFacts) -> bool
    ensures value { result ≡ is_listed form top.now facts.now }
    ensures within { IsTrue result → IsTrue (model.is_at_or_inside facts.now.path top.now) }
{
    if is_same_path(&facts.path, top) {
        return matches!(facts.kind, EntryKind::File(_));
    }
    if form.is_below {
        return facts.path.is_inside(top);
    }
    match facts.path.parent() {
        Some(parent) => is_same_path(&parent, top),
        None => false,
    }
}

impl<W: Sink> Taker for EntryLister<W> {
    ghost took = { TookSteps W.state };

    ghost broke = { BreaksStep W.state };

    /// `Failed`: the sink failed, and may have got the first bytes of a line. `NoMemory`: the line of an entry was not
    /// made, and the sink was not called.
    fn take(&mut self, step: &DumpStep) -> Result<(), TakerFault> {
        self.take_one(step)
    }
}
