//! A stream of the steps of a listing.

ghost use Rattle.std.specs.Prelude.{◌≡◌, ◌≤◌, IfOk, IfErr, MatchResult, length};
ghost use Rattle.store_model.specs.Trees.{Tree, empty_tree};
ghost use Rattle.dump_streams.specs.Streams.{IsNext};
ghost use Rattle.dump_streams.specs.SourceLines.{IsReading, IsReadOut, StopsReading};
ghost use Rattle.dump_streams.specs.Listings.{CameOf, IsListed, IsOfSame, TakesText, EndsBy};

use crate::fault::StreamFault;
use crate::stream::DumpStream;
use crate::{DumpStep, ListingReader, read_step};
use script_lines::{Line, LineReader, MAX_LINE, Source};
use std::alloc::Global;
use std::snapshot::Snapshot;
use store_base::{NoMemory, Version};

/// The steps of a listing, which a source has: a script that says the dump of a tree that may stand under one version.
/// Digits may be of either case, empty lines may stand between, and the last LF may be missing.
#[derive(Drop)]
pub struct ListingStream<R: Source> {
    /// The lines that are still to come.
    lines: LineReader<R>,
    /// Which step may be the next.
    reader: ListingReader,
    /// How many lines came.
    count: u64,
    /// The source before any byte was taken.
    first: Snapshot<R>,
}

impl<R: Source> ListingStream<R> {
    /// The stream of the listing that this source has, of at most 1,073,741,824 bytes, under this version.
    /// `NoMemory`: the source is given back, and nothing was taken from it.
    pub fn new(alloc: Global, source: R, version: Version) -> Result<Self, (NoMemory, R)>
        ensures came { IfOk result (λ stream. CameOf R.state stream empty_tree) }
        ensures first { IfOk result (λ stream. stream.first.value ≡ source) }
        ensures version { IfOk result (λ stream. stream.reader.version ≡ version) }
        ensures err { IfErr result (λ refused. refused.1 ≡ source) }
    {
        let first = Snapshot::of(&source);
        let lines = LineReader::new(alloc, source)?;
        Ok(ListingStream {
            lines,
            reader: ListingReader::new(version),
            count: 0,
            first,
        })
    }

    /// How many lines came that are not empty, the one that was refused among them.
    pub fn line(&self) -> u64
        ensures { result ≡ self.now.count }
    {
        self.count
    }

    /// Gives the source back.
    pub fn into_source(self) -> R
        ensures { result ≡ self.lines.source }
    {
        let ListingStream {
            lines,
            reader: _,
            count: _,
            first: _,
        } = self;
        lines.into_source()
    }

    /// Reads all lines that are still to come, and takes nothing of them. After `NoDump` this tells whether the source
    /// can be read to its end; `line` stays as it is.
    /// `Unreadable`: a take failed now or before. `TooLong`: the source has more bytes than a script may have.
    pub fn read_to_end(&mut self) -> Result<(), StreamFault>
        ensures read { IsReading R.state self.old.first.value self.old.lines
            → MatchResult result (λ done. IsReadOut R.state self.old.first.value self.new.lines)
            (StopsReading R.state self.old.first.value self.new.lines) }
        ensures same { self.new ≡ record self.old { lines = self.new.lines } }
    {
        'lines: while self.lines.is_live() {
            if let Line::End = self.lines.next_line()? {
                return Ok(());
            }
        }
        Err(StreamFault::Unreadable)
    }

    /// The next step, as `next` of the stream. `NoDump`: the line asks for no step, or no dump goes on with it. What
    /// the source has is no listing, and `line` tells the line. `Unreadable`: a take failed now or before. `TooLong`:
    /// the source has more bytes than a script may have.
    fn next_step(&mut self, into: &mut DumpStep) -> Result<bool, StreamFault>
        ensures next { IsNext (CameOf R.state self.old) (CameOf R.state self.new)
            (IsListed R.state self.new)
            (EndsBy R.state self.new) into.new result }
        ensures same { IsOfSame self.old self.new }
    {
        if !self.lines.is_live() {
            return Err(StreamFault::Unreadable);
        }
        match self.lines.next_line()? {
            Line::Text => {
                self.count = self.count.saturating_add(1);
                if take_text(self.lines.text(), &mut self.reader, into) {
                    return Ok(true);
                }
                Err(StreamFault::NoDump)
            }
            Line::Long => {
                self.count = self.count.saturating_add(1);
                Err(StreamFault::NoDump)
            }
            Line::End => Ok(false),
        }
    }
}

/// Takes the step that a text asks for, behind those that were taken, and says whether some tree's dump begins with
/// them all. The step is read into `step`.
fn take_text(text: &[u8], reader: &mut ListingReader, step: &mut DumpStep) -> bool
    requires { length text.now ≤ MAX_LINE }
    ensures { TakesText reader.old reader.new text.now step.new result }
{
    if !read_step(text, step) {
        return false;
    }
    reader.add(step)
}

impl<R: Source> DumpStream for ListingStream<R> {
    ghost came = { CameOf R.state };

    ghost whole = { IsListed R.state };

    ghost keeps = { IsOfSame };

    ghost fails = { EndsBy R.state };

    /// A listing is never refused. `NoDump`: the line asks for no step, or no dump goes on with it. What the source has
    /// is no listing, and `line` tells the line. `Unreadable`: a take failed now or before. `TooLong`: the source has
    /// more bytes than a script may have.
    fn next(&mut self, into: &mut DumpStep) -> Result<bool, StreamFault> {
        self.next_step(into)
    }
}
