//! The lines of a script, read from a source in pieces of whatever length.

ghost use Rattle.std.specs.Prelude.{◌≡◌, ◌↔◌, ◌≤◌, ◌<◌, ◌+◌, ◌-◌, ◌*◌, ◌^◌, ◌==◌, [], true, false, IsTrue, IsOk, IfOk};
ghost use Rattle.std.specs.Prelude.{OnOk, IfErr, OnErr, IsErrOf, length, take, drop, min, max, vec_len, nat_lt};
ghost use Rattle.std.specs.Prelude.{if◌then◌else◌, IfSome};
ghost use Rattle.store_base.specs.Counts.{Rose};
ghost use Rattle.script_lines.specs.SourceState.{IsObservable};
ghost use Rattle.script_lines.specs.Lines.{HasNoEnd, ended_lines};
ghost use Rattle.script_lines.specs.LineState.{NextLine, KeepsSource, Fills, EndsCall, IsShown};

use crate::fault::SourceFault;
use crate::find::find_byte;
use crate::source::Source;
use std::alloc::Global;
use std::marker::Model;
use store_base::NoMemory;
use thiserror::Error;

/// The longest line, in bytes, without the LF that ends it.
pub const MAX_LINE: usize = 8192;

/// The longest script, in bytes.
pub const MAX_SCRIPT: u64 = 1_073_741_824;

/// The room of a reader: a line, and 64 KiB to take more bytes into.
const ROOM: usize = 73_728;

/// What a reader of lines answers.
#[derive(Clone, Copy, Debug, PartialEq, Eq)]
pub enum Line {
    /// A line of at most 8,192 bytes, which `text` gives.
    Text,
    /// A line of more bytes. It was passed over.
    Long,
    /// The script has no further line.
    End,
}

/// Why a reader of lines ended before the script did.
#[derive(Clone, Copy, Debug, PartialEq, Eq, Error)]
pub enum LineFault {
    /// A take from the source failed.
    #[error("the script cannot be read")]
    Source,
    /// The script is longer than the limit.
    #[error("the script is too long")]
    TooLong,
}

/// Reads the lines of a script one after another. A script is cut at each LF, bytes after the last LF are
/// a line, and empty lines are passed over. All of its memory is taken when it is made.
#[derive(Drop)]
pub struct LineReader<R: Source> {
    source: R,
    buffer: Vec<u8>,
    start: usize,
    end: usize,
    text_start: usize,
    text_end: usize,
    taken: u64,
    limit: u64,
    is_ended: bool,
    is_live: bool,
}

impl<R: Source> Model for LineReader<R> {
    ghost use Rattle.std.specs.Prelude.{◌-◌, IsTrue, take, drop, vec_len};
    ghost use Rattle.script_lines.specs.LineState.{LineState};
    ghost use Rattle.script_lines.specs.Placed.{IsPlaced, IsAtEnd};

    ghost Value = { LineState R };

    ghost view = { λ r. record {
      source = r.source;
      held = take (r.end - r.start) (drop r.start r.buffer.items);
      taken = r.taken;
      limit =
          r.limit;
      is_ended = r.is_ended;
      is_live = r.is_live;
      text =
          take (r.text_end - r.text_start) (drop r.text_start r.buffer.items);
    } };

    ghost invariant = { λ r. IsPlaced (vec_len r.buffer)
        r.start r.end r.text_start r.text_end r.taken r.limit
        × (IsTrue r.is_ended → IsAtEnd (R.state r.source) r.start r.end) };
}

impl<R: Source> LineReader<R> {
    ghost use Rattle.std.specs.Prelude.{◌≡◌, [], IfOk, IfErr, length, drop, take, ◌≤◌, ◌<◌, true, false, IsTrue};

    /// A reader of the script that this source has, of at most 1,073,741,824 bytes.
    /// `NoMemory`: the source is given back, and nothing was taken from it.
    pub fn new(alloc: Global, source: R) -> Result<Self, (NoMemory, R)>
        ensures ok { IfOk result (λ reader. reader ≡ record {
          source = source;
          held = [];
          taken = 0;
          limit = MAX_SCRIPT;
          is_ended = false;
          is_live = true;
          text = [];
        }) }
        ensures err { IfErr result (λ refused. refused.1 ≡ source) }
    {
        LineReader::with_limit(alloc, source, MAX_SCRIPT)
    }

    /// A reader of the script that this source has, of at most so many bytes.
    /// `NoMemory`: the source is given back, and nothing was taken from it.
    pub fn with_limit(alloc: Global, source: R, limit: u64) -> Result<Self, (NoMemory, R)>
        ensures ok { IfOk result (λ reader. reader ≡ record {
          source = source;
          held = [];
          taken = 0;
          limit = limit;
          is_ended = false;
          is_live = true;
          text = [];
        }) }
        ensures err { IfErr result (λ refused. refused.1 ≡ source) }
    {
        let Ok(buffer) = vec![in alloc; 0; ROOM] else {
            return Err((NoMemory, source));
        };
        Ok(LineReader {
            source,
            buffer,
            start: 0,
            end: 0,
            text_start: 0,
            text_end: 0,
            taken: 0,
            limit,
            is_ended: false,
            is_live: true,
        })
    }

    /// Whether no fault came. A new reader is live.
    pub fn is_live(&self) -> bool
        ensures { result ≡ self.now.is_live }
    {
        self.is_live
    }

    /// The bytes of the line, where the last answer was `Text`, and else none.
    pub fn text(&self) -> &[u8]
        ensures value { result.now ≡ self.now.text }
        ensures fits { length result.now ≤ MAX_LINE }
    {
        &self.buffer[self.text_start..self.text_end]
    }

    /// Gives the source back.
    pub fn into_source(self) -> R
        ensures { result ≡ self.source }
    {
        let LineReader {
            source,
            buffer: _,
            start: _,
            end: _,
            text_start: _,
            text_end: _,
            taken: _,
            limit: _,
            is_ended: _,
            is_live: _,
        } = self;
        source
    }

    /// The bytes that are held.
    fn held(&self) -> &[u8]
        ensures value { result.now ≡ self.now.held }
        ensures fits { length result.now ≤ ROOM }
    {
        &self.buffer[self.start..self.end]
    }

    /// Lets go of the first bytes that are held.
    fn pass(&mut self, count: usize)
        requires { count ≤ length self.old.held }
        ensures { self.new ≡ record self.old { held = drop count self.old.held } }
    {
        self.start += count;
    }

    /// Answers the line of this length, which an LF ends.
    fn answer(&mut self, line_len: usize) -> Line
        requires { line_len < length self.old.held }
        ensures state { self.new ≡ record self.old {
          held = drop (line_len + 1) self.old.held;
          text =
              (if nat_lt MAX_LINE line_len then [] else take line_len self.old.held);
        } }
        ensures answer { result ≡ (if nat_lt MAX_LINE line_len then Line.Long else Line.Text) }
    {
        self.text_start = self.start;
        self.text_end = self.start;
        self.start += line_len + 1;
        if line_len > MAX_LINE {
            return Line::Long;
        }
        self.text_end += line_len;
        Line::Text
    }

    /// Answers the bytes held, as the last line, at the end of the source.
    fn finish(&mut self) -> Line
        requires fits { length self.old.held ≤ MAX_LINE }
        requires at_end { IsObservable (R.state self.old.source)
            → (R.state self.old.source).left ≡ [] }
        ensures state { self.new
            ≡ record self.old { held = []; is_ended = true; text = self.old.held } }
        ensures answer { result ≡ (if length self.old.held == 0 then Line.End else Line.Text) }
    {
        self.text_start = self.start;
        self.text_end = self.end;
        self.start = self.end;
        self.is_ended = true;
        if self.text_start == self.text_end {
            Line::End
        } else {
            Line::Text
        }
    }

    /// Takes bytes behind those that are held, and answers how many: 0 at the end of the source.
    fn fill(&mut self) -> Result<usize, LineFault>
        requires fits { length self.old.held ≤ MAX_LINE }
        requires going { self.old.is_ended ≡ false }
        ensures source { KeepsSource (R.state self.old.source) (R.state self.new.source) result }
        ensures fills { Fills R.state self.old self.new result }
    {
        move_to_front(&mut self.buffer, self.start, self.end);
        self.end -= self.start;
        self.start = 0;
        self.text_start = 0;
        self.text_end = 0;
        let allowed = self.limit - self.taken;
        let wanted = wanted_count(allowed, ROOM - self.end);
        let buffer = self.buffer.as_mut_slice();
        match self.source.take(&mut buffer[self.end..self.end + wanted]) {
            Ok(count) if count as u64 <= allowed => {
                self.end += count;
                self.taken += count as u64;
                Ok(count)
            }
            Ok(_) => {
                self.is_live = false;
                Err(LineFault::TooLong)
            }
            Err(SourceFault) => {
                self.is_live = false;
                Err(LineFault::Source)
            }
        }
    }

    /// Passes over a line of more bytes than a line may have, of which the bytes held are the beginning.
    fn pass_long(&mut self) -> Result<Line, LineFault>
        requires live { self.old.is_live ≡ true }
        requires going { self.old.is_ended ≡ false }
        requires plain { HasNoEnd self.old.held }
        requires long { MAX_LINE < length self.old.held }
        requires text { self.old.text ≡ [] }
        requires in_limit { self.old.taken ≤ self.old.limit }
        ensures source { KeepsSource (R.state self.old.source) (R.state self.new.source) result }
        ensures ends { EndsCall self.old self.new result }
        ensures long { OnOk result (result ≡ Ok Line.Long) }
        ensures text { self.new.text ≡ [] }
        ensures answer { IsObservable (R.state self.old.source)
            → NextLine R.state self.old self.new result }
    {
        loop {
            self.pass(self.held().len());
            if self.fill()? == 0 {
                self.finish();
                return Ok(Line::Long);
            }
            if let Some(place) = find_byte(self.held(), b'\n') {
                self.pass(place + 1);
                return Ok(Line::Long);
            }
        }
    }

    /// Reads the next line of the script. It takes bytes only where no whole line is held, and none after the
    /// source's end.
    /// `Source`: a take failed, and nothing was taken after it. `TooLong`: as many bytes were taken as a
    /// script may have, and one more came. After either the reader is not live. Each line that an LF ended among the
    /// bytes taken, or allowed, was answered before. A line in progress is not answered. After `End` the answer is
    /// `End` again.
    pub fn next_line(&mut self) -> Result<Line, LineFault>
        requires { IsTrue self.old.is_live }
        ensures source { KeepsSource (R.state self.old.source) (R.state self.new.source) result }
        ensures ends { EndsCall self.old self.new result }
        ensures shown { IsShown result self.new.text }
        ensures again { IsTrue self.old.is_ended → result ≡ Ok Line.End }
        ensures after_end { IsTrue self.old.is_ended → self.new.source ≡ self.old.source }
        ensures no_take { 0 < length (ended_lines self.old.held)
            → self.new.source ≡ self.old.source }
        ensures answer { IsObservable (R.state self.old.source)
            → NextLine R.state self.old self.new result }
    {
        self.text_start = 0;
        self.text_end = 0;
        if self.is_ended {
            return Ok(Line::End);
        }
        let mut scanned = 0;
        loop {
            if let Some(place) = find_byte(&self.held()[scanned..], b'\n') {
                if scanned + place > 0 {
                    return Ok(self.answer(scanned + place));
                }
                self.pass(1);
                continue;
            }
            scanned = self.held().len();
            if scanned > MAX_LINE {
                return self.pass_long();
            }
            if self.fill()? == 0 {
                return Ok(self.finish());
            }
        }
    }
}

/// How many bytes to ask for: as many as there is room for, at most as many as are allowed, and one where
/// none are, to see whether the script goes on.
fn wanted_count(allowed: u64, room: usize) -> usize
    requires { 0 < room }
    ensures { result ≡ min room (max 1 allowed) }
{
    match usize::try_from(allowed) {
        Ok(allowed) => room.min(allowed.max(1)),
        Err(_) => room,
    }
}

/// Moves the bytes from `start` to `end` to the front.
fn move_to_front(buffer: &mut Vec<u8>, start: usize, end: usize)
    requires ordered { start ≤ end }
    requires within { end ≤ vec_len buffer.old }
    ensures size { vec_len buffer.new ≡ vec_len buffer.old }
    ensures moved { take (end - start) buffer.new.items
        ≡ take (end - start) (drop start buffer.old.items) }
{
    if start > 0 {
        buffer.copy_within(start..end, 0);
    }
}
