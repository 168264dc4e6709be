//! `attr`: lists the attributes of a path, and prints one.

ghost use Rattle.std.specs.Prelude.{◌≡◌, false, IfOk, IfErr, Ok};
ghost use Rattle.script_lines.specs.declared.session.Question.TheVariants as questions;
ghost use Rattle.dump_streams.specs.Gathered.{gathered_state, IsFlushed};
ghost use Rattle.box_words.specs.declared.status.Status.TheVariants as statuses;
ghost use Rattle.box_changes.specs.Telling.{name_lines, value_text, text_in, told_of, IsTroubleOf};
ghost use Rattle.box_changes.specs.Telling.{PutsText, PutsFound, TellsImage};

use crate::asking::ask;
use crate::ending::refusal_trouble;
use box_calls::{About, Ended, Place, Reason, Trouble, ended, printed, unread};
use box_words::Status;
use disk_model::Disk;
use dump_streams::GatheredSink;
use image_reads::ReadFault;
use path_keys::{AttrName, Path};
use script_lines::{Question, Reply, Sink};
use std::alloc::Global;
use store_base::{AttrEntries, NoMemory};

/// Which attribute is printed, and how.
#[derive(Clone, Copy)]
pub struct Value {
    /// Its name.
    pub name: AttrName,
    /// Its bytes are printed as hexadecimal digits; else as they are.
    pub is_hex: bool,
}

/// What an image is asked.
#[derive(Drop)]
struct Asked {
    /// The path that the question is about.
    path: Path,
    question: Question,
    /// Bytes are told as digits.
    is_hex: bool,
}

/// The names of attributes, each in a line.
fn name_lines(alloc: Global, attributes: &AttrEntries) -> Result<Vec<u8>, NoMemory>
    ensures { IfOk result (λ text. text.items ≡ name_lines attributes.now) }
{
    let mut text = Vec::new(alloc);
    for index in 0..attributes.len() {
        let (name, _) = attributes.get(index);
        text.extend_from_slice(name)?;
        text.push(b'\n')?;
    }
    Ok(text)
}

/// The bytes of an attribute, as they are printed.
fn value_text(alloc: Global, is_hex: bool, bytes: &[u8]) -> Result<Vec<u8>, NoMemory>
    ensures { IfOk result (λ text. text.items ≡ value_text is_hex bytes.now) }
{
    let mut text = Vec::new(alloc);
    if is_hex {
        let digits = hex::encode(alloc, bytes)?;
        text.extend_from_slice(digits.as_bytes())?;
    } else {
        text.extend_from_slice(bytes)?;
    }
    Ok(text)
}

/// What is printed of an answer, or the trouble.
fn text_found(
    alloc: Global,
    is_hex: bool,
    found: &Result<Reply, ReadFault>,
) -> Result<Vec<u8>, Trouble>
    ensures ok { IfOk result (λ text. text_in is_hex found.now ≡ Ok text.items) }
    ensures err { IfErr result (IsTroubleOf (text_in is_hex found.now)) }
{
    let text = match found {
        Ok(Reply::Attrs(attributes)) => name_lines(alloc, attributes),
        Ok(Reply::Bytes(bytes)) => value_text(alloc, is_hex, bytes.as_slice()),
        Ok(Reply::No(refusal)) => return Err(refusal_trouble(Reason::Made, *refusal)),
        Ok(_) => Ok(Vec::new(alloc)),
        Err(fault) => return Err(unread(*fault)),
    };
    match text {
        Ok(text) => Ok(text),
        Err(NoMemory) => Err(Trouble::NoMemory),
    }
}

/// Puts a text to its last byte, and answers how the call ends.
fn put_text<W: Sink, E: Sink>(
    place: &Place<'_>,
    text: &[u8],
    out: &mut GatheredSink<W>,
    say: &mut E,
) -> Status
    ensures puts { PutsText text.now (gathered_state W.state out.old) (gathered_state W.state out.new)
        (E.state say.old) (E.state say.new) result }
    ensures flushed { result ≡ statuses.Done → IsFlushed W.state out.new }
{
    let put = out.put(text);
    let flushed = out.flush();
    ended(place, printed(Ok(()), put, flushed), About::Image, say)
}

/// Puts what was found to be printed, and answers how the call ends.
fn put_found<W: Sink, E: Sink>(
    place: &Place<'_>,
    text: &Result<Vec<u8>, Trouble>,
    path: &Path,
    out: &mut GatheredSink<W>,
    say: &mut E,
) -> Status
    ensures puts { PutsFound (told_of text.now) (gathered_state W.state out.old)
        (gathered_state W.state out.new) (E.state say.old) (E.state say.new) result }
    ensures flushed { result ≡ statuses.Done → IsFlushed W.state out.new }
{
    match text {
        Ok(text) => put_text(place, text, out, say),
        Err(trouble) => ended(place, Err(*trouble), About::Path(path), say),
    }
}

/// Puts what an image answers to a question at a path, and answers how the call ends.
fn tell<D: Disk, W: Sink, E: Sink>(
    place: &Place<'_>,
    disk: D,
    asked: &Asked,
    out: GatheredSink<W>,
    say: E,
) -> Ended<D, GatheredSink<W>, E>
    ensures tells { TellsImage asked.now.is_hex asked.now.question (D.state disk) (D.state result.disk)
        (gathered_state W.state out) (gathered_state W.state result.out) (E.state say) (E.state result.say)
        result.status }
    ensures flushed { result.status ≡ statuses.Done → IsFlushed W.state result.out }
{
    let (mut out, mut say) = (out, say);
    let (disk, found) = ask(place.alloc, disk, &asked.question);
    let text = text_found(place.alloc, asked.is_hex, &found);
    let status = put_found(place, &text, &asked.path, &mut out, &mut say);
    Ended {
        status,
        disk,
        out,
        say,
    }
}

/// Puts the names of the attributes of a path of an image into the first sink, each in a line, in their order.
pub fn list_attributes<D: Disk, W: Sink, E: Sink>(
    place: &Place<'_>,
    disk: D,
    path: &Path,
    out: GatheredSink<W>,
    say: E,
) -> Ended<D, GatheredSink<W>, E>
    ensures tells { TellsImage false (questions.Attrs path.now) (D.state disk) (D.state result.disk)
        (gathered_state W.state out) (gathered_state W.state result.out) (E.state say) (E.state result.say)
        result.status }
    ensures flushed { result.status ≡ statuses.Done → IsFlushed W.state result.out }
{
    let asked = Asked {
        path: *path,
        question: Question::Attrs(*path),
        is_hex: false,
    };
    tell(place, disk, &asked, out, say)
}

/// Puts the bytes of an attribute of a path of an image into the first sink, or their digits.
pub fn print_attribute<D: Disk, W: Sink, E: Sink>(
    place: &Place<'_>,
    disk: D,
    path: &Path,
    value: &Value,
    out: GatheredSink<W>,
    say: E,
) -> Ended<D, GatheredSink<W>, E>
    ensures tells { TellsImage value.now.is_hex (questions.Get path.now value.now.name) (D.state disk)
        (D.state result.disk) (gathered_state W.state out) (gathered_state W.state result.out) (E.state say)
        (E.state result.say) result.status }
    ensures flushed { result.status ≡ statuses.Done → IsFlushed W.state result.out }
{
    let asked = Asked {
        path: *path,
        question: Question::Get(*path, value.name),
        is_hex: value.is_hex,
    };
    tell(place, disk, &asked, out, say)
}
