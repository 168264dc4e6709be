//! Replies, and the text that they have.

ghost use Rattle.std.specs.Prelude.{◌≡◌, ◌≤◌, ◌+◌, ◌<◌, ◌++◌, length, OnOk, MatchResult, codes};
ghost use Rattle.std.specs.Fmt.{decimal};
ghost use Rattle.store_model.specs.Commands.{reply_text, child_line, attribute_line, refusal_text};
ghost use Rattle.store_model.specs.Commands.Reply.{Content, Listing, AttributeListing, PagesUsed, ImageDigest, Refused};
ghost use Rattle.script_lines.specs.SinkState.{IsPut};
ghost use Rattle.script_lines.specs.Replies.{reply_of, numbers_of, HasEntries, MakesRoom};
ghost use Rattle.script_lines.specs.Sessions.{same_reply, same_refusal};

use crate::copies::{copied, copy_attributes, copy_children, same_attributes, same_children};
use crate::fault::SinkFault;
use crate::sink::Sink;
use crate::text::{MAX_TEXT, Text};
use std::alloc::Global;
use store_base::{AttrEntries, Bytes, Entries, NoMemory};
use store_model::Refusal;

/// The most bytes that the line of a child or an attribute has.
const MAX_CHILD: usize = 134;

/// The most bytes that the words of a refusal have.
const MAX_REFUSAL: usize = 64;

/// What a command answers.
#[derive(Debug, Drop)]
pub enum Reply {
    /// It was carried out.
    Ok,
    /// The bytes that were read.
    Bytes(Bytes),
    /// The children of a directory, in the order of their names.
    Listing(Entries),
    /// The attributes of a path, in the order of their names.
    Attrs(AttrEntries),
    /// How many slots are used, and how many there are.
    Space {
        /// The slots that are used.
        used: u32,
        /// The slots that there are.
        slots: u32,
    },
    /// SHA-256 of the image.
    Digest([u8; 32]),
    /// It was refused, and nothing changed.
    No(Refusal),
}

impl Reply {
    /// Puts `Ok` in its place. A reply is large, so none is made where `Ok` stands there already.
    pub fn put_ok(&mut self)
        ensures { self.new ≡ Reply.Ok }
    {
        if let Reply::Ok = self {
            return;
        }
        self.make_ok();
    }

    /// Makes `Ok` in its place.
    // Joined to `put_ok`, its room for a reply would be cleared also where `Ok` stands there.
    #[inline(never)]
    fn make_ok(&mut self)
        ensures { self.new ≡ Reply.Ok }
    {
        *self = Reply::Ok;
    }

    /// Puts a refusal in its place.
    // Joined to a caller, its room for a reply would be cleared also where the caller refuses nothing.
    #[inline(never)]
    pub fn put_refusal(&mut self, refusal: Refusal)
        ensures { self.new ≡ Reply.No refusal }
    {
        *self = Reply::No(refusal);
    }

    /// Whether it is the same as another reply. It takes no memory.
    #[tactic(auto, unfolding(crate::specs::Sessions::same_reply))]
    pub fn is_same(&self, other: &Reply) -> bool
        ensures { result ≡ same_reply (reply_of self.now) (reply_of other.now) }
    {
        match (self, other) {
            (Reply::Ok, Reply::Ok) => true,
            (Reply::Bytes(one), Reply::Bytes(other)) => one.as_slice() == other.as_slice(),
            (Reply::Listing(one), Reply::Listing(other)) => same_children(one, other),
            (Reply::Attrs(one), Reply::Attrs(other)) => same_attributes(one, other),
            (
                Reply::Space { used, slots },
                Reply::Space {
                    used: other_used,
                    slots: other_slots,
                },
            ) => used == other_used && slots == other_slots,
            (Reply::Digest(one), Reply::Digest(other)) => one == other,
            (Reply::No(one), Reply::No(other)) => is_same_refusal(*one, *other),
            _ => false,
        }
    }

    /// Copies the reply.
    /// `NoMemory`: there was no memory for its listing. It comes only where that has an entry.
    pub fn copy(&self, alloc: Global) -> Result<Reply, NoMemory>
        ensures { MatchResult result (λ copy. copy ≡ self.now)
            (λ _. HasEntries (reply_of self.now)) }
    {
        Ok(match self {
            Reply::Ok => Reply::Ok,
            Reply::Bytes(bytes) => Reply::Bytes(copied(bytes)),
            Reply::Listing(children) => Reply::Listing(copy_children(children, alloc)?),
            Reply::Attrs(attributes) => Reply::Attrs(copy_attributes(attributes, alloc)?),
            Reply::Space { used, slots } => Reply::Space {
                used: *used,
                slots: *slots,
            },
            Reply::Digest(digest) => Reply::Digest(*digest),
            Reply::No(refusal) => Reply::No(*refusal),
        })
    }
}

/// Whether two refusals are the same.
fn is_same_refusal(one: Refusal, other: Refusal) -> bool
    ensures { result ≡ same_refusal one other }
{
    one == other
}

/// Writes the text of a reply, each line of it ended by LF, in one put; a listing of more than 8,448 bytes
/// takes several.
/// `SinkFault`: a put failed, and no other was made after it. A prefix of the text may have been written,
/// and nothing else.
// Each function that writes a line clears the room of its text where it begins. They are not joined to this one, which
// would then clear the room of each for every reply.
#[tactic(auto, unfolding(store_model::specs::Commands::reply_text))]
pub fn write_reply<W: Sink>(sink: &mut W, reply: &Reply) -> Result<(), SinkFault>
    ensures { IsPut (W.state sink.old) (W.state sink.new) (reply_text (reply_of reply.now)) result }
{
    match reply {
        Reply::Ok => sink.put(b"ok\n"),
        Reply::Bytes(bytes) => write_content(sink, bytes),
        Reply::Listing(entries) => write_listing(sink, entries),
        Reply::Attrs(attributes) => write_attributes(sink, attributes),
        Reply::Space { used, slots } => write_usage(sink, *used, *slots),
        Reply::Digest(digest) => write_digest(sink, digest),
        Reply::No(refusal) => write_refusal(sink, *refusal),
    }
}

/// Writes the line of bytes that were read.
#[tactic(auto, unfolding(store_model::specs::Commands::reply_text, store_model::specs::Commands::content_text))]
#[inline(never)]
fn write_content<W: Sink>(sink: &mut W, bytes: &Bytes) -> Result<(), SinkFault>
    ensures { IsPut (W.state sink.old) (W.state sink.new) (reply_text (Content bytes.now)) result }
{
    let bytes = bytes.as_slice();
    if bytes.is_empty() {
        return sink.put(b"ok -\n");
    }
    let mut text = Text::new();
    text.push(b"ok ");
    text.push_hex(bytes);
    text.push(b"\n");
    sink.put(text.as_slice())
}

/// Writes the line of the slots that are used and that there are.
#[tactic(auto, unfolding(store_model::specs::Commands::reply_text))]
#[inline(never)]
fn write_usage<W: Sink>(sink: &mut W, used: u32, slots: u32) -> Result<(), SinkFault>
    ensures { IsPut (W.state sink.old) (W.state sink.new)
        (reply_text (PagesUsed used slots)) result }
{
    let mut text = Text::new();
    text.push(b"space ");
    text.push_number(used);
    text.push(b" ");
    text.push_number(slots);
    text.push(b"\n");
    sink.put(text.as_slice())
}

/// Writes the line of a digest.
#[tactic(auto, unfolding(store_model::specs::Commands::reply_text))]
#[inline(never)]
fn write_digest<W: Sink>(sink: &mut W, digest: &[u8; 32]) -> Result<(), SinkFault>
    ensures { IsPut (W.state sink.old) (W.state sink.new)
        (reply_text (ImageDigest digest.now)) result }
{
    let mut text = Text::new();
    text.push(b"digest ");
    text.push_hex(digest);
    text.push(b"\n");
    sink.put(text.as_slice())
}

/// Writes the line of a refusal.
#[tactic(auto, unfolding(store_model::specs::Commands::reply_text))]
#[inline(never)]
pub(crate) fn write_refusal<W: Sink>(sink: &mut W, refusal: Refusal) -> Result<(), SinkFault>
    ensures { IsPut (W.state sink.old) (W.state sink.new) (reply_text (Refused refusal)) result }
{
    let mut text = Text::new();
    text.push(b"no ");
    push_refusal(&mut text, refusal);
    text.push(b"\n");
    sink.put(text.as_slice())
}

/// Adds the word of a refusal, and the two numbers of `full`.
pub(crate) fn push_refusal(text: &mut Text, refusal: Refusal)
    requires { length text.old + MAX_REFUSAL ≤ MAX_TEXT }
    ensures value { text.new ≡ text.old ++ refusal_text refusal }
    ensures fits { length text.new ≤ length text.old + MAX_REFUSAL }
{
    text.push(word_of(refusal));
    if let Refusal::Full { need, slots } = refusal {
        push_numbers(text, need, slots);
    }
}

/// The word of a refusal.
#[tactic(auto, unfolding(store_model::specs::Commands::refusal_text))]
fn word_of(refusal: Refusal) -> &'static [u8]
    ensures value { refusal_text refusal ≡ result.now ++ numbers_of refusal }
    ensures few { length result.now ≤ 8 }
{
    match refusal {
        Refusal::Long => b"long",
        Refusal::Syntax => b"syntax",
        Refusal::Path => b"path",
        Refusal::Root => b"root",
        Refusal::Parent => b"parent",
        Refusal::Exists => b"exists",
        Refusal::Missing => b"missing",
        Refusal::Inside => b"inside",
        Refusal::Kind => b"kind",
        Refusal::Gap => b"gap",
        Refusal::Big => b"big",
        Refusal::NotEmpty => b"notempty",
        Refusal::Version => b"version",
        Refusal::NoAttr => b"none",
        Refusal::Full { .. } => b"full",
    }
}

/// Adds the two numbers of `full`, each behind a space.
fn push_numbers(text: &mut Text, need: u32, slots: u32)
    requires { length text.old + 22 ≤ MAX_TEXT }
    ensures value { text.new ≡ text.old
        ++ (codes " " ++ decimal need ++ codes " " ++ decimal slots) }
    ensures fits { length text.new ≤ length text.old + 22 }
{
    text.push(b" ");
    text.push_number(need);
    text.push(b" ");
    text.push_number(slots);
}

/// Writes a listing: the line of each child, and `end`.
#[inline(never)]
fn write_listing<W: Sink>(sink: &mut W, entries: &Entries) -> Result<(), SinkFault>
    ensures { IsPut (W.state sink.old) (W.state sink.new)
        (reply_text (Listing entries.now)) result }
{
    let mut text = Text::new();
    for index in 0..entries.len() {
        let (name, size) = entries.get(index);
        make_room(sink, &mut text)?;
        push_child(&mut text, name, size);
    }
    make_room(sink, &mut text)?;
    text.push(b"end\n");
    sink.put(text.as_slice())
}

/// Writes a listing of attributes: the line of each, and `end`.
#[inline(never)]
fn write_attributes<W: Sink>(sink: &mut W, attributes: &AttrEntries) -> Result<(), SinkFault>
    ensures { IsPut (W.state sink.old) (W.state sink.new)
        (reply_text (AttributeListing attributes.now)) result }
{
    let mut text = Text::new();
    for index in 0..attributes.len() {
        let (name, size) = attributes.get(index);
        make_room(sink, &mut text)?;
        push_attribute(&mut text, name, size);
    }
    make_room(sink, &mut text)?;
    text.push(b"end\n");
    sink.put(text.as_slice())
}

/// Adds the line of an attribute.
#[tactic(auto, unfolding(store_model::specs::Commands::attribute_line))]
fn push_attribute(text: &mut Text, name: &[u8], size: u32)
    requires room { length text.old + MAX_CHILD ≤ MAX_TEXT }
    requires name { length name.now ≤ AttrEntries.MAX_NAME }
    ensures { text.new ≡ text.old ++ attribute_line (name.now, size) }
{
    text.push(b"a ");
    text.push(name);
    text.push(b" ");
    text.push_number(size);
    text.push(b"\n");
}

/// Writes the text out and empties it, where a child's line might not fit behind it.
fn make_room<W: Sink>(sink: &mut W, text: &mut Text) -> Result<(), SinkFault>
    ensures puts { MakesRoom (W.state sink.old) (W.state sink.new) text.old text.new result }
    ensures room { OnOk result (length text.new + MAX_CHILD ≤ MAX_TEXT) }
{
    if text.len() > MAX_TEXT - MAX_CHILD {
        sink.put(text.as_slice())?;
        text.clear();
    }
    Ok(())
}

/// Adds the line of a child.
#[tactic(auto, unfolding(store_model::specs::Commands::child_line))]
fn push_child(text: &mut Text, name: &[u8], size: Option<u32>)
    requires room { length text.old + MAX_CHILD ≤ MAX_TEXT }
    requires name { length name.now ≤ Entries.MAX_NAME }
    ensures { text.new ≡ text.old ++ child_line (name.now, size) }
{
    match size {
        None => {
            text.push(b"d ");
            text.push(name);
            text.push(b"\n");
        }
        Some(size) => {
            text.push(b"f ");
            text.push(name);
            text.push(b" ");
            text.push_number(size);
            text.push(b"\n");
        }
    }
}
