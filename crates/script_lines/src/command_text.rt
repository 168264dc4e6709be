//! The lines of commands.

ghost use Rattle.std.specs.Prelude.{◌≡◌, ◌≤◌, ◌+◌, ◌*◌, ◌++◌, length, codes};
ghost use Rattle.std.specs.Fmt.{decimal};
ghost use Rattle.store_model.specs.Paths.{path_text};
ghost use Rattle.store_model.specs.Commands.{command_text, content_text, line};
ghost use Rattle.store_model.specs.Commands.Command.{Write, Rename, Read, SetAttribute};
ghost use Rattle.script_lines.specs.Parsing.{command_of};
ghost use Rattle.script_lines.specs.SinkState.{IsPut};

use crate::command::Command;
use crate::fault::SinkFault;
use crate::sink::Sink;
use crate::text::{MAX_TEXT, Text};
use path_keys::{AttrName, Path};
use store_base::Bytes;

/// The most bytes of a command's word and the space behind it.
const MAX_WORD: usize = 8;

/// Writes the line of a command, by the grammar of scripts, in one put: its digits are lower case, and LF ends it. It
/// takes no memory.
///
/// A `write` or a `set` of more bytes than a line has room for gives a line that is too long to be read.
/// `SinkFault`: a put failed, and no other was made after it. A prefix of the line may have been written, and nothing
/// else.
// Each function that writes a line clears the room of its text where it begins. They are not joined to this one, which
// would then clear the room of each for every command.
#[tactic(auto, unfolding(store_model::specs::Commands::command_text))]
pub fn write_command<W: Sink>(sink: &mut W, command: &Command) -> Result<(), SinkFault>
    ensures { IsPut (W.state sink.old) (W.state sink.new)
        (line (command_text (command_of command.now))) result }
{
    match command {
        Command::Make(path) => write_on_path(sink, b"make ", path),
        Command::Write(path, at, bytes) => write_piece(sink, path, *at, bytes.as_slice()),
        Command::Cut(path, len) => write_cut(sink, path, *len),
        Command::Rename(from, to) => write_rename(sink, from, to),
        Command::Remove(path) => write_on_path(sink, b"remove ", path),
        Command::Prune(path) => write_on_path(sink, b"prune ", path),
        Command::List(path) => write_on_path(sink, b"list ", path),
        Command::Read(path, at, len) => write_read(sink, path, *at, *len),
        Command::Space => sink.put(b"space\n"),
        Command::Digest => sink.put(b"digest\n"),
        Command::Set(path, name, bytes) => write_set(sink, path, name, bytes.as_slice()),
        Command::Unset(path, name) => write_on_attribute(sink, b"unset ", path, name),
        Command::Get(path, name) => write_on_attribute(sink, b"get ", path, name),
        Command::Attrs(path) => write_on_path(sink, b"attrs ", path),
    }
}

/// Writes the line of the `write` that puts these bytes into a file from an offset on, as `write_command`.
#[tactic(auto, unfolding(store_model::specs::Commands::command_text))]
#[inline(never)]
pub fn write_piece<W: Sink>(
    sink: &mut W,
    path: &Path,
    at: u32,
    bytes: &[u8],
) -> Result<(), SinkFault>
    requires { length bytes.now ≤ Bytes.MAX_LEN }
    ensures { IsPut (W.state sink.old) (W.state sink.new)
        (line (command_text (Write path.now at bytes.now))) result }
{
    let mut text = Text::new();
    begin_on_path(&mut text, b"write ", path);
    push_number_field(&mut text, at);
    end_with_content(&mut text, bytes);
    sink.put(text.as_slice())
}

/// Writes the line of the `set` that gives a path an attribute with these bytes, as `write_command`.
#[tactic(auto, unfolding(store_model::specs::Commands::command_text))]
#[inline(never)]
fn write_set<W: Sink>(
    sink: &mut W,
    path: &Path,
    name: &AttrName,
    bytes: &[u8],
) -> Result<(), SinkFault>
    requires { length bytes.now ≤ Bytes.MAX_LEN }
    ensures { IsPut (W.state sink.old) (W.state sink.new)
        (line (command_text (SetAttribute path.now name.now bytes.now))) result }
{
    let mut text = Text::new();
    begin_on_path(&mut text, b"set ", path);
    push_name_field(&mut text, name);
    end_with_content(&mut text, bytes);
    sink.put(text.as_slice())
}

/// Writes the line of a word and a path.
#[inline(never)]
fn write_on_path<W: Sink>(sink: &mut W, word: &[u8], path: &Path) -> Result<(), SinkFault>
    requires { length word.now ≤ MAX_WORD }
    ensures { IsPut (W.state sink.old) (W.state sink.new)
        (line (word.now ++ path_text path.now)) result }
{
    let mut text = Text::new();
    begin_on_path(&mut text, word, path);
    text.push(b"\n");
    sink.put(text.as_slice())
}

/// Writes the line of a word, a path and the name of an attribute.
#[inline(never)]
fn write_on_attribute<W: Sink>(
    sink: &mut W,
    word: &[u8],
    path: &Path,
    name: &AttrName,
) -> Result<(), SinkFault>
    requires { length word.now ≤ MAX_WORD }
    ensures { IsPut (W.state sink.old) (W.state sink.new)
        (line (word.now ++ path_text path.now ++ codes " " ++ name.now)) result }
{
    let mut text = Text::new();
    begin_on_path(&mut text, word, path);
    push_name_field(&mut text, name);
    text.push(b"\n");
    sink.put(text.as_slice())
}

/// Writes the line of a `cut`.
#[inline(never)]
fn write_cut<W: Sink>(sink: &mut W, path: &Path, len: u32) -> Result<(), SinkFault>
    ensures { IsPut (W.state sink.old) (W.state sink.new)
        (line (codes "cut " ++ path_text path.now ++ codes " " ++ decimal len)) result }
{
    let mut text = Text::new();
    begin_on_path(&mut text, b"cut ", path);
    push_number_field(&mut text, len);
    text.push(b"\n");
    sink.put(text.as_slice())
}

/// Writes the line of a `rename`.
#[tactic(auto, unfolding(store_model::specs::Commands::command_text))]
#[inline(never)]
fn write_rename<W: Sink>(sink: &mut W, from: &Path, to: &Path) -> Result<(), SinkFault>
    ensures { IsPut (W.state sink.old) (W.state sink.new)
        (line (command_text (Rename from.now to.now))) result }
{
    let mut text = Text::new();
    begin_on_path(&mut text, b"rename ", from);
    begin_on_path(&mut text, b" ", to);
    text.push(b"\n");
    sink.put(text.as_slice())
}

/// Writes the line of a `read`.
#[tactic(auto, unfolding(store_model::specs::Commands::command_text))]
#[inline(never)]
fn write_read<W: Sink>(sink: &mut W, path: &Path, at: u32, len: u32) -> Result<(), SinkFault>
    ensures { IsPut (W.state sink.old) (W.state sink.new)
        (line (command_text (Read path.now at len))) result }
{
    let mut text = Text::new();
    begin_on_path(&mut text, b"read ", path);
    push_number_field(&mut text, at);
    push_number_field(&mut text, len);
    text.push(b"\n");
    sink.put(text.as_slice())
}

/// Adds a word, with the space behind it, and a path.
fn begin_on_path(text: &mut Text, word: &[u8], path: &Path)
    requires word { length word.now ≤ MAX_WORD }
    requires room { length text.old + MAX_WORD + Path.MAX_LEN ≤ MAX_TEXT }
    ensures value { text.new ≡ text.old ++ (word.now ++ path_text path.now) }
    ensures fits { length text.new ≤ length text.old + MAX_WORD + Path.MAX_LEN }
{
    text.push(word);
    text.push_path(path);
}

/// Adds a space and a number, 11 bytes at most.
fn push_number_field(text: &mut Text, number: u32)
    requires { length text.old + 11 ≤ MAX_TEXT }
    ensures value { text.new ≡ text.old ++ (codes " " ++ decimal number) }
    ensures fits { length text.new ≤ length text.old + 11 }
{
    text.push(b" ");
    text.push_number(number);
}

/// Adds a space and the name of an attribute, 33 bytes at most.
fn push_name_field(text: &mut Text, name: &AttrName)
    requires { length text.old + 33 ≤ MAX_TEXT }
    ensures value { text.new ≡ text.old ++ (codes " " ++ name.now) }
    ensures fits { length text.new ≤ length text.old + 33 }
{
    text.push(b" ");
    text.push(name.as_bytes());
}

/// Adds a space and bytes, and ends the line.
#[tactic(auto, unfolding(store_model::specs::Commands::content_text))]
fn end_with_content(text: &mut Text, bytes: &[u8])
    requires few { length bytes.now ≤ Bytes.MAX_LEN }
    requires room { length text.old + 3 + 2 * length bytes.now ≤ MAX_TEXT }
    ensures { text.new ≡ text.old ++ line (codes " " ++ content_text bytes.now) }
{
    text.push(b" ");
    if bytes.is_empty() {
        text.push(b"-");
    } else {
        text.push_hex(bytes);
    }
    text.push(b"\n");
}
