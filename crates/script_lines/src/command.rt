//! The commands that a script's lines spell.

ghost use Rattle.std.specs.Prelude.{◌≡◌, ◌≤◌, ◌*◌, ◌∷◌, [], length};
ghost use Rattle.store_model.specs.Grammar.{parse, command_of_fields, checked_command};
ghost use Rattle.store_model.specs.Commands.Command.{Write};
ghost use Rattle.script_lines.specs.InPlace.{in_place};
ghost use Rattle.script_lines.specs.Parsing.{command_of, reading_of, rename_of, read_of, write_of};

use crate::attributes::{read_on_attribute, read_set};
use crate::fields::{Fields, parse_number, read_bytes, read_path, split_fields};
use crate::lines::MAX_LINE;
use path_keys::{AttrName, Path};
use store_base::Bytes;
use store_model::Refusal;

/// Up to so many bytes, a `write` is decoded in a small room: to clear the large one would take longer than to
/// decode.
const FEW_BYTES: usize = 256;

/// What a line of a script asks for.
#[derive(Debug, Drop)]
pub enum Command {
    /// Makes a directory.
    Make(Path),
    /// Puts bytes into a file from an offset on, over what is there and past its end.
    Write(Path, u32, Bytes),
    /// Cuts a file to its first bytes, so many.
    Cut(Path, u32),
    /// Moves a file or a subtree.
    Rename(Path, Path),
    /// Takes away a file or an empty directory.
    Remove(Path),
    /// Takes away a path and all below it.
    Prune(Path),
    /// Lists a directory.
    List(Path),
    /// Reads bytes of a file from an offset on, at most so many.
    Read(Path, u32, u32),
    /// Counts the slots that are used.
    Space,
    /// Asks for the digest of the image.
    Digest,
    /// Sets an attribute of a path to these bytes. It replaces one of this name.
    Set(Path, AttrName, Bytes),
    /// Takes an attribute of a path away.
    Unset(Path, AttrName),
    /// Asks for the bytes of an attribute.
    Get(Path, AttrName),
    /// Lists the attributes of a path.
    Attrs(Path),
}

/// Reads the command that a line spells.
/// `Syntax`: the line spells none, however long paths may be. `Path`: it spells one, and a path in it has more than
/// 120 bytes.
pub fn parse_command(text: &[u8]) -> Result<Command, Refusal>
    requires { length text.now ≤ MAX_LINE }
    ensures { reading_of result ≡ parse text.now }
{
    let mut command = Command::Space;
    read_command(text, &mut command)?;
    Ok(command)
}

/// Reads the command that a line spells, as `parse_command` does, into `command`. A command is large, so a reader of
/// many keeps one place for them all. After a refusal any command may stand there.
#[tactic(auto, unfolding(store_model::specs::Grammar::parse, store_model::specs::Grammar::command_of, store_model::specs::Grammar::command_of_fields))]
pub fn read_command(text: &[u8], command: &mut Command) -> Result<(), Refusal>
    requires { length text.now ≤ MAX_LINE }
    ensures { reading_of (in_place command.new result) ≡ parse text.now }
{
    match split_fields(text) {
        Fields::One(word) => read_word(word, command),
        Fields::Two(word, path) => read_on_path(word, path, command),
        Fields::Three(word, path, argument) => read_three(word, path, argument, command),
        Fields::Four(word, path, at, argument) => read_four(word, path, at, argument, command),
        Fields::More => Err(Refusal::Syntax),
    }
}

/// Reads the command of a word alone.
#[tactic(auto, unfolding(store_model::specs::Grammar::command_of_fields, store_model::specs::Grammar::has_short_paths))]
fn read_word(word: &[u8], command: &mut Command) -> Result<(), Refusal>
    ensures { reading_of (in_place command.new result)
        ≡ checked_command (command_of_fields (word.now ∷ [])) }
{
    if word == b"space".as_slice() {
        *command = Command::Space;
    } else if word == b"digest".as_slice() {
        *command = Command::Digest;
    } else {
        return Err(Refusal::Syntax);
    }
    Ok(())
}

/// Reads the command of a word and a path.
#[tactic(auto, unfolding(store_model::specs::Grammar::command_of_fields, store_model::specs::Grammar::has_short_paths))]
fn read_on_path(word: &[u8], path: &[u8], command: &mut Command) -> Result<(), Refusal>
    ensures { reading_of (in_place command.new result)
        ≡ checked_command (command_of_fields (word.now ∷ path.now ∷ [])) }
{
    if word == b"make".as_slice() {
        *command = Command::Make(read_path(path)?);
    } else if word == b"remove".as_slice() {
        *command = Command::Remove(read_path(path)?);
    } else if word == b"prune".as_slice() {
        *command = Command::Prune(read_path(path)?);
    } else if word == b"list".as_slice() {
        *command = Command::List(read_path(path)?);
    } else if word == b"attrs".as_slice() {
        *command = Command::Attrs(read_path(path)?);
    } else {
        return Err(Refusal::Syntax);
    }
    Ok(())
}

/// Reads the command of a word, a path and a number, a second path or the name of an attribute.
#[tactic(auto, unfolding(store_model::specs::Grammar::command_of_fields, store_model::specs::Grammar::has_short_paths))]
fn read_three(
    word: &[u8],
    path: &[u8],
    argument: &[u8],
    command: &mut Command,
) -> Result<(), Refusal>
    ensures { reading_of (in_place command.new result)
        ≡ checked_command (command_of_fields (word.now ∷ path.now ∷ argument.now ∷ [])) }
{
    if word == b"cut".as_slice() {
        let Some(len) = parse_number(argument) else {
            return Err(Refusal::Syntax);
        };
        *command = Command::Cut(read_path(path)?, len);
        Ok(())
    } else if word == b"rename".as_slice() {
        read_rename(path, argument, command)
    } else {
        read_on_attribute(word, path, argument, command)
    }
}

/// Reads the command that renames one path to another.
#[tactic(auto, unfolding(store_model::specs::Grammar::has_short_paths))]
fn read_rename(from: &[u8], to: &[u8], command: &mut Command) -> Result<(), Refusal>
    ensures { reading_of (in_place command.new result)
        ≡ checked_command (rename_of from.now to.now) }
{
    match read_path(from) {
        Ok(from) => {
            *command = Command::Rename(from, read_path(to)?);
            Ok(())
        }
        Err(Refusal::Path) => {
            read_path(to)?;
            Err(Refusal::Path)
        }
        Err(refusal) => Err(refusal),
    }
}

/// Reads the command of a word, a path, and a number and bytes, two numbers, or the name of an attribute and bytes.
#[tactic(auto, unfolding(store_model::specs::Grammar::command_of_fields, store_model::specs::Grammar::has_short_paths))]
fn read_four(
    word: &[u8],
    path: &[u8],
    at: &[u8],
    argument: &[u8],
    command: &mut Command,
) -> Result<(), Refusal>
    requires { length argument.now ≤ MAX_LINE }
    ensures { reading_of (in_place command.new result)
        ≡ checked_command (command_of_fields (word.now ∷ path.now ∷ at.now ∷ argument.now ∷ [])) }
{
    let number = parse_number(at);
    if word == b"write".as_slice() {
        read_write(path, number, argument, command)
    } else if word == b"read".as_slice() {
        read_read(path, number, argument, command)
    } else {
        read_set(word, path, at, argument, command)
    }
}

/// Reads the command that reads bytes from an offset on.
#[tactic(auto, unfolding(store_model::specs::Grammar::has_short_paths))]
// Joined to `read_four`, its room for a command would be cleared at each `write` too.
#[inline(never)]
fn read_read(path: &[u8], at: Option<u32>, len: &[u8], command: &mut Command) -> Result<(), Refusal>
    ensures { reading_of (in_place command.new result)
        ≡ checked_command (read_of path.now at len.now) }
{
    let (Some(at), Some(len)) = (at, parse_number(len)) else {
        return Err(Refusal::Syntax);
    };
    *command = Command::Read(read_path(path)?, at, len);
    Ok(())
}

/// Reads the command that writes bytes from an offset on.
fn read_write(
    path: &[u8],
    at: Option<u32>,
    content: &[u8],
    command: &mut Command,
) -> Result<(), Refusal>
    requires { length content.now ≤ MAX_LINE }
    ensures { reading_of (in_place command.new result)
        ≡ checked_command (write_of path.now at content.now) }
{
    if content.len() > 2 * FEW_BYTES {
        return read_write_in::<{ Bytes::MAX_LEN }>(path, at, content, command);
    }
    read_write_in::<FEW_BYTES>(path, at, content, command)
}

/// Reads the command that writes bytes from an offset on, which are decoded in a room for so many.
#[tactic(auto, unfolding(store_model::specs::Grammar::has_short_paths))]
// Joined to `read_write`, the larger room would be cleared where few bytes are written too.
#[inline(never)]
fn read_write_in<const ROOM: usize>(
    path: &[u8],
    at: Option<u32>,
    content: &[u8],
    command: &mut Command,
) -> Result<(), Refusal>
    requires fits { length content.now ≤ 2 * ROOM }
    requires room { ROOM ≤ Bytes.MAX_LEN }
    ensures { reading_of (in_place command.new result)
        ≡ checked_command (write_of path.now at content.now) }
{
    let mut room = [0; ROOM];
    let (Some(at), Some(bytes)) = (at, read_bytes(content, &mut room)) else {
        return Err(Refusal::Syntax);
    };
    put_write(read_path(path)?, at, bytes, command);
    Ok(())
}

/// Puts a `write` into `command`; where a `write` stands there, its bytes take the place of the other's.
fn put_write(path: Path, at: u32, bytes: &[u8], command: &mut Command)
    requires { length bytes.now ≤ Bytes.MAX_LEN }
    ensures { command_of command.new ≡ Write path at bytes.now }
{
    if let Command::Write(old_path, old_at, old_bytes) = command {
        *old_path = path;
        *old_at = at;
        old_bytes.set(bytes);
    } else {
        make_write(path, at, bytes, command);
    }
}

/// Makes a `write` in `command`.
// Joined to `put_write`, its room for a command would be cleared also where a `write` stands there.
#[inline(never)]
fn make_write(path: Path, at: u32, bytes: &[u8], command: &mut Command)
    requires { length bytes.now ≤ Bytes.MAX_LEN }
    ensures { command_of command.new ≡ Write path at bytes.now }
{
    *command = Command::Write(path, at, Bytes::new(bytes));
}
