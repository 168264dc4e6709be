//! The commands on attributes that a script's lines spell.

ghost use Rattle.std.specs.Prelude.{◌≡◌, ◌≤◌, ◌*◌, ◌∷◌, [], length};
ghost use Rattle.store_model.specs.Grammar.{checked_command};
ghost use Rattle.store_model.specs.Commands.Command.{SetAttribute};
ghost use Rattle.script_lines.specs.InPlace.{in_place};
ghost use Rattle.script_lines.specs.Parsing.{command_of, reading_of, on_attribute_of, set_of};

use crate::command::Command;
use crate::fields::{read_bytes, read_path};
use crate::lines::MAX_LINE;
use path_keys::{AttrName, Path};
use store_base::Bytes;
use store_model::Refusal;

/// Reads the command of a word, a path and the name of an attribute.
#[tactic(auto, unfolding(store_model::specs::Grammar::has_short_paths))]
pub fn read_on_attribute(
    word: &[u8],
    path: &[u8],
    name: &[u8],
    command: &mut Command,
) -> Result<(), Refusal>
    ensures { reading_of (in_place command.new result)
        ≡ checked_command (on_attribute_of word.now path.now name.now) }
{
    let Some(name) = AttrName::parse(name) else {
        return Err(Refusal::Syntax);
    };
    if word == b"unset".as_slice() {
        *command = Command::Unset(read_path(path)?, name);
    } else if word == b"get".as_slice() {
        *command = Command::Get(read_path(path)?, name);
    } else {
        return Err(Refusal::Syntax);
    }
    Ok(())
}

/// Reads the command of a word, a path, the name of an attribute, and bytes: `set`, which gives the path the
/// attribute.
#[tactic(auto, unfolding(store_model::specs::Grammar::has_short_paths))]
// Joined to its caller, its room would be cleared for other commands too.
#[inline(never)]
pub fn read_set(
    word: &[u8],
    path: &[u8],
    name: &[u8],
    content: &[u8],
    command: &mut Command,
) -> Result<(), Refusal>
    requires { length content.now ≤ MAX_LINE }
    ensures { reading_of (in_place command.new result)
        ≡ checked_command (set_of word.now path.now name.now content.now) }
{
    if word != b"set".as_slice() {
        return Err(Refusal::Syntax);
    }
    let mut room = [0; Bytes::MAX_LEN];
    let (Some(name), Some(bytes)) = (AttrName::parse(name), read_bytes(content, &mut room)) else {
        return Err(Refusal::Syntax);
    };
    *command = Command::Set(read_path(path)?, name, Bytes::new(bytes));
    Ok(())
}
