//! What the types of a command's parts keep. The prover takes such a fact from a call that reads the part; here these
//! calls have names. They change nothing, and the compiler leaves nothing of them: none costs anything when it runs.

ghost use Rattle.std.specs.Prelude.{◌<◌, ◌^◌, IsTrue};
ghost use Rattle.store_model.specs.Lists.{IsBytes};
ghost use Rattle.store_model.specs.Paths.{is_path, is_attribute_name};
ghost use Rattle.store_model.specs.Commands.{IsCommand};
ghost use Rattle.script_lines.specs.Parsing.{command_of};

use crate::command::Command;
use path_keys::{AttrName, Path};
use store_base::Bytes;

/// Tells that a path is one.
fn reveal_path(path: &Path)
    ensures { IsTrue (is_path path.now) }
{
    let _ = path.is_root();
}

/// Tells that a number has 32 bits.
fn reveal_number(number: &u32)
    ensures { number.now < 2 ^ 32 }
{
    let _number = *number;
}

/// Tells that the name of an attribute is one.
fn reveal_name(name: &AttrName)
    ensures { IsTrue (is_attribute_name name.now) }
{
    let _ = name.as_bytes();
}

/// Tells that bytes are below 256.
fn reveal_bytes(bytes: &Bytes)
    ensures { IsBytes bytes.now }
{
    let _ = bytes.as_slice();
}

/// Tells the prover that a command is one of the definitions': its paths are paths, its names are names of
/// attributes, its numbers have 32 bits, its bytes are bytes.
/// It is called for this fact alone, and costs nothing.
pub fn reveal(command: &Command)
    ensures { IsCommand (command_of command.now) }
{
    match command {
        Command::Make(path)
        | Command::Remove(path)
        | Command::Prune(path)
        | Command::List(path)
        | Command::Attrs(path) => reveal_path(path),
        Command::Write(path, at, bytes) => {
            reveal_path(path);
            reveal_number(at);
            reveal_bytes(bytes);
        }
        Command::Cut(path, len) => {
            reveal_path(path);
            reveal_number(len);
        }
        Command::Read(path, at, len) => {
            reveal_path(path);
            reveal_number(at);
            reveal_number(len);
        }
        Command::Rename(from, to) => {
            reveal_path(from);
            reveal_path(to);
        }
        Command::Set(path, name, bytes) => {
            reveal_path(path);
            reveal_name(name);
            reveal_bytes(bytes);
        }
        Command::Unset(path, name) | Command::Get(path, name) => {
            reveal_path(path);
            reveal_name(name);
        }
        Command::Space | Command::Digest => {}
    }
}
