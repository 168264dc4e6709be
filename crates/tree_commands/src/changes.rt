//! The commands that change a tree, over any list of pairs that holds it.

ghost use Rattle.std.specs.Prelude.{◌≡◌, true};
ghost use Rattle.store_model.specs.Commands.Command.{Write};
ghost use Rattle.store_model.specs.Commands.Reply.{Acknowledged};
ghost use Rattle.script_lines.specs.Parsing.{command_of};
ghost use Rattle.tree_pairs.specs.TreeCalls.{CarriesOutUnder, HasRoom};
ghost use Rattle.script_lines.specs.Sessions.{is_change};

use dir_tree::{make, prune, remove, rename, set_attr, unset_attr};
use file_blocks::{cut, write_at};
use ordered_pairs::OrderedPairs;
use path_keys::Path;
use script_lines::Command;
use store_base::{Answer, Bytes, Fault};
use store_model::{Refusal, Version};
use tree_pairs::{Kind, kind_of};

/// Carries out a command that changes the tree, `version` and `full` apart, on the pairs that the tree has under the
/// version. A refusal changes nothing. A fault of the pairs is handed on; nothing is promised of the pairs after it.
pub fn change<P: OrderedPairs>(
    pairs: &mut P,
    version: Version,
    command: &Command,
) -> Result<Answer<()>, Fault>
    requires change { is_change (command_of command.now) ≡ true }
    requires room { HasRoom (P.state pairs.old) }
    ensures call { CarriesOutUnder version (λ _. Acknowledged)
        (command_of command.now) (P.state pairs.old)
        (P.state pairs.new) result }
    ensures follows { P.follows pairs.old pairs.new }
{
    match command {
        Command::Make(path) => make(pairs, path),
        Command::Write(path, at, bytes) => write(pairs, path, *at, bytes, version),
        Command::Cut(path, len) => cut(pairs, path, *len, version),
        Command::Rename(from, to) => rename(pairs, from, to),
        Command::Remove(path) => remove(pairs, path),
        Command::Prune(path) => prune(pairs, path),
        Command::Set(path, name, bytes) => set_attr(pairs, path, name, bytes),
        Command::Unset(path, name) => unset_attr(pairs, path, name),
        Command::List(_)
        | Command::Read(..)
        | Command::Get(..)
        | Command::Attrs(_)
        | Command::Space
        | Command::Digest => unreachable!(),
    }
}

/// Writes bytes of a file, as `write_at`, but where the parent of its path is neither the root nor a directory: that is
/// refused with `Parent`, before all else. The root is its own parent.
fn write<P: OrderedPairs>(
    pairs: &mut P,
    path: &Path,
    at: u32,
    bytes: &Bytes,
    version: Version,
) -> Result<Answer<()>, Fault>
    requires room { HasRoom (P.state pairs.old) }
    ensures call { CarriesOutUnder version (λ _. Acknowledged)
        (Write path.now at bytes.now) (P.state pairs.old)
        (P.state pairs.new) result }
    ensures follows { P.follows pairs.old pairs.new }
{
    if kind_of(pairs, &path.parent().unwrap_or(*path))? != Some(Kind::Directory) {
        return Ok(Err(Refusal::Parent));
    }
    write_at(pairs, path, at, bytes, version)
}
