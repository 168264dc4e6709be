//! The commands that only look at the pairs of a tree, over any list that holds it.

ghost use Rattle.std.specs.Prelude.{◌≡◌, true};
ghost use Rattle.store_model.specs.Commands.Command.{ListChildren, Read, GetAttribute, ListAttributes};
ghost use Rattle.script_lines.specs.InPlace.{in_place};
ghost use Rattle.script_lines.specs.Parsing.{command_of};
ghost use Rattle.tree_commands.specs.Answers.{is_look, AnswersBy};

use dir_tree::{attr, attrs, list};
use file_blocks::read_at;
use ordered_pairs::OrderedPairs;
use path_keys::{AttrName, Path};
use script_lines::{Command, Reply};
use std::alloc::Global;
use store_base::Fault;

/// Answers a command from the pairs, and puts the reply into `reply`. A fault of the pairs is handed on; nothing is
/// promised of the pairs after it.
pub fn answer<P: OrderedPairs>(
    alloc: Global,
    pairs: &mut P,
    command: &Command,
    reply: &mut Reply,
) -> Result<(), Fault>
    requires { is_look (command_of command.now) ≡ true }
    ensures call { AnswersBy (command_of command.now) (P.state pairs.old) (P.state pairs.new)
        (in_place reply.new result) }
    ensures follows { P.follows pairs.old pairs.new }
{
    match command {
        Command::List(path) => answer_list(alloc, pairs, path, reply),
        Command::Read(path, at, len) => answer_read(pairs, path, *at, *len, reply),
        Command::Get(path, name) => answer_get(pairs, path, name, reply),
        Command::Attrs(path) => answer_attrs(alloc, pairs, path, reply),
        _ => unreachable!(),
    }
}

/// Lists the children of a directory.
// Joined to `answer`, its room for a listing would be cleared for each read too.
#[inline(never)]
fn answer_list<P: OrderedPairs>(
    alloc: Global,
    pairs: &mut P,
    path: &Path,
    reply: &mut Reply,
) -> Result<(), Fault>
    ensures call { AnswersBy (ListChildren path.now) (P.state pairs.old) (P.state pairs.new)
        (in_place reply.new result) }
    ensures follows { P.follows pairs.old pairs.new }
{
    *reply = match list(alloc, pairs, path)? {
        Ok(entries) => Reply::Listing(entries),
        Err(refusal) => Reply::No(refusal),
    };
    Ok(())
}

/// Reads bytes of a file.
// Joined to `answer`, its room for bytes would be cleared for each listing too.
#[inline(never)]
fn answer_read<P: OrderedPairs>(
    pairs: &mut P,
    path: &Path,
    at: u32,
    len: u32,
    reply: &mut Reply,
) -> Result<(), Fault>
    ensures call { AnswersBy (Read path.now at len) (P.state pairs.old) (P.state pairs.new)
        (in_place reply.new result) }
    ensures follows { P.follows pairs.old pairs.new }
{
    *reply = match read_at(pairs, path, at, len)? {
        Ok(bytes) => Reply::Bytes(bytes),
        Err(refusal) => Reply::No(refusal),
    };
    Ok(())
}

/// Gives the bytes of an attribute.
// Joined to `answer`, its room for bytes would be cleared for each listing too.
#[inline(never)]
fn answer_get<P: OrderedPairs>(
    pairs: &mut P,
    path: &Path,
    name: &AttrName,
    reply: &mut Reply,
) -> Result<(), Fault>
    ensures call { AnswersBy (GetAttribute path.now name.now)
        (P.state pairs.old) (P.state pairs.new)
        (in_place reply.new result) }
    ensures follows { P.follows pairs.old pairs.new }
{
    *reply = match attr(pairs, path, name)? {
        Ok(bytes) => Reply::Bytes(bytes),
        Err(refusal) => Reply::No(refusal),
    };
    Ok(())
}

/// Lists the attributes of a path.
// Joined to `answer`, its room for a listing would be cleared for each read too.
#[inline(never)]
fn answer_attrs<P: OrderedPairs>(
    alloc: Global,
    pairs: &mut P,
    path: &Path,
    reply: &mut Reply,
) -> Result<(), Fault>
    ensures call { AnswersBy (ListAttributes path.now) (P.state pairs.old) (P.state pairs.new)
        (in_place reply.new result) }
    ensures follows { P.follows pairs.old pairs.new }
{
    *reply = match attrs(alloc, pairs, path)? {
        Ok(attributes) => Reply::Attrs(attributes),
        Err(refusal) => Reply::No(refusal),
    };
    Ok(())
}
