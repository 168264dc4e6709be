//! When a change is carried out: by what stands at its path.

ghost use Rattle.std.specs.Prelude.{◌≡◌, Option};
ghost use Rattle.store_model.specs.Trees.{Node};
ghost use Rattle.script_lines.specs.Parsing.{command_of};
ghost use Rattle.tree_pairs.specs.Kinds.{kind_of_node};
ghost use Rattle.staged_tree.specs.Guards as guards;
ghost use Rattle.staged_tree.specs.Guards.{TellsDue, is_due_at};

use ordered_pairs::OrderedPairs;
use path_keys::Path;
use script_lines::Command;
use store_base::Fault;
use tree_pairs::{Kind, kind_of};

/// When a change is carried out: by what stands at its path when its turn comes. Else it is passed over. The path of a
/// move is the one from which it moves.
#[derive(Clone, Copy, Debug, PartialEq, Eq)]
pub enum When {
    /// Whatever stands there.
    Always,
    /// Where a file stands there.
    IsFile,
    /// Where no directory stands there, so a file or nothing.
    NotDirectory,
    /// Where something stands there.
    Exists,
}

/// The path that a command is on: of a move the one from which it moves, and the root where it names none.
pub fn path_of(command: &Command) -> Path
    ensures { result ≡ guards.path_of (command_of command.now) }
{
    match command {
        Command::Make(path)
        | Command::Write(path, ..)
        | Command::Cut(path, _)
        | Command::Rename(path, _)
        | Command::Remove(path)
        | Command::Prune(path)
        | Command::List(path)
        | Command::Read(path, ..)
        | Command::Set(path, ..)
        | Command::Unset(path, _)
        | Command::Get(path, _)
        | Command::Attrs(path) => *path,
        Command::Space | Command::Digest => Path::root(),
    }
}

/// Whether a change at this path is carried out now. The pairs stay as they were, also after a fault, which is handed
/// on. Nothing is looked up where what stands there does not matter.
pub fn is_due<P: OrderedPairs>(pairs: &mut P, when: When, path: &Path) -> Result<bool, Fault>
    ensures call { TellsDue when path.now (P.state pairs.old) (P.state pairs.new) result }
    ensures follows { P.follows pairs.old pairs.new }
{
    if when == When::Always {
        return Ok(true);
    }
    let found = kind_of(pairs, path)?;
    Ok(is_due_on(when, &found))
}

/// Whether a change is carried out where this was found at its path.
fn is_due_on(when: When, found: &Option<Kind>) -> bool
    ensures { (node : Option Node) → found.now ≡ kind_of_node node → result ≡ is_due_at when node }
{
    match when {
        When::Always => true,
        When::IsFile => matches!(found, Some(Kind::File(_))),
        When::NotDirectory => *found != Some(Kind::Directory),
        When::Exists => found.is_some(),
    }
}
