//! How a store carries out a command.

ghost use Rattle.std.specs.Prelude.{◌≡◌, false};
ghost use Rattle.store_model.specs.Parameters.{Parameters};
ghost use Rattle.store_model.specs.Trees.{Tree};
ghost use Rattle.store_model.specs.Commands.{IsCommand};
ghost use Rattle.store_model.specs.Commands.Command.{Space, Digest};
ghost use Rattle.store_model.specs.Steps.{step};
ghost use Rattle.disk_model.specs.DiskState.{IsObservable};
ghost use Rattle.script_lines.specs.InPlace.{in_place};
ghost use Rattle.script_lines.specs.Parsing.{command_of};
ghost use Rattle.script_lines.specs.Replies.{reply_of};
ghost use Rattle.page_store.specs.StagedState.{Follows};
ghost use Rattle.tree_commands.specs.Answers.{change_reply};
ghost use Rattle.image_check.specs.Standing.{IsFitting};
ghost use Rattle.staged_tree.specs.StagedTree.{AreAt, IsListAt, GoesOn};
ghost use Rattle.staged_tree.specs.Steps.{EndsCommand};
ghost use Rattle.store_core.specs.StoreCalls.{Applies};

use crate::store::Store;
use disk_model::Disk;
use image_check::ApplyFault;
use script_lines::{Command, Reply};
use staged_tree::{TreeList, TreePages, carry_out_change, carry_out_look, lacks_version};
use std::alloc::Global;
use store_base::{Answer, Params};
use store_model::Refusal;
use tree_commands::reveal;

impl<D: Disk> Store<D> {
    /// Carries out a command, and answers its reply once what it changed is durable.
    ///
    /// A command that changes nothing writes and syncs nothing; one that changes d slots makes 5d + 2 writes and 5
    /// syncs. Each image that a crash at any moment of the call may leave represents the tree before it or the one
    /// after it.
    ///
    /// After a fault the tree is as it was. `Disk`: the disk failed. If that came at a write or a sync, or after one,
    /// the store is stopped, and the disk represents the one tree or the other. `NoMemory`: nothing was written.
    /// `Stopped`, exactly where the store was stopped before: nothing was called.
    pub fn apply(&mut self, command: &Command) -> Result<Reply, ApplyFault>
        ensures call { Applies D.state (command_of command.now) self.old self.new result }
    {
        let mut reply = Reply::Ok;
        self.apply_into(command, &mut reply)?;
        Ok(reply)
    }

    /// Carries out a command, as `apply` does, and puts its reply into `reply`. A reply is large, so a caller of many
    /// keeps one place for them all. After a fault any reply may stand there.
    pub fn apply_into(&mut self, command: &Command, reply: &mut Reply) -> Result<(), ApplyFault>
        ensures call { Applies D.state (command_of command.now)
            self.old self.new (in_place reply.new result) }
    {
        if self.is_stopped() {
            return Err(ApplyFault::Stopped);
        }
        reveal(command);
        let result = carry_out(
            self.alloc,
            &mut self.pairs,
            self.known.params(),
            command,
            reply,
        );
        if result.is_ok() {
            let pairs = &self.pairs;
            self.known.move_on(pairs.pages.disk());
        }
        result
    }
}

/// Carries out a command on the list of a tree, and puts the reply into `reply`. After it nothing is staged.
///
/// A fault leaves the tree as it was. `NoMemory`: nothing was written. `Disk`: the disk failed, and where that came at
/// a write or a sync, or after one, the pages are spent.
fn carry_out<D: Disk>(
    alloc: Global,
    pairs: &mut TreeList<D>,
    params: &Params,
    command: &Command,
    reply: &mut Reply,
) -> Result<(), ApplyFault>
    requires command { IsCommand (command_of command.now) }
    requires runs { pairs.old.pages.is_spent ≡ false }
    requires list { (t : Tree) × IsListAt D.state t params.now pairs.old }
    ensures call { (t : Tree) → IsListAt D.state t params.now pairs.old
        → EndsCommand D.state t (step t (command_of command.now) params.now)
        params.now pairs.old.pages pairs.new.pages (in_place reply.new result) }
    ensures list { GoesOn D.state pairs.old pairs.new }
{
    if lacks_version(command, params) {
        reply.put_refusal(Refusal::Version);
        return Ok(());
    }
    match command {
        Command::Space => {
            tell_space(&pairs.pages, params, reply);
            Ok(())
        }
        Command::Digest => tell_digest(&mut pairs.pages, reply),
        Command::List(_) | Command::Read(..) | Command::Get(..) | Command::Attrs(_) =>
            carry_out_look(alloc, pairs, command, reply),
        _ => put_answer(carry_out_change(pairs, params, command), reply),
    }
}

/// Tells how many slots are used, and how many there are. LLVM is not to join it to `carry_out`, which would clear the
/// room of a reply for each command.
#[inline(never)]
fn tell_space<D: Disk>(staged: &TreePages<D>, params: &Params, reply: &mut Reply)
    requires runs { staged.now.is_spent ≡ false }
    ensures { IsObservable (D.state staged.now.disk) → (t : Tree) → IsFitting t params.now
        → AreAt D.state t params.now staged.now
        → reply_of reply.new ≡ (step t Space params.now).reply }
{
    *reply = Reply::Space {
        used: staged.used(),
        slots: params.slots(),
    };
}

/// Tells the digest of the image. LLVM is not to join it to `carry_out`, as `tell_space`.
#[inline(never)]
fn tell_digest<D: Disk>(staged: &mut TreePages<D>, reply: &mut Reply) -> Result<(), ApplyFault>
    requires runs { staged.old.is_spent ≡ false }
    ensures call { (t : Tree) (p : Parameters) → IsFitting t p → AreAt D.state t p staged.old
        → EndsCommand D.state t (step t Digest p) p
        staged.old staged.new (in_place reply.new result) }
    ensures map { IsObservable (D.state staged.old.disk) → staged.new.map ≡ staged.old.map }
    ensures follows { Follows D.state staged.old staged.new }
{
    *reply = Reply::Digest(staged.digest()?);
    Ok(())
}

/// Puts the answer of a change that ended so into `reply`.
fn put_answer(changed: Result<Answer<()>, ApplyFault>, reply: &mut Reply) -> Result<(), ApplyFault>
    ensures { in_place reply.new result ≡ change_reply changed }
{
    match changed? {
        Ok(()) => reply.put_ok(),
        Err(refusal) => reply.put_refusal(refusal),
    }
    Ok(())
}
