//! How a command that looks at a tree, and one that changes it, are carried out on its list, whose pages are staged.

ghost use Rattle.std.specs.Prelude.{◌≡◌, true, false, Err};
ghost use Rattle.store_model.specs.Parameters.{Parameters};
ghost use Rattle.store_model.specs.Trees.{Tree};
ghost use Rattle.store_model.specs.Draws.{draw_of};
ghost use Rattle.store_model.specs.Commands.{IsCommand};
ghost use Rattle.store_model.specs.Steps as steps;
ghost use Rattle.store_model.specs.Steps.{step};
ghost use Rattle.disk_model.specs.DiskState.{IsObservable};
ghost use Rattle.seeded_draw.specs.AnyDrawn.{any_draw};
ghost use Rattle.script_lines.specs.InPlace.{in_place};
ghost use Rattle.script_lines.specs.Parsing.{command_of};
ghost use Rattle.page_store.specs.StagedState.{without_changes};
ghost use Rattle.script_lines.specs.Sessions.{is_change};
ghost use Rattle.tree_commands.specs.Answers.{is_look, change_reply};
ghost use Rattle.tree_commands.specs.Counted.{counted_step};
ghost use Rattle.staged_tree.specs.StagedTree.{IsStagedFor, IsListAt, GoesOn, HoldsTable};
ghost use Rattle.staged_tree.specs.Steps.{settled_reply, settle_cause, SettlesAll, EndsCommand};

use disk_model::Disk;
use image_check::ApplyFault;
use page_store::{SettleFault, Staged};
use script_lines::{Command, Reply};
use seeded_draw::AnyDraw;
use skip_levels::SkipList;
use std::alloc::Global;
use store_base::{Answer, Params};
use store_model::{Refusal, Version};
use tree_commands::{answer, change, is_on_attributes};

/// The pages of a tree in the table of an image.
pub type TreePages<D> = Staged<D, AnyDraw>;

/// The list of the pairs of a tree, over its pages.
pub type TreeList<D> = SkipList<TreePages<D>, AnyDraw>;

/// Whether a command is refused for the version of the image.
pub fn lacks_version(command: &Command, params: &Params) -> bool
    ensures { result ≡ steps.lacks_version (command_of command.now) params.now }
{
    is_on_attributes(command) && params.version() == Version::One
}

/// Carries out a command that only looks at the pairs of the tree, and that its image's version has. After it nothing
/// is staged.
pub fn carry_out_look<D: Disk>(
    alloc: Global,
    pairs: &mut TreeList<D>,
    command: &Command,
    reply: &mut Reply,
) -> Result<(), ApplyFault>
    requires looks { is_look (command_of command.now) ≡ true }
    requires command { IsCommand (command_of command.now) }
    requires runs { pairs.old.pages.is_spent ≡ false }
    requires list { (t : Tree) × ((p : Parameters) × IsListAt D.state t p pairs.old) }
    ensures call { (t : Tree) (p : Parameters)
        → steps.lacks_version (command_of command.now) p ≡ false
        → IsListAt D.state t p pairs.old
        → EndsCommand D.state t (step t (command_of command.now) p) p
        pairs.old.pages pairs.new.pages (in_place reply.new result) }
    ensures list { GoesOn D.state pairs.old pairs.new }
{
    match answer(alloc, pairs, command, reply) {
        Ok(()) => {
            pairs.pages.discard();
            Ok(())
        }
        Err(fault) => {
            give_up(pairs);
            Err(fault.into())
        }
    }
}

/// Carries out a command that changes the tree, and that its image's version has. A `Reply` is large, since it may hold
/// the bytes of a read: it is not made here, but by the caller.
pub fn carry_out_change<D: Disk>(
    pairs: &mut TreeList<D>,
    params: &Params,
    command: &Command,
) -> Result<Answer<()>, ApplyFault>
    requires change { is_change (command_of command.now) ≡ true }
    requires version { steps.lacks_version (command_of command.now) params.now ≡ false }
    requires command { IsCommand (command_of command.now) }
    requires runs { pairs.old.pages.is_spent ≡ false }
    requires list { (t : Tree) × IsListAt D.state t params.now pairs.old }
    ensures call { (t : Tree) → IsListAt D.state t params.now pairs.old
        → EndsCommand D.state t (step t (command_of command.now) params.now)
        params.now pairs.old.pages pairs.new.pages (change_reply result) }
    ensures list { GoesOn D.state pairs.old pairs.new }
{
    match change(pairs, params.version(), command) {
        Ok(Ok(())) => end_change(pairs),
        Ok(Err(refusal)) => {
            pairs.pages.discard();
            Ok(Err(refusal))
        }
        Err(fault) => {
            give_up(pairs);
            Err(fault.into())
        }
    }
}

/// Ends a change that is carried out in the staged pages: settles them. Where that is refused, or fails, they are taken
/// back.
fn end_change<D: Disk>(pairs: &mut TreeList<D>) -> Result<Answer<()>, ApplyFault>
    requires runs { pairs.old.pages.is_spent ≡ false }
    requires whole { IsObservable (D.state pairs.old.pages.disk) → pairs.old.is_whole ≡ true }
    requires staged { (t : Tree)
        × ((next : Tree)
        × ((p : Parameters)
        × (IsStagedFor D.state t next p pairs.old.pages
        × (any_draw pairs.old.draw ≡ draw_of p)))) }
    ensures call { (t next : Tree) (p : Parameters) → IsStagedFor D.state t next p pairs.old.pages
        → EndsCommand D.state t (counted_step t next p) p
        pairs.old.pages pairs.new.pages (change_reply result) }
    ensures list { GoesOn D.state pairs.old pairs.new }
{
    match settle_list(pairs) {
        Ok(()) => Ok(Ok(())),
        Err(fault) => answer_to(fault),
    }
}

/// Settles what is staged, and where that fails takes it back. Either way nothing is staged after it.
pub fn settle_list<D: Disk>(pairs: &mut TreeList<D>) -> Result<(), SettleFault>
    requires runs { pairs.old.pages.is_spent ≡ false }
    requires whole { IsObservable (D.state pairs.old.pages.disk) → pairs.old.is_whole ≡ true }
    requires staged { (t : Tree)
        × ((next : Tree)
        × ((p : Parameters)
        × (IsStagedFor D.state t next p pairs.old.pages
        × (any_draw pairs.old.draw ≡ draw_of p)))) }
    ensures call { SettlesAll D.state pairs.old.pages pairs.new.pages result }
    ensures list { GoesOn D.state pairs.old pairs.new }
{
    match pairs.pages.settle() {
        Ok(()) => {
            pairs.pages.discard();
            Ok(())
        }
        Err(fault) => {
            give_up(pairs);
            Err(fault)
        }
    }
}

/// Takes back what is staged, even if the list is not whole any more. The list then knows no place.
pub fn give_up<D: Disk>(pairs: &mut TreeList<D>)
    requires { HoldsTable D.state pairs.old }
    ensures pages { pairs.new.pages ≡ without_changes pairs.old.pages }
    ensures list { GoesOn D.state pairs.old pairs.new }
{
    pairs.forget();
    pairs.pages.discard();
    pairs.take_up();
}

/// The end of a change whose settle failed with this fault.
fn answer_to(fault: SettleFault) -> Result<Answer<()>, ApplyFault>
    ensures { change_reply result ≡ settled_reply (Err fault) }
{
    match fault {
        SettleFault::Full { need, slots } => Ok(Err(Refusal::Full { need, slots })),
        SettleFault::Disk => Err(ApplyFault::Disk),
        SettleFault::NoMemory => Err(ApplyFault::NoMemory),
    }
}

/// Why changes to a tree that fits failed, by the fault of their settle.
pub fn cause_of(fault: SettleFault) -> ApplyFault
    ensures { result ≡ settle_cause fault }
{
    match fault {
        // No such tree takes more pages than there are slots. What comes here wrote nothing.
        SettleFault::Full { .. } | SettleFault::NoMemory => ApplyFault::NoMemory,
        SettleFault::Disk => ApplyFault::Disk,
    }
}
