//! How a group of changes is carried out on the list of a tree.

ghost use Rattle.std.specs.Prelude.{◌≡◌, ◌<◌, ◌^◌, length, map, false, true, OnOk};
ghost use Rattle.std.specs.FinMap as maps;
ghost use Rattle.store_model.specs.Parameters.{Parameters};
ghost use Rattle.store_model.specs.Trees.{Tree};
ghost use Rattle.disk_model.specs.DiskState.{IsObservable};
ghost use Rattle.script_lines.specs.Parsing.{command_of};
ghost use Rattle.script_lines.specs.Sessions.{is_change, change_of};
ghost use Rattle.image_check.specs.Standing.{IsFitting};
ghost use Rattle.staged_tree.specs.Groups.{group_tree, IsGroupAnswer};
ghost use Rattle.staged_tree.specs.StagedTree.{IsListAt, IsListOver, IsListFor, IsListWithin, FollowsList, GoesOn};
ghost use Rattle.staged_tree.specs.Staging.{counted_answer, StagesChange, StagesRoomy, StagesAll};
ghost use Rattle.staged_tree.specs.Steps.{EndsStep};

use crate::commands::{TreeList, TreePages, cause_of, give_up, lacks_version, settle_list};
use disk_model::Disk;
use image_check::ApplyFault;
use script_lines::{Change, Command};
use store_base::{Answer, Fault, Params};
use store_model::Refusal;
use tree_commands::{change, reveal};

/// How a group of changes was answered.
#[derive(Clone, Copy, Debug, PartialEq, Eq)]
pub enum GroupAnswer {
    /// All of them were carried out.
    Done,
    /// One of them is refused where they are carried out one after another, and none of them was carried out.
    Refused {
        /// How many of them stand before the first that is refused.
        index: u32,
        /// Why that one is refused.
        reply: Refusal,
    },
}

/// Carries out changes together on the list of a tree, or none of them where one is refused. After it nothing is
/// staged.
///
/// A fault leaves the tree as it was. `NoMemory`: nothing was written. `Disk`: the disk failed, and where that came at
/// a write or a sync, or after one, the pages are spent.
pub fn carry_out_all<D: Disk>(
    pairs: &mut TreeList<D>,
    params: &Params,
    changes: &[Change],
) -> Result<GroupAnswer, ApplyFault>
    requires few { length changes.now < 2 ^ 32 }
    requires runs { pairs.old.pages.is_spent ≡ false }
    requires list { (t : Tree) × IsListAt D.state t params.now pairs.old }
    ensures call { (t : Tree) → IsListAt D.state t params.now pairs.old
        → EndsStep D.state t (group_tree params.now t (map change_of changes.now))
        (IsGroupAnswer params.now t (map change_of changes.now))
        params.now pairs.old.pages pairs.new.pages result }
    ensures fits { (t : Tree) → IsListAt D.state t params.now pairs.old
        → IsObservable (D.state pairs.old.pages.disk)
        → OnOk result (IsFitting (group_tree params.now t (map change_of changes.now)) params.now) }
    ensures list { GoesOn D.state pairs.old pairs.new }
{
    match stage_all(pairs, params, changes) {
        Ok(GroupAnswer::Done) => end_group(pairs),
        Ok(GroupAnswer::Refused { index, reply }) => {
            give_up(pairs);
            Ok(GroupAnswer::Refused { index, reply })
        }
        Err(fault) => {
            give_up(pairs);
            Err(fault.into())
        }
    }
}

/// Stages changes one after another, up to the first that is refused. After a refusal or a fault something may be
/// staged still, and nothing is promised of it.
fn stage_all<D: Disk>(
    pairs: &mut TreeList<D>,
    params: &Params,
    changes: &[Change],
) -> Result<GroupAnswer, Fault>
    requires few { length changes.now < 2 ^ 32 }
    requires runs { pairs.old.pages.is_spent ≡ false }
    requires list { (t : Tree) × IsListFor D.state t t params.now pairs.old }
    ensures call { (t : Tree) → IsListFor D.state t t params.now pairs.old
        → StagesAll D.state t params.now (map change_of changes.now) pairs.old pairs.new result }
    ensures follows { FollowsList D.state pairs.old pairs.new }
{
    for (index, change) in changes.iter().enumerate() {
        let command = change.command();
        if let Err(reply) = stage_change(pairs, params, &command)? {
            return Ok(GroupAnswer::Refused {
                index: index as u32,
                reply,
            });
        }
    }
    Ok(GroupAnswer::Done)
}

/// Stages a change. It is refused as a command is: for the image's version first, and as full last. After a refusal or
/// a fault nothing is promised of what is staged.
fn stage_change<D: Disk>(
    pairs: &mut TreeList<D>,
    params: &Params,
    command: &Command,
) -> Result<Answer<()>, Fault>
    requires change { is_change (command_of command.now) ≡ true }
    requires runs { pairs.old.pages.is_spent ≡ false }
    requires list { (t : Tree) × ((now : Tree) × IsListFor D.state t now params.now pairs.old) }
    ensures call { (t now : Tree) → IsListFor D.state t now params.now pairs.old
        → StagesChange D.state t now params.now (command_of command.now)
        pairs.old pairs.new result }
    ensures follows { FollowsList D.state pairs.old pairs.new }
{
    reveal(command);
    match stage_roomy(pairs, params, command)? {
        Ok(()) => Ok(count_pages(&pairs.pages, params)),
        Err(refusal) => Ok(Err(refusal)),
    }
}

/// Stages a change, whether or not its pages have room. It is refused as a command is, but never as full. After a
/// refusal or a fault nothing is promised of what is staged.
pub fn stage_roomy<D: Disk>(
    pairs: &mut TreeList<D>,
    params: &Params,
    command: &Command,
) -> Result<Answer<()>, Fault>
    requires change { is_change (command_of command.now) ≡ true }
    requires runs { pairs.old.pages.is_spent ≡ false }
    requires list { (t : Tree) × ((now : Tree) × IsListWithin D.state t now params.now pairs.old) }
    ensures call { (t now : Tree) → IsListOver D.state t now params.now pairs.old
        → StagesRoomy D.state t now params.now (command_of command.now)
        pairs.old pairs.new result }
    ensures follows { FollowsList D.state pairs.old pairs.new }
{
    reveal(command);
    if lacks_version(command, params) {
        return Ok(Err(Refusal::Version));
    }
    change(pairs, params.version(), command)
}

/// Refuses staged pages as full where they are more than the slots.
fn count_pages<D: Disk>(staged: &TreePages<D>, params: &Params) -> Answer<()>
    requires runs { staged.now.is_spent ≡ false }
    ensures { IsObservable (D.state staged.now.disk)
        → result ≡ counted_answer (maps.len staged.now.map) params.now.slots }
{
    let need = staged.used();
    let slots = params.slots();
    if need > slots {
        return Err(Refusal::Full { need, slots });
    }
    Ok(())
}

/// Ends a group whose changes are all carried out in the staged pages: settles them. Where that fails, they are taken
/// back.
fn end_group<D: Disk>(pairs: &mut TreeList<D>) -> Result<GroupAnswer, ApplyFault>
    requires runs { pairs.old.pages.is_spent ≡ false }
    requires list { (t : Tree)
        × ((next : Tree) × ((p : Parameters) × IsListFor D.state t next p pairs.old)) }
    ensures call { (t next : Tree) (p : Parameters) → IsListFor D.state t next p pairs.old
        → EndsStep D.state t next (λ answer. answer ≡ GroupAnswer.Done) p
        pairs.old.pages pairs.new.pages result }
    ensures list { GoesOn D.state pairs.old pairs.new }
{
    match settle_list(pairs) {
        Ok(()) => Ok(GroupAnswer::Done),
        Err(fault) => Err(cause_of(fault)),
    }
}
