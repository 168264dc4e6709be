//! How the changes of a stream are carried out together on the list of a tree, as they come.

ghost use Rattle.std.specs.Prelude.{◌≡◌, [], false, true};
ghost use Rattle.store_model.specs.Parameters.{Parameters};
ghost use Rattle.store_model.specs.Trees.{Tree};
ghost use Rattle.script_lines.specs.Parsing.{command_of};
ghost use Rattle.script_lines.specs.Sessions.{is_change};
ghost use Rattle.tree_commands.specs.Counted.{counted_step};
ghost use Rattle.staged_tree.specs.ChangeStreams.{CarriesOutStream, IsEndAnswer, IsEndOf};
ghost use Rattle.staged_tree.specs.StagedTree.{IsListAt, IsListOver, IsListWithin, FollowsList, GoesOn};
ghost use Rattle.staged_tree.specs.Staging.{StagesWithin, StagesGuarded};
ghost use Rattle.staged_tree.specs.Steps.{EndsStep};

use crate::change_stream::ChangeStream;
use crate::commands::{TreeList, give_up, settle_list};
use crate::group::{GroupAnswer, stage_roomy};
use crate::guards::{When, is_due, path_of};
use disk_model::Disk;
use image_check::ApplyFault;
use page_store::SettleFault;
use path_keys::Path;
use script_lines::{Change, Command};
use store_base::{Answer, Fault, Params};
use store_model::Refusal;
use tree_commands::reveal;

/// The most pages that a tree may have while changes are staged, however many slots there are: four times as many as
/// the largest table has slots.
const MOST_STAGED: u32 = 262_144;

/// Carries out the changes of a stream together on the list of a tree, as they come, or none of them where one is
/// refused or where the tree after all of them does not fit: pages are counted at the end alone. A change whose guard
/// does not let it be when its turn comes is passed over. No change is kept once it is staged. After it nothing is
/// staged.
///
/// A refusal tells how many changes came before it, with those passed over: as `Full` all of them. The inner fault is
/// the stream's. A fault leaves the tree as it was. `NoMemory`: nothing was written. It comes too where the tree has
/// more than 262,144 pages while changes are staged, and after 4,294,967,295 changes. `Disk`: the disk failed, and
/// where that came at a write or a sync, or after one, the pages are spent.
pub fn carry_out_stream<D: Disk, S: ChangeStream>(
    pairs: &mut TreeList<D>,
    params: &Params,
    stream: &mut S,
) -> Result<Result<GroupAnswer, S::Fault>, ApplyFault>
    requires runs { pairs.old.pages.is_spent ≡ false }
    requires begins { S.came stream.old [] }
    requires list { (t : Tree) × IsListAt D.state t params.now pairs.old }
    ensures call { CarriesOutStream (S.came stream.new) (S.whole stream.new) (S.fails stream.new)
        D.state params.now pairs.old pairs.new result }
    ensures keeps { (start : S) → S.keeps start stream.old → S.keeps start stream.new }
    ensures list { GoesOn D.state pairs.old pairs.new }
{
    let mut change = Change::Make(Path::root());
    for index in 0..u32::MAX {
        let when = match stream.next(&mut change) {
            Ok(Some(when)) => when,
            Ok(None) => return end_stream(pairs, index),
            Err(fault) => {
                give_up(pairs);
                return Ok(Err(fault));
            }
        };
        match stage_guarded(pairs, params, when, &change.command()) {
            Ok(Ok(())) => {}
            Ok(Err(reply)) => {
                give_up(pairs);
                return Ok(Ok(GroupAnswer::Refused { index, reply }));
            }
            Err(fault) => {
                give_up(pairs);
                return Err(fault.into());
            }
        }
    }
    give_up(pairs);
    Err(ApplyFault::NoMemory)
}

/// Stages a change where its guard lets it be, as `stage_within`, and else nothing.
fn stage_guarded<D: Disk>(
    pairs: &mut TreeList<D>,
    params: &Params,
    when: When,
    command: &Command,
) -> Result<Answer<()>, Fault>
    requires change { is_change (command_of command.now) ≡ true }
    requires runs { pairs.old.pages.is_spent ≡ false }
    requires list { (t : Tree) × ((now : Tree) × IsListWithin D.state t now params.now pairs.old) }
    ensures call { (t now : Tree) → IsListWithin D.state t now params.now pairs.old
        → StagesGuarded D.state t now params.now when
        (command_of command.now) pairs.old pairs.new result }
    ensures follows { FollowsList D.state pairs.old pairs.new }
{
    reveal(command);
    if !is_due(pairs, when, &path_of(command))? {
        return Ok(Ok(()));
    }
    stage_within(pairs, params, command)
}

/// Stages a change, as `stage_roomy`. `NoMemory` too where more pages are staged then than may be.
fn stage_within<D: Disk>(
    pairs: &mut TreeList<D>,
    params: &Params,
    command: &Command,
) -> Result<Answer<()>, Fault>
    requires change { is_change (command_of command.now) ≡ true }
    requires runs { pairs.old.pages.is_spent ≡ false }
    requires list { (t : Tree) × ((now : Tree) × IsListWithin D.state t now params.now pairs.old) }
    ensures call { (t now : Tree) → IsListWithin D.state t now params.now pairs.old
        → StagesWithin D.state t now params.now (command_of command.now)
        pairs.old pairs.new result }
    ensures follows { FollowsList D.state pairs.old pairs.new }
{
    let answer = stage_roomy(pairs, params, command)?;
    if pairs.pages.used() > MOST_STAGED {
        return Err(Fault::NoMemory);
    }
    Ok(answer)
}

/// Ends a stream whose changes, so many, are all carried out in the staged pages: settles them. Where that is refused,
/// or fails, they are taken back.
fn end_stream<D: Disk, F>(
    pairs: &mut TreeList<D>,
    index: u32,
) -> Result<Result<GroupAnswer, F>, ApplyFault>
    requires runs { pairs.old.pages.is_spent ≡ false }
    requires list { (t : Tree)
        × ((next : Tree) × ((p : Parameters) × IsListOver D.state t next p pairs.old)) }
    ensures call { (t next : Tree) (p : Parameters) → IsListOver D.state t next p pairs.old
        → EndsStep D.state t (counted_step t next p).tree (IsEndAnswer p next index) p
        pairs.old.pages pairs.new.pages result }
    ensures index { IsEndOf index result }
    ensures list { GoesOn D.state pairs.old pairs.new }
{
    match settle_list(pairs) {
        Ok(()) => Ok(Ok(GroupAnswer::Done)),
        Err(SettleFault::Full { need, slots }) => Ok(Ok(GroupAnswer::Refused {
            index,
            reply: Refusal::Full { need, slots },
        })),
        Err(SettleFault::Disk) => Err(ApplyFault::Disk),
        Err(SettleFault::NoMemory) => Err(ApplyFault::NoMemory),
    }
}
