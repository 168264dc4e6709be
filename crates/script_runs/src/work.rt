//! The one loop that answers commands, whatever they come from.

ghost use Rattle.std.specs.Prelude.{◌≡◌};
ghost use Rattle.script_runs.specs.Runs.{IsReady};
ghost use Rattle.script_runs.specs.Turns.{AnswersAll, AnswersAsked, AnswersCommand, Begins, asked_by, asked_for};

use disk_model::Disk;
use image_subcommands::Status;
use script_lines::{Command, Reply};
use store_core::{ApplyFault, Store};
use store_model::Refusal;

/// What is asked for next, where one place was lent for all that may be.
#[derive(Clone, Copy)]
pub enum Asked {
    /// What stands in the place that was lent: a command, or a line of a session.
    Placed,
    /// Nothing that could be carried out: the refusal is the reply.
    Refused(Refusal),
    /// Nothing more: the work is at its end.
    End,
}

impl Asked {
    /// What a line asks for that was read into the place that was lent.
    pub fn by_reading(reading: Result<(), Refusal>) -> Asked
        ensures { result ≡ asked_by reading }
    {
        match reading {
            Ok(()) => Asked::Placed,
            Err(refusal) => Asked::Refused(refusal),
        }
    }
}

/// What asks a store for one thing after another, and takes the replies: the lines of a script, or commands that a
/// number gives.
///
/// A turn is a call of `next`, the answer of the store, and a call of `answered`. The members speak of a start, of the
/// work as it was then and as it is, and of how many turns were made.
pub trait Work {
    ghost use Rattle.std.specs.Prelude.{◌≤◌, ◌+◌, ℕ, Result, IfOk, OnOk};
    ghost use Rattle.store_model.specs.Trees.{Tree};
    ghost use Rattle.store_model.specs.declared.refusal.Refusal.{Refusal};
    ghost use Rattle.script_lines.specs.declared.command.Command.{Command};
    ghost use Rattle.image_subcommands.specs.declared.status.Status.{Status};
    ghost use Rattle.script_runs.specs.Turns.{Start, LeavesLess, IsNext, IsTurn, RepliesTo, asked_in};

    /// Whether it tells what it will ask for.
    ghost told: { Self → Type 0 };

    /// The trees that the store has after so many turns.
    ghost trees: { Self → Start → ℕ → Tree };

    /// How many turns there may still be.
    ghost left: { Self → ℕ };

    /// Whether it may be asked: no fault of its own ended it.
    ghost live: { Self → Type 0 };

    /// What holds between two turns.
    ghost kept: { Start → Self → Self → ℕ → Type 0 };

    /// What holds where something was asked for and is not answered yet.
    ghost due: { Start → Self → Self → ℕ → Result Command Refusal → Type 0 };

    /// What holds where the turns ended with this status.
    ghost ends: { Start → Self → Self → ℕ → Status → Type 0 };

    /// Says what is asked for next. A command is put into `command`; where none is asked for, any may stand there.
    /// `Err`: a fault of the work ended the call, with this status, and nothing more is asked for.
    fn next(&mut self, command: &mut Command) -> Result<Asked, Status>
        requires { live self.old }
        ensures live { OnOk result (live self.new) }
        ensures falls { IfOk (asked_in command.new result)
            (LeavesLess (left self.old) (left self.new)) }
        ensures turn { (start : Start) (first : Self) (done : ℕ) → kept start first self.old done
            → IsNext told trees ends due start first self.new done (asked_in command.new result) };

    /// Takes the reply to what was asked for. `Err`: a fault of the work ended the call, with this status.
    fn answered(&mut self, reply: &Reply) -> Result<(), Status>
        requires { live self.old }
        ensures live { live self.new }
        ensures falls { left self.new ≤ left self.old }
        ensures turn { (start : Start) (first : Self) (done : ℕ) (asked : Result Command Refusal)
            → due start first self.old done asked
            → RepliesTo told trees start first done asked reply.now
            → IsTurn told trees ends kept start first self.new (done + 1) result };
}

/// Answers what is asked for, in `reply`: carries out the command, or gives the refusal as the reply. `false`:
/// nothing was asked for, and nothing is done.
fn answer_asked<D: Disk>(
    store: &mut Store<D>,
    asked: Asked,
    command: &Command,
    reply: &mut Reply,
) -> Result<bool, ApplyFault>
    ensures { AnswersAsked (AnswersCommand D.state)
        (asked_for command.now asked) store.old store.new reply.new result }
{
    match asked {
        Asked::Placed => {
            store.apply_into(command, reply)?;
            Ok(true)
        }
        Asked::Refused(refusal) => {
            reply.put_refusal(refusal);
            Ok(true)
        }
        Asked::End => Ok(false),
    }
}

/// Answers all that the work asks for, each before the next is asked, and counts in `done` what was carried out. `Err`
/// has the status of a call that a fault ended.
pub fn answer_all<J: Work, D: Disk>(
    work: &mut J,
    store: &mut Store<D>,
    done: &mut u64,
) -> Result<(), Status>
    requires ready { IsReady D.state store.old }
    requires begins { Begins D.state J.trees J.left J.live J.kept store.old work.old }
    requires none { done.old ≡ 0 }
    ensures { AnswersAll D.state J.told J.trees J.ends result
        done.new store.old store.new work.old work.new }
{
    let (mut command, mut reply) = (Command::Space, Reply::Ok);
    answer_each(work, store, done, &mut command, &mut reply)
}

/// Answers all that the work asks for, as `answer_all`, with one place for the commands and one for the replies.
fn answer_each<J: Work, D: Disk>(
    work: &mut J,
    store: &mut Store<D>,
    done: &mut u64,
    command: &mut Command,
    reply: &mut Reply,
) -> Result<(), Status>
    requires ready { IsReady D.state store.old }
    requires begins { Begins D.state J.trees J.left J.live J.kept store.old work.old }
    requires none { done.old ≡ 0 }
    ensures { AnswersAll D.state J.told J.trees J.ends result
        done.new store.old store.new work.old work.new }
{
    'turns: while answer_asked(store, work.next(command)?, command, reply)? {
        *done += 1;
        work.answered(reply)?;
    }
    Ok(())
}
