//! `big` is a run of its commands.

ghost use Rattle.std.specs.Prelude.{◌≡◌, ℕ, IfOk, Some};
ghost use Rattle.store_model.specs.Parameters.{Parameters};
ghost use Rattle.store_model.specs.Trees.{Tree};
ghost use Rattle.store_model.specs.Images.{Represents};
ghost use Rattle.store_model.specs.Scripts.{lines};
ghost use Rattle.store_model.specs.Words.{request_of};
ghost use Rattle.store_model.specs.Words.Request.{Big};
ghost use Rattle.disk_model.specs.DiskState.{MayLeaveOnly};
ghost use Rattle.script_runs.specs.Costs.{CountsRun};
ghost use Rattle.script_runs.specs.Generations.{first_commands, generated_trees};
ghost use Rattle.store_claims.specs.Answered.{AnswersScript};
ghost use Rattle.store_claims.specs.BigRuns.{AskFor, IsRunOfCommands};
ghost use Rattle.store_claims.specs.Commands.{KeepsCommands};
ghost use Rattle.store_claims.specs.Machines.{bytes_of, meaning};
ghost use Rattle.store_claims.specs.Nothing.{HasNoTree, DoesNothing};

use crate::answered::a_script_is_answered;
use crate::machines::{Ended, Machine};
use std::alloc::Global;
use store_base::NoMemory;
use store_top::{Words, top};

/// `big`, and a run of the commands that it carries out.
#[derive(Drop)]
pub struct TwoRuns {
    /// How `big` ended.
    pub big: Ended,
    /// How the run ended.
    pub run: Ended,
}

/// Carries out these words, `big NUMBER COUNT`, on one machine, and the script of another, which asks for just the
/// commands that the number gives. Where both end with 0 they leave the same image, and `big` prints how many replies
/// of the run do not refuse, how many do, and what `space` and `digest` say of its image. The run answers its script.
///
/// `NoMemory`: there was none for the word `run`.
pub fn big_is_a_run(
    alloc: Global,
    words: &Words,
    first: Machine,
    second: Machine,
) -> Result<TwoRuns, NoMemory>
    ensures run { (t : Tree) (p : Parameters) → Represents (bytes_of second.disk) t p
        → IfOk result (λ both. AnswersScript t p second.disk second.source second.sink both.run) }
    ensures same { (number count : ℕ) (t : Tree) (p : Parameters)
        → request_of words.now ≡ Some (Big number count)
        → Represents (bytes_of first.disk) t p → Represents (bytes_of second.disk) t p
        → AskFor (lines second.source.left) (first_commands number count)
        → IfOk result (IsRunOfCommands t p second.source first.sink) }
{
    let Machine { disk, source, sink } = first;
    let big = top(alloc, words, disk, source, sink);
    let Machine { disk, source, sink } = second;
    let run = a_script_is_answered(alloc, disk, source, sink)?;
    Ok(TwoRuns { big, run })
}

/// Carries out these words, `big NUMBER COUNT`, on an image. However it ends, the image is that of the tree after the
/// commands that were carried out, as with a run of them; only the summary is printed, and nothing is taken. It makes
/// just the writes and syncs of a run of its commands; the summary takes none.
///
/// On bytes that are the image of no tree it does nothing, as a run.
pub fn commands_of_big_stay(alloc: Global, words: &Words, machine: Machine) -> Ended
    ensures stay { (number count : ℕ) (t : Tree) (p : Parameters)
        → request_of words.now ≡ Some (Big number count)
        → MayLeaveOnly (meaning machine.disk) (λ image. Represents image t p)
        → KeepsCommands number count t p machine.disk machine.source machine.sink result }
    ensures costs { (number count : ℕ) (t : Tree) (p : Parameters)
        → request_of words.now ≡ Some (Big number count)
        → Represents (bytes_of machine.disk) t p
        → CountsRun result.status result.done (generated_trees t number count p) p
        (meaning machine.disk) (meaning result.disk) }
    ensures nothing { (number count : ℕ) → request_of words.now ≡ Some (Big number count)
        → HasNoTree (bytes_of machine.disk)
        → DoesNothing machine.disk machine.source machine.sink result }
{
    let Machine { disk, source, sink } = machine;
    top(alloc, words, disk, source, sink)
}
