//! A refused line leaves no trace.

ghost use Rattle.std.specs.Prelude.{◌≡◌, IfOk};
ghost use Rattle.store_model.specs.Parameters.{Parameters};
ghost use Rattle.store_model.specs.Trees.{Tree};
ghost use Rattle.store_model.specs.Images.{Represents};
ghost use Rattle.store_model.specs.Scripts.{lines};
ghost use Rattle.store_claims.specs.Answered.{AnswersScript};
ghost use Rattle.store_claims.specs.Refusals.{without_refused};
ghost use Rattle.store_claims.specs.Machines.{bytes_of};

use crate::answered::a_script_is_answered;
use crate::machines::{Ended, Machine};
use std::alloc::Global;
use store_base::NoMemory;
use store_top::Status;

/// Two runs.
#[derive(Drop)]
pub struct Shortened {
    /// The run of a script.
    pub whole: Ended,
    /// The run of what is left of it without the lines that are refused.
    pub short: Ended,
}

/// Runs a script on one machine, and on another one the lines of it that are not refused. Where both end with 0 they
/// leave the same image, byte for byte, and each line of either was answered.
///
/// `NoMemory`: there was none for the word `run`.
pub fn refused_lines_may_be_left_out(
    alloc: Global,
    first: Machine,
    second: Machine,
) -> Result<Shortened, NoMemory>
    ensures whole { (t : Tree) (p : Parameters) → Represents (bytes_of first.disk) t p
        → IfOk result (λ runs. AnswersScript t p first.disk first.source first.sink runs.whole) }
    ensures short { (t : Tree) (p : Parameters) → Represents (bytes_of second.disk) t p
        → IfOk result (λ runs. AnswersScript t p second.disk second.source second.sink runs.short) }
    ensures same { (t : Tree) (p : Parameters) → Represents (bytes_of first.disk) t p
        → Represents (bytes_of second.disk) t p
        → lines second.source.left ≡ without_refused t (lines first.source.left) p
        → IfOk result (λ runs. runs.whole.status ≡ Status.Done → runs.short.status ≡ Status.Done
        → bytes_of runs.short.disk ≡ bytes_of runs.whole.disk) }
{
    let Machine { disk, source, sink } = first;
    let whole = a_script_is_answered(alloc, disk, source, sink)?;
    let Machine { disk, source, sink } = second;
    let short = a_script_is_answered(alloc, disk, source, sink)?;
    Ok(Shortened { whole, short })
}
