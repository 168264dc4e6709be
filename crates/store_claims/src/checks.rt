//! A check is exact.

ghost use Rattle.std.specs.Prelude.{◌≡◌, Some};
ghost use Rattle.store_model.specs.Parameters.{Parameters};
ghost use Rattle.store_model.specs.Trees.{Tree};
ghost use Rattle.store_model.specs.Images.{Represents};
ghost use Rattle.store_model.specs.Words.{request_of};
ghost use Rattle.store_model.specs.Words.Request.{Check, Run};
ghost use Rattle.script_lines.specs.Memory.{sink_state};
ghost use Rattle.store_claims.specs.Checks.{JudgesExactly, AgreesWithRun, AnswersByOneTree, LeavesAlone};
ghost use Rattle.store_claims.specs.Machines.{meaning};

use crate::call::call;
use crate::{Ended, Machine};
use script_lines::MemSink;
use std::alloc::Global;
use store_top::{Status, Words};

/// Checks any bytes, which nobody need vouch for. It says `clean` exactly of those that represent a tree, with the
/// tree's numbers, `not-image` exactly of those that are no image, and `damaged` exactly of the others, unless a call
/// fails or memory runs out before.
pub fn check(alloc: Global, check: &Words, machine: Machine) -> Ended
    ensures { request_of check.now ≡ Some Check →
        JudgesExactly (Represents (meaning machine.disk).bytes)
        (meaning machine.disk).bytes result.status (sink_state machine.sink)
        (sink_state result.sink) }
{
    call(alloc, check, machine)
}

/// What a check said of the bytes, and how a run of them ended.
#[derive(Drop)]
pub struct Judged {
    /// How the check ended.
    pub check: Status,
    /// The sink with its line.
    pub line: MemSink,
    /// How the run ended.
    pub run: Ended,
}

/// Checks any bytes, and then runs a script on the same bytes, whose replies go to a sink of its own. The check says
/// `not-image` and `damaged` exactly where the run ends with status 7 and 8, unless a call fails or memory runs out
/// before. A run of bytes that hold no tree leaves them alone and takes nothing, however it ends. What the check says
/// and prints is exact. Where it says `clean`, the run is answered by one tree, the one that the bytes hold.
pub fn check_then_run(
    alloc: Global,
    check: &Words,
    run: &Words,
    machine: Machine,
    replies: MemSink,
) -> Judged
    ensures judges { request_of check.now ≡ Some Check →
        JudgesExactly (Represents (meaning machine.disk).bytes)
        (meaning machine.disk).bytes result.check (sink_state machine.sink)
        (sink_state result.line) }
    ensures agrees { request_of check.now ≡ Some Check → request_of run.now ≡ Some Run
        → AgreesWithRun result.check result.run.status }
    ensures answers { request_of check.now ≡ Some Check → request_of run.now ≡ Some Run
        → result.check ≡ Status.Done →
        AnswersByOneTree (meaning machine.disk).bytes machine.source.left
        replies.written result.run.status
        result.run.sink.written (meaning result.run.disk).bytes }
    ensures alone { request_of check.now ≡ Some Check → request_of run.now ≡ Some Run
        → ((t : Tree) (p : Parameters) → Represents (meaning machine.disk).bytes t p → ⊥) →
        LeavesAlone result.run.done (meaning machine.disk)
        (meaning result.run.disk) machine.source result.run.source replies result.run.sink }
{
    let checked = call(alloc, check, machine);
    let machine = Machine {
        disk: checked.disk,
        source: checked.source,
        sink: replies,
    };
    let answered = call(alloc, run, machine);
    Judged {
        check: checked.status,
        line: checked.sink,
        run: answered,
    }
}
