//! A call of the program on a machine in memory: the one kind of machine of the sentences on images but two.

ghost use Rattle.std.specs.Prelude.{◌≡◌, Some};
ghost use Rattle.store_model.specs.Words.{Request, request_of};
ghost use Rattle.script_lines.specs.Memory.{source_state, sink_state};
ghost use Rattle.image_subcommands.specs.Outside.{KeepsOutside};
ghost use Rattle.store_top.specs.Performing.{Performs};
ghost use Rattle.store_claims.specs.Machines.{meaning};
ghost use Rattle.store_claims.specs.ImageMachines.{given};

use crate::{Ended, Machine};
use std::alloc::Global;
use store_top::{Words, top};

/// Carries out the words on the machine, whatever its disk holds, what is pending on it and which of its calls fail.
pub(crate) fn call(alloc: Global, words: &Words, machine: Machine) -> Ended
    ensures outside { KeepsOutside result.status (meaning machine.disk)
        (meaning result.disk) (source_state machine.source)
        (source_state result.source) (sink_state machine.sink) (sink_state result.sink) }
    ensures performs { (request : Request) → request_of words.now ≡ Some request
        → Performs meaning source_state sink_state request (given machine) result }
{
    let Machine { disk, source, sink } = machine;
    top(alloc, words, disk, source, sink)
}
