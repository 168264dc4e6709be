//! A check after any runs.

ghost use Rattle.std.specs.Prelude.{◌≡◌, ◌≢◌, Some, IfOk, IfErr};
ghost use Rattle.store_model.specs.Parameters.{Parameters};
ghost use Rattle.store_model.specs.Words.{request_of};
ghost use Rattle.store_model.specs.Words.Request.{Format, Check};
ghost use Rattle.store_claims.specs.Makings.{made_tree, StopsMaking};
ghost use Rattle.store_claims.specs.Checks.{ChecksTree};

use crate::call::call;
use crate::{Ended, Machine, Making, make_image, no_script};
use script_lines::MemSink;
use std::alloc::Global;
use store_top::{Status, Words};

/// Makes an image, runs any number of scripts on it, one after another, and checks it. The check says `clean`, with
/// the numbers of the tree after all their lines, and prints that into this sink.
///
/// `Err` has the first call before the check that did not end with 0: the format refused the disk, a call of the
/// disk, the sink or a script failed, a script was too long, or memory ran out. No call is made after it.
pub fn check_behind_runs(
    alloc: Global,
    format: &Words,
    check: &Words,
    making: Making,
    line: MemSink,
) -> Result<Ended, Ended>
    ensures checks { (p : Parameters) → request_of format.now ≡ Some (Format p)
        → request_of check.now ≡ Some Check →
        IfOk result (λ ended. ChecksTree (made_tree making.scripts.items p) p
        ended.status line.written ended.sink.written) }
    ensures ended { IfErr result (λ ended. ended.status ≢ Status.Done) }
    ensures stops { (p : Parameters) → request_of format.now ≡ Some (Format p)
        → IfErr result (StopsMaking p making.disk making.scripts.items making.sink) }
{
    let disk = make_image(alloc, format, making)?;
    let machine = Machine {
        disk,
        source: no_script(alloc),
        sink: line,
    };
    let checked = call(alloc, check, machine);
    Ok(checked)
}
