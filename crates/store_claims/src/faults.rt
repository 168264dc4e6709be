//! Any words on any disk: what can be done is done.

ghost use Rattle.std.specs.Prelude.{◌≡◌, Some};
ghost use Rattle.store_model.specs.Words.{Request, request_of};
ghost use Rattle.store_claims.specs.Faults.{NoneFailed, CanBeDone, IsDoneOrLacks};

use disk_model::Disk;
use script_lines::{Sink, Source};
use std::alloc::Global;
use store_top::{Outcome, Words, top};

/// Carries out any words on any disk, source and sink. Where no call of the three failed and memory was there, what can
/// be done is done.
pub fn call_anything<D: Disk, R: Source, W: Sink>(
    alloc: Global,
    words: &Words,
    disk: D,
    source: R,
    sink: W,
) -> Outcome<D, R, W>
    ensures { (request : Request) → request_of words.now ≡ Some request
        → CanBeDone request (D.state disk) (R.state source)
        → NoneFailed (D.state disk) (D.state result.disk) (R.state source)
        (R.state result.source) (W.state sink) (W.state result.sink)
        → IsDoneOrLacks result.status }
{
    top(alloc, words, disk, source, sink)
}
