//! What wiping and scrubbing leave of an image, also where they are cut short. A crash tells nothing.

ghost use Rattle.std.specs.Prelude.{◌≡◌, Some, slice_index};
ghost use Rattle.store_model.specs.Parameters.{Parameters};
ghost use Rattle.store_model.specs.Trees.{Tree};
ghost use Rattle.store_model.specs.Images.{layout, first_byte};
ghost use Rattle.store_model.specs.Words.{request_of};
ghost use Rattle.store_model.specs.Words.Request.{Format, Scrub, Wipe};
ghost use Rattle.disk_model.specs.DiskState.{IsDurable};
ghost use Rattle.gate_journal.specs.Formats.{NamesNoParameters};
ghost use Rattle.scrub_free.specs.ScrubCalls.{ScrubsTo};
ghost use Rattle.script_lines.specs.Memory.{sink_state};
ghost use Rattle.image_subcommands.specs.ScrubCall.{IsScrub};
ghost use Rattle.image_subcommands.specs.Statuses.{IsJudged};
ghost use Rattle.store_claims.specs.Checks.{MightLeave};
ghost use Rattle.store_claims.specs.Costs.{Costs};
ghost use Rattle.store_claims.specs.ImageMachines.{given};
ghost use Rattle.store_claims.specs.Images.{ScrubsExactly, ScrubsAgain, WipesAllOrNone, MakesBehindWipe};
ghost use Rattle.store_claims.specs.Machines.{meaning};

use crate::call::call;
use crate::{Ended, Machine};
use std::alloc::Global;
use store_top::{Status, Words};

/// Scrubs an image: where the free slots are all that differs from the image of a tree, after recovery, that image
/// is left, byte for byte. It prints what a check of that image would. The image of a tree byte for byte costs no
/// write and two syncs.
pub fn scrub(alloc: Global, scrub: &Words, machine: Machine) -> Ended
    ensures exact { request_of scrub.now ≡ Some Scrub
        → ScrubsExactly result.status (meaning machine.disk) (meaning result.disk)
        (sink_state machine.sink)
        (sink_state result.sink) }
    ensures costs { (t : Tree) (p : Parameters) → request_of scrub.now ≡ Some Scrub
        → ScrubsTo (meaning machine.disk).bytes t p → (meaning machine.disk).bytes ≡ layout t p
        → Costs 0 2 (IsJudged result.status) (meaning machine.disk) (meaning result.disk) }
{
    call(alloc, scrub, machine)
}

/// Wipes a disk of any length: it is no image then.
///
/// On a disk that begins as an image does: whatever call of the disk fails first, and wherever a crash comes, what is
/// left is no image any more, or each byte of it is as it was.
pub fn wipe(alloc: Global, wipe: &Words, machine: Machine) -> Ended
    ensures no_image { request_of wipe.now ≡ Some Wipe → result.status ≡ Status.Done
        → NamesNoParameters (meaning result.disk).bytes }
    ensures cut_short { request_of wipe.now ≡ Some Wipe
        → slice_index (meaning machine.disk).bytes 0 ≡ first_byte
        → WipesAllOrNone (meaning machine.disk) (meaning result.disk) }
{
    call(alloc, wipe, machine)
}

/// How a wipe ended, and how making an image after it did.
#[derive(Drop)]
pub struct Remade {
    /// How the wipe ended.
    pub wipe: Status,
    /// How making the image ended.
    pub format: Ended,
}

/// Wipes a disk, whatever it holds, and makes an image on it. After a wipe that is done the image is fresh, and
/// never refused for what was there before; after one for which memory ran out it is made as without one.
pub fn wipe_then_format(alloc: Global, wipe: &Words, format: &Words, machine: Machine) -> Remade
    ensures { (p : Parameters) → request_of wipe.now ≡ Some Wipe
        → request_of format.now ≡ Some (Format p) →
        MakesBehindWipe p result.wipe result.format.status (meaning machine.disk)
        (meaning result.format.disk) }
{
    let wiped = call(alloc, wipe, machine);
    let machine = Machine {
        disk: wiped.disk,
        source: wiped.source,
        sink: wiped.sink,
    };
    let made = call(alloc, format, machine);
    Remade {
        wipe: wiped.status,
        format: made,
    }
}

/// How three scrubs ended.
#[derive(Drop)]
pub struct Scrubs {
    /// The one that was cut short.
    pub cut: Ended,
    /// The one of what a crash left of it.
    pub again: Ended,
    /// The one that nothing disturbed.
    pub whole: Ended,
}

/// An image is scrubbed on a machine on which nothing is pending, and cut short by the failure of any call of its
/// disk; `left` is a machine with an image that a crash at some moment might have left, and `twin` one with the same
/// image as the first. Where the scrub of the twin ends with status 0, that of what was left ends so too, unless a
/// call of it fails or memory runs out, and both leave the same bytes. Each of the three does what
/// the program promises of a scrub.
pub fn scrub_cut_short(
    alloc: Global,
    scrub: &Words,
    machine: Machine,
    left: Machine,
    twin: Machine,
) -> Scrubs
    ensures cut { request_of scrub.now ≡ Some Scrub
        → IsScrub meaning sink_state (given machine) result.cut }
    ensures again { request_of scrub.now ≡ Some Scrub
        → IsScrub meaning sink_state (given left) result.again }
    ensures whole { request_of scrub.now ≡ Some Scrub
        → IsScrub meaning sink_state (given twin) result.whole }
    ensures same { request_of scrub.now ≡ Some Scrub → IsDurable (meaning machine.disk) →
        MightLeave (meaning machine.disk) (meaning result.cut.disk) (meaning left.disk).bytes
        → (meaning twin.disk).bytes ≡ (meaning machine.disk).bytes →
        result.whole.status ≡ Status.Done
        → ScrubsAgain (meaning result.whole.disk).bytes result.again.status
        (meaning result.again.disk) }
{
    let cut = call(alloc, scrub, machine);
    let again = call(alloc, scrub, left);
    let whole = call(alloc, scrub, twin);
    Scrubs { cut, again, whole }
}
