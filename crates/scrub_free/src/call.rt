//! The call that scrubs an image.

ghost use Rattle.std.specs.Prelude.{◌≡◌, ◌≤◌, Ok, Err, MatchResult};
ghost use Rattle.store_model.specs.Parameters.{image_len};
ghost use Rattle.store_model.specs.Images.{recovered_slot};
ghost use Rattle.disk_model.specs.DiskState.{IsObservable};
ghost use Rattle.scrub_free.specs.FreeSlots.{StandClean};
ghost use Rattle.scrub_free.specs.ScrubCalls.{ChecksScrubbed, Scrubs};

use crate::image::scrub_image;
use crate::view::ScrubbedView;
use disk_model::Disk;
use gate_journal::{Journal, View};
use image_check::{Verdict, check_slots};
use store_base::{DiskFault, Fault, Params};

/// The verdict on the slots that scrubbing would leave. The disk is only read, and handed back; with it comes of how
/// many slots, from the first on, the check found that recovery leaves them clean.
fn check_scrubbed<D: Disk>(disk: D, params: &Params) -> (D, u32, Result<Verdict, Fault>)
    requires { (D.state disk).size ≡ image_len params.now.slots }
    ensures call { ChecksScrubbed params.now (D.state disk) (D.state result.0) result.2 }
    ensures within { result.1 ≤ params.now.slots }
    ensures clean { IsObservable (D.state result.0)
        → StandClean (recovered_slot params.now.slots (D.state result.0).bytes) result.1 }
{
    let mut slots = ScrubbedView::new(View::new(disk, params));
    let checked = check_slots(&mut slots, params);
    let (view, clean) = slots.into_slots();
    (view.into_disk(), clean, checked)
}

/// The verdict, unless the scrub failed.
fn answer_of(scrubbed: Result<(), DiskFault>, verdict: Verdict) -> Result<Verdict, Fault>
    ensures { MatchResult scrubbed (λ _. result ≡ Ok verdict) (λ _. result ≡ Err Fault.Disk) }
{
    scrubbed?;
    Ok(verdict)
}

/// Scrubs an image, where that leaves the layout of a tree: recovers its journal, and makes each free slot of the
/// table zero (its byte 0 is 0 already). The disk is handed back.
///
/// `NotImage` is the answer to a disk whose header, as recovery would leave it, is that of no image of its length, and
/// to no other; `Damaged` that to any other disk of which scrubbing would leave the layout of no tree. Then nothing was
/// written. `Clean` comes with what that tree holds, and then the disk is durable and reads its layout; no slot is
/// written that is clean.
///
/// `Fault::Disk` comes only where the disk failed, and `Fault::NoMemory` never: it takes no memory. Each image that a
/// crash at any moment of the call may leave is one that a crash before it might have left, or scrubs to the same, and
/// so does what the disk reads after a fault: scrub it again.
pub fn scrub<D: Disk>(mut disk: D) -> (D, Result<Verdict, Fault>)
    ensures { Scrubs (D.state disk) (D.state result.0) result.1 }
{
    let params = match Journal::view_header(&mut disk) {
        Ok(Some(params)) => params,
        Ok(None) => return (disk, Ok(Verdict::NotImage)),
        Err(fault) => return (disk, Err(fault.into())),
    };
    let (mut disk, clean, checked) = check_scrubbed(disk, &params);
    let verdict = match checked {
        Ok(verdict) => verdict,
        Err(fault) => return (disk, Err(fault)),
    };
    let Verdict::Clean { .. } = verdict else {
        return (disk, Ok(verdict));
    };
    let scrubbed = scrub_image(&mut disk, &params, clean);
    (disk, answer_of(scrubbed, verdict))
}
