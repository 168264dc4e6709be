//! Whether two disks hold images of which the second can become the first.

ghost use Rattle.std.specs.Prelude.{◌≡◌, ◌↔◌, IsTrue};
ghost use Rattle.mirror_copy.specs.MirrorCalls.{JudgesSecond, JudgesPair};

use crate::fault::MirrorFault;
use disk_model::Disk;
use gate_journal::Journal;
use image_check::find_image;
use store_base::{DiskFault, Params};

/// Whether the parameters are the same, with the version.
fn are_same(one: &Params, other: &Params) -> bool
    ensures { IsTrue result ↔ (one.now ≡ other.now) }
{
    one.slots() == other.slots()
        && one.height() == other.height()
        && one.kind() == other.kind()
        && one.seed() == other.seed()
        && one.version() == other.version()
}

/// Judges the second disk beside the parameters of the first: they are handed back where it is an image that has them.
fn judge_second<D: Disk>(to: &mut D, from: Params) -> Result<Params, MirrorFault>
    ensures { JudgesSecond from (D.state to.old) (D.state to.new) result }
{
    let viewed = match Journal::view_header(to) {
        Ok(viewed) => viewed,
        Err(DiskFault) => return Err(MirrorFault::ToDisk),
    };
    let Some(to) = viewed else {
        return Err(MirrorFault::ToNotImage);
    };
    if !are_same(&from, &to) {
        return Err(MirrorFault::Unequal { from, to });
    }
    Ok(from)
}

/// Finds the parameters that both images have, or why the second can't become the first. Both disks are only read.
/// The first is checked whole before the second is looked at. It takes no memory.
pub fn judge_pair<A: Disk, B: Disk>(from: A, to: &mut B) -> (A, Result<Params, MirrorFault>)
    ensures { JudgesPair (A.state from) (A.state result.0) (B.state to.old)
        (B.state to.new) result.1 }
{
    let (from, found) = find_image(from);
    let judged = match found {
        Ok(contents) => judge_second(to, contents.params),
        Err(fault) => Err(fault.into()),
    };
    (from, judged)
}
