//! Equal contents have equal bytes.

ghost use Rattle.std.specs.Prelude.{◌≡◌, ◌≢◌, ◌⊎◌, IfOk, IfErr, Some, Contains};
ghost use Rattle.std.specs.List.{flat_map};
ghost use Rattle.store_model.specs.Parameters.{Parameters};
ghost use Rattle.store_model.specs.Trees.{Tree};
ghost use Rattle.store_model.specs.Scripts.{lines, tree_after};
ghost use Rattle.store_model.specs.Words.{request_of};
ghost use Rattle.store_model.specs.Words.Request.{Format};
ghost use Rattle.image_check.specs.Standing.{IsFitting};
ghost use Rattle.store_claims.specs.Makings.{made_tree, EqualContentsEqualBytes, SparesCounts, StopsRuns, StopsMaking};
ghost use Rattle.store_claims.specs.Machines.{HasImage};

use crate::machines::{Disk, Ended, no_script, one_word};
use script_lines::{MemSink, MemSource};
use std::alloc::Global;
use store_base::NoMemory;
use store_top::{Outcome, Status, Words, top};

/// An image that is to be made.
#[derive(Drop)]
pub struct Making {
    /// The disk for it.
    pub disk: Disk,
    /// The scripts that are run on it, one after another.
    pub scripts: Vec<MemSource>,
    /// Where the replies go.
    pub sink: MemSink,
}

/// Two images that were made.
#[derive(Drop)]
pub struct Images {
    /// The one.
    pub first: Disk,
    /// The other.
    pub second: Disk,
}

/// A call that ended with 0. `Err` has one that did not.
pub(crate) fn done(ended: Ended) -> Result<Ended, Ended>
    ensures ok { IfOk result (λ left. (left ≡ ended) × (ended.status ≡ Status.Done)) }
    ensures ended { IfErr result (λ left. (left ≡ ended) × (ended.status ≢ Status.Done)) }
{
    match ended.status {
        Status::Done => Ok(ended),
        _ => Err(ended),
    }
}

/// Runs one script on an image. `Err` has a run that did not end with 0.
fn run_whole(alloc: Global, disk: Disk, source: MemSource, sink: MemSink) -> Result<Ended, Ended>
    ensures image { (t : Tree) (p : Parameters) → IsFitting t p → HasImage disk t p
        → IfOk result (λ after. HasImage after.disk (tree_after t (lines source.left) p) p) }
    ensures spares { IfOk result (SparesCounts disk sink) }
    ensures ended { IfErr result (λ ended. ended.status ≢ Status.Done) }
    ensures stops { (t : Tree) (p : Parameters) → IsFitting t p → HasImage disk t p
        → IfErr result (StopsRuns disk (λ script. script ≡ source) sink) }
{
    match one_word(alloc, "run") {
        Ok(words) => done(top(alloc, &words, disk, source, sink)),
        Err(NoMemory) => Err(Outcome::idle(Status::NoMemory, disk, source, sink)),
    }
}

/// Runs scripts on an image, one after another. `Err` has the first run that did not end with 0.
fn run_scripts(
    alloc: Global,
    disk: Disk,
    scripts: Vec<MemSource>,
    sink: MemSink,
) -> Result<Disk, Ended>
    ensures image { (t : Tree) (p : Parameters) → IsFitting t p → HasImage disk t p
        → IfOk result (λ after. HasImage after
        (tree_after t (flat_map (λ source. lines source.left) scripts.items) p) p) }
    ensures ended { IfErr result (λ ended. ended.status ≢ Status.Done) }
    ensures stops { (t : Tree) (p : Parameters) → IsFitting t p → HasImage disk t p
        → IfErr result (StopsRuns disk (λ script. Contains scripts.items script) sink) }
{
    let (mut disk, mut sink) = (disk, sink);
    for source in scripts {
        let after = run_whole(alloc, disk, source, sink)?;
        disk = after.disk;
        sink = after.sink;
    }
    Ok(disk)
}

/// Formats a disk by these words, and runs each script on it. The image is that of the tree that the lines of all
/// scripts leave.
///
/// `Err` has the first call that did not end with 0, and no call is made after it: the format refused the disk, a
/// call of the disk, the sink or a script failed, a script was too long, or memory ran out.
pub fn make_image(alloc: Global, format: &Words, making: Making) -> Result<Disk, Ended>
    ensures image { (p : Parameters) → request_of format.now ≡ Some (Format p)
        → IfOk result (λ disk. HasImage disk (made_tree making.scripts.items p) p) }
    ensures ended { IfErr result (λ ended. ended.status ≢ Status.Done) }
    ensures stops { (p : Parameters) → request_of format.now ≡ Some (Format p)
        → IfErr result (StopsMaking p making.disk making.scripts.items making.sink) }
{
    let Making {
        disk,
        scripts,
        sink,
    } = making;
    let formatted = done(top(alloc, format, disk, no_script(alloc), sink))?;
    run_scripts(alloc, formatted.disk, scripts, formatted.sink)
}

/// Makes two images of the same parameters, each by scripts of its own. Where all calls ended with 0 the images are
/// equal, byte for byte, exactly where the trees are that the scripts leave.
///
/// `Err` has the first call that did not end with 0, as from `make_image`.
pub fn equal_contents_have_equal_bytes(
    alloc: Global,
    format: &Words,
    first: Making,
    second: Making,
) -> Result<Images, Ended>
    ensures equal { (p : Parameters) → request_of format.now ≡ Some (Format p)
        → IfOk result (λ images. EqualContentsEqualBytes first.scripts.items second.scripts.items p
        images.first images.second) }
    ensures ended { IfErr result (λ ended. ended.status ≢ Status.Done) }
    ensures stops { (p : Parameters) → request_of format.now ≡ Some (Format p)
        → IfErr result (λ ended. StopsMaking p first.disk first.scripts.items first.sink ended
        ⊎ StopsMaking p second.disk second.scripts.items second.sink ended) }
{
    let first = make_image(alloc, format, first)?;
    let second = make_image(alloc, format, second)?;
    Ok(Images { first, second })
}
