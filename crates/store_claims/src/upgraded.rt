//! An image that was upgraded is the one that is made with version 2.

ghost use Rattle.std.specs.Prelude.{◌≡◌, ◌≢◌, ◌⊎◌, IfOk, IfErr, Some};
ghost use Rattle.store_model.specs.declared.version.Version.TheVariants.{Two};
ghost use Rattle.store_model.specs.Parameters.{Parameters, with_version};
ghost use Rattle.store_model.specs.Trees.{Tree};
ghost use Rattle.store_model.specs.Words.{request_of};
ghost use Rattle.store_model.specs.Words.Request.{Format};
ghost use Rattle.image_check.specs.Standing.{IsFitting};
ghost use Rattle.store_claims.specs.Machines.{HasImage};
ghost use Rattle.store_claims.specs.Makings.{StopsMaking};
ghost use Rattle.store_claims.specs.Upgrades.{HaveSameArguments, AreSameScripts, IsUpgradedAsMade, StopsUpgrade};
ghost use Rattle.store_claims.specs.Upgrades.{StopsUpgrading};

use crate::equal::{Images, Making, done, make_image};
use crate::machines::{Disk, Ended, no_script, one_word};
use script_lines::MemSink;
use std::alloc::Global;
use store_base::NoMemory;
use store_top::{Outcome, Status, Words, top};

/// Upgrades the image of a tree. `Err` has an upgrade that did not end with 0.
fn upgrade_image(alloc: Global, disk: Disk, sink: MemSink) -> Result<Ended, Ended>
    ensures image { (t : Tree) (p : Parameters) → IsFitting t p → HasImage disk t p
        → IfOk result (λ after. HasImage after.disk t (with_version p Two)) }
    ensures ended { IfErr result (λ ended. ended.status ≢ Status.Done) }
    ensures stops { (t : Tree) (p : Parameters) → IsFitting t p → HasImage disk t p
        → IfErr result (StopsUpgrade disk) }
{
    match one_word(alloc, "upgrade") {
        Ok(words) => done(top(alloc, &words, disk, no_script(alloc), sink)),
        Err(NoMemory) => Err(Outcome::idle(Status::NoMemory, disk, no_script(alloc), sink)),
    }
}

/// Makes an image by `format`, runs scripts on it and upgrades it. Makes another by `format2` with the same arguments,
/// and runs the same scripts on it. Where all calls ended with 0, no line was answered `full` on either, and none
/// `version` on the first, the images are equal, byte for byte.
///
/// `sink` is for the upgrade, which prints nothing. `Err` has the first call that did not end with 0, and no call is
/// made after it.
pub fn an_upgraded_image_is_the_one_made_so(
    alloc: Global,
    format: &Words,
    format2: &Words,
    first: Making,
    second: Making,
    sink: MemSink,
) -> Result<Images, Ended>
    ensures same { (p : Parameters) → request_of format.now ≡ Some (Format p)
        → HaveSameArguments format.now format2.now
        → AreSameScripts first.scripts.items second.scripts.items
        → IfOk result (λ images. IsUpgradedAsMade first.scripts.items p
        images.first images.second) }
    ensures ended { IfErr result (λ ended. ended.status ≢ Status.Done) }
    ensures stops { (p : Parameters) → request_of format.now ≡ Some (Format p)
        → HaveSameArguments format.now format2.now
        → IfErr result (λ ended. StopsMaking p first.disk first.scripts.items first.sink ended
        ⊎ (StopsUpgrading first.scripts.items p ended
        ⊎ StopsMaking (with_version p Two) second.disk second.scripts.items second.sink ended)) }
{
    let formatted = make_image(alloc, format, first)?;
    let upgraded = upgrade_image(alloc, formatted, sink)?;
    let made = make_image(alloc, format2, second)?;
    Ok(Images {
        first: upgraded.disk,
        second: made,
    })
}
