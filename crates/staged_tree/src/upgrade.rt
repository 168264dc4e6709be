//! How the list of a tree becomes one of version 2.

ghost use Rattle.std.specs.Prelude.{◌≡◌, true, false};
ghost use Rattle.store_model.specs.Parameters.{Parameters};
ghost use Rattle.store_model.specs.Trees.{Tree};
ghost use Rattle.store_model.specs.Draws.{draw_of};
ghost use Rattle.store_model.specs.declared.version.Version.TheVariants.{One};
ghost use Rattle.disk_model.specs.DiskState.{IsObservable};
ghost use Rattle.seeded_draw.specs.AnyDrawn.{any_draw};
ghost use Rattle.staged_tree.specs.StagedTree.{IsUpgradeStaged, IsListAt, GoesOn};
ghost use Rattle.staged_tree.specs.Steps.{EndsUpgrade};

use crate::commands::{TreeList, cause_of, give_up};
use disk_model::Disk;
use file_blocks::inline_short_files;
use image_check::ApplyFault;

/// Makes the list of a tree under version 1 that of the same tree under version 2. After it nothing is staged.
///
/// A fault leaves the list as it was. `NoMemory`: nothing was written. `Disk`: the disk failed, and where that came at
/// a write or a sync, or after one, the pages are spent.
pub fn upgrade_list<D: Disk>(pairs: &mut TreeList<D>) -> Result<(), ApplyFault>
    requires runs { pairs.old.pages.is_spent ≡ false }
    requires list { (t : Tree)
        × ((p : Parameters) × (IsListAt D.state t p pairs.old × (p.version ≡ One))) }
    ensures call { (t : Tree) (p : Parameters) → IsListAt D.state t p pairs.old
        → EndsUpgrade D.state t p pairs.old.pages pairs.new.pages result }
    ensures list { GoesOn D.state pairs.old pairs.new }
{
    match inline_short_files(pairs) {
        Ok(()) => end_upgrade(pairs),
        Err(fault) => {
            give_up(pairs);
            Err(fault.into())
        }
    }
}

/// Ends an upgrade whose pages are staged: settles them, and version 2 with them. Where that fails, they are taken
/// back.
fn end_upgrade<D: Disk>(pairs: &mut TreeList<D>) -> Result<(), ApplyFault>
    requires runs { pairs.old.pages.is_spent ≡ false }
    requires whole { IsObservable (D.state pairs.old.pages.disk) → pairs.old.is_whole ≡ true }
    requires staged { (t : Tree)
        × ((p : Parameters) × (IsUpgradeStaged D.state t p pairs.old.pages
        × ((any_draw pairs.old.draw ≡ draw_of p) × (p.version ≡ One)))) }
    ensures call { (t : Tree) (p : Parameters) → IsUpgradeStaged D.state t p pairs.old.pages
        → EndsUpgrade D.state t p pairs.old.pages pairs.new.pages result }
    ensures list { GoesOn D.state pairs.old pairs.new }
{
    match pairs.pages.settle_upgrade() {
        Ok(()) => {
            pairs.pages.discard();
            Ok(())
        }
        Err(fault) => {
            give_up(pairs);
            Err(cause_of(fault))
        }
    }
}
