//! How the changed pages become the slots that a settle commits.

ghost use Rattle.std.specs.Prelude.{◌≡◌};
ghost use Rattle.gate_journal.specs.ViewState.{KeepsView};
ghost use Rattle.page_store.specs.Overlays.{disk_of, params_of, touched_of};
ghost use Rattle.page_store.specs.Preparing.{FindsSlots};

use crate::carry::lay_changes;
use crate::changes::Changes;
use crate::overlay::Overlay;
use disk_model::Disk;
use seeded_draw::Draw;
use store_base::Fault;
use table_memory::{ChangedSlots, Finder, find_changes};

/// Finds the slots in which the table differs once the changes are carried out. The disk is only read. Nothing is
/// promised of which slots the overlay has written after the call.
pub fn find_slots<D: Disk, W: Draw>(
    overlay: &mut Overlay<D>,
    finder: &mut Finder<W>,
    changes: &Changes,
) -> Result<ChangedSlots, Fault>
    requires { (params_of overlay.old).slots ≡ (W.drawn finder.old.draw).slots }
    ensures call { FindsSlots (W.drawn finder.old.draw) (params_of overlay.old)
        (touched_of overlay.old) changes.now.pages.entries (D.state (disk_of overlay.old))
        (D.state (disk_of overlay.new)) result }
    ensures follows { KeepsView (params_of overlay.old) (params_of overlay.new)
        (D.state (disk_of overlay.old))
        (D.state (disk_of overlay.new)) }
    ensures draw { finder.new.draw ≡ finder.old.draw }
{
    lay_changes(overlay, finder, changes)?;
    find_changes(
        overlay.alloc,
        &mut overlay.disk,
        &mut overlay.cache,
        overlay.params.slots(),
        &mut overlay.touched,
    )
}
