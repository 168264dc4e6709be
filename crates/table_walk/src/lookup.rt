//! The page of a label, wherever it lies.

ghost use Rattle.std.specs.Prelude.{◌≡◌, ℕ, ◌+◌, ◌≤◌};
ghost use Rattle.table_walk.specs.Indexes.{IsIndexOf, AreFewAlike};
ghost use Rattle.table_walk.specs.IndexLookups.{answer_of};
ghost use Rattle.table_walk.specs.Lookups.{FindsPage};

use crate::find_page;
use crate::guide::Guide;
use node_pages::Page;
use ordered_table::Steps;
use seeded_draw::{Draw, Front};
use std::sync::ledger::Ledger;
use store_base::{Fault, Label, ReadSlots, Slot};

/// Looks for the page of the label. It leaves in `found` that page, or `None` exactly where the slots hold no such
/// page: so no page is copied on its way out. After a fault `found` may be anything.
///
/// There have to be as many slots as the draw's, and the entries have to be an index of them by its digests. The
/// front keeps what was digested of the label that was looked for last. Slots are read into the buffer. Each look at a
/// slot counts as a step. A fault of the slots ends the call; it writes nothing.
pub(crate) fn look_up<S: ReadSlots, W: Draw, L: Ledger>(
    slots: &mut S,
    guide: &Guide<'_, W>,
    label: &Label,
    front: &mut Front,
    slot: &mut Slot,
    found: &mut Option<Page>,
    steps: &mut Steps<L>,
) -> Result<(), Fault>
    requires count { (S.state slots.old).count ≡ (W.drawn guide.now.draw.now).slots }
    requires index { IsIndexOf (W.digests guide.now.draw.now)
        (S.state slots.old) guide.now.entries.now }
    ensures call { FindsPage (W.drawn guide.now.draw.now) (S.state slots.old)
        (S.state slots.new) label.now (answer_of result found.new) }
    ensures steps { (most : ℕ) → AreFewAlike guide.now.entries.now most → steps.new ≤ steps.old + most }
    ensures follows { S.follows slots.old slots.new }
{
    let digest = guide.draw.digest_from(front, label);
    find_page(slots, guide.entries, label, digest, slot, found, steps)
}
