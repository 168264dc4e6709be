//! The way of a page from its start to its slot.

ghost use Rattle.std.specs.Prelude.{◌≡◌, ℕ, ◌<◌, ◌≤◌, ◌↔◌, IsTrue, length, None, slice_index};
ghost use Rattle.std.specs.declared.cmp.Ordering.TheVariants.{Less};
ghost use Rattle.std.specs.Ordering.{nat_cmp};
ghost use Rattle.std.specs.Cmp.Lexicographic.{slice_cmp};
ghost use Rattle.store_model.specs.Labels.{label_bytes};
ghost use Rattle.store_model.specs.Pages.{Page, IsPage};
ghost use Rattle.store_model.specs.Images.{slot_bytes};
ghost use Rattle.table_walk.specs.Rounds.{HoldsLess, Passes};
ghost use Rattle.table_walk.specs.Windows.{IsWindowOf};

use crate::round::Round;
use crate::window::Window;
use ordered_table::{Steps, order_of};
use std::cmp::Ordering;
use std::sync::ledger::Ledger;
use store_base::{Fault, Label, ReadSlots};
use store_model::Slot;

/// A page in its slot.
#[derive(Drop)]
pub(crate) struct Standing {
    /// Its label.
    pub(crate) label: Label,
    /// The place of its slot.
    pub(crate) place: u32,
    /// How many slots of its probe sequence lie before its slot.
    pub(crate) way: u32,
}

/// Whether a slot holds a page of a smaller label than that of these bytes.
fn holds_less(slot: &Slot, wanted: &[u8; 130]) -> bool
    ensures { HoldsLess slot.now wanted.now result }
{
    matches!(order_of(slot, wanted), Some(Ordering::Less))
}

/// Whether each slot on the way of a page holds a smaller label: from what place on they are known to, and `None`
/// where one does not.
///
/// `reach` tells of each place before the page's from where on the labels up to it are known to be smaller than the one
/// there; these are jumped over. Each slot that is looked at counts as a step. It is read into `there`, or copied where
/// the window has it.
///
/// The way has to lie behind place 0. A fault of the slots ends the call.
pub(crate) fn passed_from<S: ReadSlots, L: Ledger>(
    slots: &mut S,
    round: &Round,
    page: &Standing,
    reach: &[u16],
    window: &Window,
    there: &mut Slot,
    steps: &mut Steps<L>,
) -> Result<Option<u32>, Fault>
    requires count { (S.state slots.old).count ≡ round.now.count }
    requires place { page.now.place < round.now.count }
    requires way { page.now.way ≤ page.now.place }
    requires room { page.now.place ≤ length reach.now }
    requires back { (place : ℕ) → place < page.now.place → slice_index reach.now place ≤ place }
    requires window { IsWindowOf (S.state slots.old) window.now }
    ensures call { Passes round.now (S.state slots.old)
        (S.state slots.new) page.now reach.now steps.old steps.new result }
    ensures follows { S.follows slots.old slots.new }
{
    let wanted = page.label.to_bytes();
    let mut from = page.place;
    while page.place - from < page.way {
        steps.tick();
        window.get(slots, round.slot(from - 1), there)?;
        if !holds_less(there, &wanted) {
            return Ok(None);
        }
        from = u32::from(reach[from as usize - 1]);
    }
    Ok(Some(from))
}
