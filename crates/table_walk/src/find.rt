//! The lookup of a page by its label.

ghost use Rattle.std.specs.Prelude.{◌≡◌, ℕ, ◌+◌, ◌<◌, ◌≤◌, length};
ghost use Rattle.table_walk.specs.Indexes.{AreThere, AreFewAlike, IsPast};
ghost use Rattle.table_walk.specs.IndexLookups.{LooksUp, answer_of};

use crate::entry::Entry;
use crate::read::page_in;
use node_pages::Page;
use ordered_table::Steps;
use std::sync::ledger::Ledger;
use store_base::{Fault, Label, ReadSlots, Slot};

/// Where the entries of the digest begin, or those of the next greater one.
fn first_of(entries: &[Entry], digest: u64) -> usize
    ensures within { result ≤ length entries.now }
    ensures past { IsPast entries.now digest result }
{
    entries.partition_point(|entry| entry.digest < digest)
}

/// Looks for the page of the label, which has this digest, by an index of the slots. It leaves in `found` that page, or
/// `None` exactly where no slot holds such a page: so no page is copied on its way out. The digest has to be the one
/// that the index was made with. After a fault `found` may be anything.
///
/// It reads the slots of the entries that have this digest into the buffer, one after another, until one holds the
/// page. Each look at a slot counts as a step. The slots that entries name have to be there. A fault of the slots ends
/// the call; it writes nothing, and takes no memory.
pub fn find_page<S: ReadSlots, L: Ledger>(
    slots: &mut S,
    entries: &[Entry],
    label: &Label,
    digest: u64,
    slot: &mut Slot,
    found: &mut Option<Page>,
    steps: &mut Steps<L>,
) -> Result<(), Fault>
    requires { AreThere (S.state slots.old).count entries.now }
    ensures call { LooksUp (S.state slots.old)
        (S.state slots.new) entries.now label.now digest (answer_of result found.new) }
    ensures steps { (most : ℕ) → AreFewAlike entries.now most → steps.new ≤ steps.old + most }
    ensures follows { S.follows slots.old slots.new }
{
    *found = None;
    let first = first_of(entries, digest);
    for at in first..entries.len() {
        let entry = entries[at];
        if entry.digest != digest {
            return Ok(());
        }
        steps.tick();
        page_in(slots, entry.slot, label, slot, found)?;
        if found.is_some() {
            return Ok(());
        }
    }
    Ok(())
}
