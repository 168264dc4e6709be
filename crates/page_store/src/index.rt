//! Where all pages lie, where searches for them go far.

ghost use Rattle.std.specs.Prelude.{◌≡◌, IfOk, OnOk, None};
ghost use Rattle.std.specs.Bool.{OnTrue};
ghost use Rattle.store_model.specs.Labels.{IsLabel};
ghost use Rattle.page_store.specs.Lookups.{Consults};
ghost use Rattle.page_store.specs.Indexes.{IsIndexOf, NotesOne, NotesNothing};

use node_pages::label_in;
use seeded_draw::{Draw, Front};
use std::collections::BTreeMap;
use store_base::{Fault, Label, NoMemory, ReadSlots};
use store_model::{BLOCK, Slot};

/// Notes the slot of a page, `at`, under the digest of the page's label, if the slot holds one.
fn note<W: Draw>(
    index: &mut BTreeMap<u64, u32>,
    draw: &W,
    front: &mut Front,
    at: u32,
    slot: &Slot,
) -> Result<(), NoMemory>
    ensures { OnOk result
        (NotesOne (W.digests draw.now) index.old.entries slot.now index.new.entries) }
{
    if let Some(label) = label_in(slot) {
        let digest = draw.digest_from(front, &label);
        index.insert(digest, at)?;
    }
    Ok(())
}

/// Notes the slot of each page under the digest of its label, and tells whether there was memory for all. Each slot is
/// read once. A fault of the slots ends the call.
pub fn note_slots<S: ReadSlots, W: Draw>(
    slots: &mut S,
    draw: &W,
    index: &mut BTreeMap<u64, u32>,
) -> Result<bool, Fault>
    requires { (S.state slots.old).count ≡ (W.drawn draw.now).slots }
    ensures call { Consults (S.state slots.old) (S.state slots.new) result }
    ensures index { IfOk result (λ all. OnTrue all
        (IsIndexOf (W.digests draw.now) (S.state slots.new) index.new.entries)) }
    ensures follows { S.follows slots.old slots.new }
{
    let mut front = Front::new();
    let mut there = [0; BLOCK];
    for at in 0..draw.slots() {
        slots.get(at, &mut there)?;
        if note(index, draw, &mut front, at, &there).is_err() {
            return Ok(false);
        }
    }
    Ok(true)
}

/// The slot that is noted for the label; `None` where none is: then no slot holds its page.
pub fn noted<W: Draw>(index: &BTreeMap<u64, u32>, draw: &W, label: &Label) -> Option<u32>
    ensures nothing { result ≡ None → NotesNothing (W.digests draw.now) index.now.entries label.now }
    ensures valid { IsLabel label.now }
{
    index
        .get(&draw.digest_from(&mut Front::new(), label))
        .copied()
}

/// Forgets the index, if there is one. It takes no memory.
pub fn forget(index: &mut Option<BTreeMap<u64, u32>>)
    ensures { index.new ≡ None }
{
    *index = None;
}
