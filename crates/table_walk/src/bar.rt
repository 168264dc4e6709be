//! A slot that no page passes.

ghost use Rattle.std.specs.Prelude.{◌≡◌, ◌<◌};
ghost use Rattle.table_walk.specs.Rounds.{FindsBar};

use node_pages::label_in;
use ordered_table::Steps;
use std::sync::ledger::Ledger;
use store_base::{Fault, Label, Lead, ReadSlots};
use store_model::BLOCK;

/// Finds a slot that no page of a table in order passes on its way from its start: the first one that is free, or,
/// where none is, that of the greatest label. Each look at a slot counts as a step.
///
/// There has to be a slot. A fault of the slots ends the call.
pub(crate) fn find_bar<S: ReadSlots, L: Ledger>(
    slots: &mut S,
    count: u32,
    steps: &mut Steps<L>,
) -> Result<u32, Fault>
    requires count { (S.state slots.old).count ≡ count }
    requires some { 0 < count }
    ensures call { FindsBar (S.state slots.old) (S.state slots.new) steps.old steps.new result }
    ensures follows { S.follows slots.old slots.new }
{
    let mut there = [0; BLOCK];
    let mut bar = 0;
    let mut greatest = Label {
        level: 0,
        lead: Lead::Start,
        index: 0,
    };
    for at in 0..count {
        steps.tick();
        slots.get(at, &mut there)?;
        let Some(label) = label_in(&there) else {
            return Ok(at);
        };
        if at == 0 || greatest < label {
            bar = at;
            greatest = label;
        }
    }
    Ok(bar)
}
