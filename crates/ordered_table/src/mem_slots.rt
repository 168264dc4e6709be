//! Slots in memory, for tests: some calls fail on purpose.

ghost use Rattle.store_base.specs.SlotsState.{AreWhole};

use crate::order::OrderSlots;
use std::alloc::Global;
use store_base::{Fault, NoMemory, ReadSlots, Slots};
use store_model::{BLOCK, Slot};

/// Slots in memory. `get` and `set` take no memory.
///
/// Calls of `get` and `set` are numbered from 0, in the order in which they come. A call whose number is listed
/// answers `Fault::Disk` and does nothing; no other call fails.
#[derive(Drop)]
pub struct MemSlots {
    slots: Vec<Slot>,
    failing: Vec<u64>,
    calls: u64,
    faults: u64,
    ghost whole: { AreWhole slots.items },
}

impl MemSlots {
    ghost use Rattle.std.specs.Prelude.{◌≡◌, IfOk, replicate, if◌then◌else◌};
    ghost use Rattle.store_model.specs.Lists.{zeros};
    ghost use Rattle.store_base.specs.Counts.{raised};
    ghost use Rattle.ordered_table.specs.MemSlots.{mem_state, call_number, listed, will_fail};

    /// So many empty slots, of whose calls those fail whose numbers are listed. `NoMemory` where there is none for
    /// the slots.
    pub fn new(alloc: Global, slots: u32, failing: Vec<u64>) -> Result<MemSlots, NoMemory>
        ensures count { IfOk result (λ made. (mem_state made).count ≡ slots) }
        ensures empty { IfOk result
            (λ made. (mem_state made).slots ≡ replicate slots (zeros BLOCK)) }
        ensures listed { IfOk result (λ made. listed made ≡ failing.items) }
        ensures first { IfOk result (λ made. call_number made ≡ 0) }
        ensures faults { IfOk result (λ made. (mem_state made).faults ≡ 0) }
    {
        let mut empty = Vec::new(alloc);
        empty.resize(slots as usize, [0; BLOCK])?;
        Ok(MemSlots {
            slots: empty,
            failing,
            calls: 0,
            faults: 0,
        })
    }

    /// The slots, in order; it counts as no call.
    pub fn slots(&self) -> &[Slot]
        ensures { result.now ≡ (mem_state self.now).slots }
    {
        &self.slots
    }

    /// How many calls of `get` and `set` were made, those that failed among them; at most 2^64 - 1.
    pub fn calls(&self) -> u64
        ensures { result ≡ call_number self.now }
    {
        self.calls
    }

    /// Counts a call, and says whether it is to fail.
    fn takes_fault(&mut self) -> bool
        ensures answer { result ≡ will_fail self.old }
        ensures after { self.new ≡ record self.old {
          calls = raised self.old.calls;
          faults =
              if result then raised self.old.faults else self.old.faults;
        } }
    {
        let fails = self.failing.contains(&self.calls);
        self.calls = self.calls.saturating_add(1);
        if fails {
            self.faults = self.faults.saturating_add(1);
        }
        fails
    }
}

impl ReadSlots for MemSlots {
    ghost use Rattle.std.specs.Prelude.{◌≡◌, ◌<◌};
    ghost use Rattle.std.proofs.Common.{refl, ◌∙◌};
    ghost use Rattle.store_base.specs.SlotsState.{IsGet};
    ghost use Rattle.ordered_table.specs.MemSlots.{mem_state, listed, CountsCall, FailsAsTold};

    ghost state = { mem_state };

    ghost follows = { λ old new. listed new ≡ listed old };

    ghost counted = { λ slots observable. refl };

    ghost whole = { λ slots observable. slots.whole };

    ghost follows_refl = { λ slots. refl };

    ghost follows_trans = { λ old mid new first then. then ∙ first };

    fn get(&mut self, at: u32, into: &mut Slot) -> Result<(), Fault>
        requires { at < (mem_state self.old).count }
        ensures call { IsGet (mem_state self.old) (mem_state self.new) at into.new result }
        ensures follows { listed self.new ≡ listed self.old }
        ensures fails { FailsAsTold self.old result }
        ensures counts { CountsCall self.old self.new }
    {
        if self.takes_fault() {
            return Err(Fault::Disk);
        }
        *into = self.slots[at as usize];
        Ok(())
    }
}

impl Slots for MemSlots {
    ghost use Rattle.std.specs.Prelude.{◌≡◌, ◌<◌};
    ghost use Rattle.store_base.specs.SlotsState.{IsSet};
    ghost use Rattle.ordered_table.specs.MemSlots.{mem_state, listed, CountsCall, FailsAsTold};

    fn set(&mut self, at: u32, slot: &Slot) -> Result<(), Fault>
        requires { at < (mem_state self.old).count }
        ensures call { IsSet (mem_state self.old) (mem_state self.new) at slot.now result }
        ensures follows { listed self.new ≡ listed self.old }
        ensures fails { FailsAsTold self.old result }
        ensures counts { CountsCall self.old self.new }
    {
        if self.takes_fault() {
            return Err(Fault::Disk);
        }
        self.slots[at as usize] = *slot;
        Ok(())
    }
}

impl OrderSlots for MemSlots {}
