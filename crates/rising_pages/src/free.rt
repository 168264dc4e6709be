//! Which slots are free.

ghost use Rattle.std.specs.Prelude.{◌≡◌, ℕ, ◌+◌, ◌<◌, ◌≤◌, List, length, map, replicate, true, IfOk, IfSome, Some};
ghost use Rattle.std.specs.Prelude.{slice_get, slice_index};
ghost use Rattle.std.specs.List.{find};
ghost use Rattle.store_model.specs.Lists.{numbers_below};
ghost use Rattle.store_model.specs.Parameters.{slots_limit};
ghost use Rattle.store_model.specs.Placement.{Table, probe, is_free};
ghost use Rattle.rising_pages.specs.FreePlaces.{AreFree, taken_at, free_of, LeadsOn};

use std::alloc::Global;
use std::marker::Model;
use store_base::NoMemory;

/// Which slots of a table are free. Contracts see the list that says so of each slot.
///
/// Each slot that is taken leads to a later one, past slots that are all taken. So the first free slot of a probe
/// sequence is found in a few steps, however long the stretch of taken slots is.
#[derive(Drop)]
pub struct FreeSlots {
    /// For each slot itself while it is free, and else a later place; behind them the place behind the last slot.
    next: Vec<u32>,
}

impl Model for FreeSlots {
    ghost use Rattle.std.specs.Prelude.{List, Bool};
    ghost use Rattle.rising_pages.specs.FreePlaces.{free_of, LeadsOn};

    ghost Value = { List Bool };

    ghost view = { λ f. free_of f.next.items };

    ghost invariant = { λ f. LeadsOn f.next.items };
}

/// The first free place from this one on, which may be the place behind the last slot. The places that are passed lead
/// further behind it.
fn first_from(next: &mut [u32], from: usize) -> usize
    requires leads { LeadsOn next.old }
    requires within { from < length next.old }
    ensures leads { LeadsOn next.new }
    ensures same { free_of next.new ≡ free_of next.old }
    ensures behind { from ≤ result }
    ensures within { result < length next.old }
    ensures free { slice_index next.new result ≡ result }
    ensures passed { (i : ℕ) → from ≤ i → i < result → slice_index next.old i ≡ i → ⊥ }
{
    let mut at = from;
    while next[at] as usize != at {
        let after = next[at] as usize;
        next[at] = next[after];
        at = after;
    }
    at
}

/// The first free slot from `start` on, going round the end, if one is free.
fn first_round(next: &mut [u32], start: usize) -> Option<usize>
    requires leads { LeadsOn next.old }
    requires within { start + 1 < length next.old }
    ensures leads { LeadsOn next.new }
    ensures same { free_of next.new ≡ free_of next.old }
    ensures within { IfSome result (λ at. at + 1 < length next.old) }
    ensures free { IfSome result (λ at. slice_index next.new at ≡ at) }
    ensures first { (table : Table) → AreFree table (free_of next.old)
        → result ≡ find (is_free table) (map (probe (length table) start)
        (numbers_below (length table))) }
{
    let slots = next.len() - 1;
    let behind = first_from(next, start);
    if behind < slots {
        return Some(behind);
    }
    let before = first_from(next, 0);
    if before < slots { Some(before) } else { None }
}

impl FreeSlots {
    /// So many slots, all free.
    pub fn new(alloc: Global, slots: u32) -> Result<Self, NoMemory>
        requires { slots ≤ slots_limit }
        ensures { IfOk result (λ free. free ≡ replicate slots true) }
    {
        let mut next = Vec::with_capacity(alloc, slots as usize + 1)?;
        for place in 0..slots + 1 {
            next.push(place)?;
        }
        Ok(FreeSlots { next })
    }

    /// Whether the slot is free.
    pub fn is_free(&self, slot: u32) -> bool
        requires { slot < length self.now }
        ensures { slice_get self.now slot ≡ Some result }
    {
        self.next[slot as usize] == slot
    }

    /// Takes the first free slot of the probe sequence that begins at `start`. `None` comes where none is free.
    pub fn take_first(&mut self, start: u32) -> Option<u32>
        requires { start < length self.old }
        ensures first { (table : Table) → AreFree table self.old
            → result ≡ find (is_free table)
            (map (probe (length table) start) (numbers_below (length table))) }
        ensures taken { self.new ≡ taken_at self.old result }
        ensures within { IfSome result (λ at. at < length self.old) }
    {
        let at = first_round(&mut self.next, start as usize)?;
        self.next[at] = at as u32 + 1;
        Some(at as u32)
    }
}
