//! Slots that are read ahead.

ghost use Rattle.std.specs.Prelude.{◌≡◌, ◌↔◌, ◌≤◌, ◌<◌, ◌+◌, ◌*◌, IsTrue, IfOk, OnOk, replicate};
ghost use Rattle.store_model.specs.Parameters.{slots_limit, block_len};
ghost use Rattle.store_base.specs.SlotsState.{IsGet};
ghost use Rattle.table_walk.specs.Contents.{TellsContent};
ghost use Rattle.table_walk.specs.Windows.{IsWindowOf, Holds, held_slot};

use crate::content::{Content, content_of};
use store_base::{Fault, READ_LEN, ReadSlots, Slot};
use store_model::BLOCK;

/// Slots that were read, one behind the other. Where slots are asked in order, several are read by one call.
#[derive(Drop)]
pub(crate) struct Window {
    /// The first slot.
    first: u32,
    /// How many slots were read.
    count: u32,
    /// Their bytes.
    bytes: [u8; READ_LEN],
}

impl Window {
    /// Makes a window with no slot.
    pub(crate) fn new() -> Window
        ensures { result.count ≡ 0 }
    {
        Window {
            first: 0,
            count: 0,
            bytes: [0; READ_LEN],
        }
    }

    /// Whether the window has slot `at`.
    fn has(&self, at: u32) -> bool
        ensures { IsTrue result ↔ Holds self.now at }
    {
        self.first <= at && at - self.first < self.count
    }

    /// Sees to it that the window has slot `at`: reads it and slots behind it, unless it has it.
    fn load<S: ReadSlots>(&mut self, slots: &mut S, count: u32, at: u32) -> Result<(), Fault>
        requires count { (S.state slots.old).count ≡ count }
        requires most { count ≤ slots_limit }
        requires below { at < count }
        requires window { IsWindowOf (S.state slots.old) self.old }
        ensures call { IsGet (S.state slots.old) (S.state slots.new) at (held_slot self.new at)
            result }
        ensures window { IsWindowOf (S.state slots.new) self.new }
        ensures holds { OnOk result (Holds self.new at) }
        ensures follows { S.follows slots.old slots.new }
    {
        if self.has(at) {
            return Ok(());
        }
        // Nothing is kept of a read that fails.
        self.count = 0;
        let len = READ_LEN.min((count - at) as usize * BLOCK);
        let read = slots.get_some(at, &mut self.bytes[..len])?;
        self.first = at;
        self.count = read;
        Ok(())
    }

    /// The bytes of a slot that the window has.
    fn slot(&self, at: u32) -> &Slot
        requires room { block_len * self.now.count ≤ READ_LEN }
        requires holds { Holds self.now at }
        ensures { result.now ≡ held_slot self.now at }
    {
        let (slots, _) = self.bytes.as_chunks();
        &slots[(at - self.first) as usize]
    }

    /// Reads slot `at` into the buffer; where the window has it, it is copied. After a fault the buffer may hold
    /// anything.
    pub(crate) fn get<S: ReadSlots>(
        &self,
        slots: &mut S,
        at: u32,
        into: &mut Slot,
    ) -> Result<(), Fault>
        requires below { at < (S.state slots.old).count }
        requires window { IsWindowOf (S.state slots.old) self.now }
        ensures call { IsGet (S.state slots.old) (S.state slots.new) at into.new result }
        ensures follows { S.follows slots.old slots.new }
    {
        if self.has(at) {
            *into = *self.slot(at);
            return Ok(());
        }
        slots.get(at, into)
    }

    /// What slot `at` holds, of so many, in a table of lists of this height.
    pub(crate) fn content<S: ReadSlots>(
        &mut self,
        slots: &mut S,
        count: u32,
        at: u32,
        height: u8,
    ) -> Result<Content, Fault>
        requires count { (S.state slots.old).count ≡ count }
        requires most { count ≤ slots_limit }
        requires below { at < count }
        requires window { IsWindowOf (S.state slots.old) self.old }
        ensures call { IsGet (S.state slots.old) (S.state slots.new) at (held_slot self.new at)
            result }
        ensures window { IsWindowOf (S.state slots.new) self.new }
        ensures tells { IfOk result (TellsContent (held_slot self.new at) height) }
        ensures follows { S.follows slots.old slots.new }
    {
        self.load(slots, count, at)?;
        Ok(content_of(self.slot(at), height))
    }
}
