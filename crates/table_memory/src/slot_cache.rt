//! Slots of a table that were read, kept in memory.

ghost use Rattle.std.specs.Prelude.{◌≡◌, ◌<◌, ◌≤◌, ℕ, List, [], Some, IfOk, IfSome, length};
ghost use Rattle.std.specs.Bool.{OnTrue};
ghost use Rattle.store_model.specs.Parameters.{image_len, slots_limit};
ghost use Rattle.table_memory.specs.SlotCaches.{kept_at, KeepsAll, KeepsNoMore, KeepsOne, Rewrites, changes_of};
ghost use Rattle.table_memory.specs.SlotCaches.{RewritesFirst, most_kept, IsSlotCacheOf, ReadsSlot, IsOfKept};
ghost use Rattle.table_memory.specs.SlotCaches.{TellsOfSlot};

use crate::boxed::Boxed;
use crate::spares::Spares;
use crate::told::Told;
use disk_model::Disk;
use lru::LruCache;
use std::alloc::Global;
use std::marker::Model;
use std::num::NonZeroUsize;
use store_base::{DiskFault, NoMemory, table_at};
use store_model::{BLOCK, Slot};

/// How many slots are kept.
const KEPT_SLOTS: usize = 64;

/// The slots of a table that were asked for last, at most `KEPT_SLOTS`. Contracts see each with its number.
#[derive(Drop)]
pub struct SlotCache {
    alloc: Global,
    slots: LruCache<u32, Boxed<Slot>>,
}

impl Model for SlotCache {
    ghost use Rattle.std.specs.Prelude.{ℕ, List};
    ghost use Rattle.std.specs.Coded.{coded×, coded_ℕ, coded_list};
    ghost use Rattle.table_memory.specs.SlotCaches.{KeepsFew};

    ghost Value = { List (ℕ × List ℕ) };

    ghost coded = { coded_list (coded× coded_ℕ (coded_list coded_ℕ)) };

    ghost view = { λ cache. cache.slots.entries };

    ghost invariant = { λ cache. KeepsFew cache.slots };
}

impl SlotCache {
    /// Makes a cache that keeps no slot yet.
    pub fn new(alloc: Global) -> Result<SlotCache, NoMemory>
        ensures { IfOk result (λ cache. cache ≡ []) }
    {
        let most = NonZeroUsize::new(KEPT_SLOTS).unwrap_or(NonZeroUsize::MIN);
        Ok(SlotCache {
            alloc,
            slots: LruCache::new(alloc, most)?,
        })
    }

    /// How many slots are kept. It takes no memory.
    pub fn count(&self) -> usize
        ensures kept { result ≡ length self.now }
        ensures few { result ≤ most_kept }
    {
        self.slots.len()
    }

    /// Copies the slot into the buffer where it is kept, and tells whether it is. It takes no memory.
    fn fetch(&mut self, at: u32, into: &mut Slot) -> bool
        ensures found { OnTrue result (kept_at self.old at ≡ Some into.new) }
        ensures kept { KeepsAll self.old self.new }
    {
        let Some(slot) = self.slots.get(&at) else {
            return false;
        };
        into.copy_from_slice(slot.get());
        true
    }

    /// What is told of the slot by these bytes, where it is kept. It takes no memory.
    fn tell<T: Told>(&mut self, at: u32, wanted: &[u8]) -> Option<T>
        ensures told { IfSome result
            (IsOfKept self.old at (λ slot told. T.of slot wanted.now told)) }
        ensures kept { KeepsAll self.old self.new }
    {
        let slot = self.slots.get(&at)?;
        Some(T::tell(slot.get(), wanted))
    }

    /// Keeps a slot, where there is memory for it. If there are too many then, the one asked for longest ago goes.
    fn keep(&mut self, at: u32, slot: &Slot)
        ensures { KeepsOne self.old self.new at slot.now }
    {
        // Without memory for it the slot is left out.
        if let Ok(kept) = Boxed::new(self.alloc, *slot) {
            self.keep_box(at, kept);
        }
    }

    /// As `keep`, of a slot in a box.
    fn keep_box(&mut self, at: u32, slot: Boxed<Slot>)
        ensures { KeepsOne self.old self.new at slot }
    {
        let _ = self.slots.put(at, slot);
    }

    /// Gives up the slot that was asked for longest ago, where as many are kept as may be. It takes no memory.
    fn give_up(&mut self) -> Option<Boxed<Slot>>
        ensures { KeepsNoMore self.old self.new }
    {
        if self.slots.len() < KEPT_SLOTS {
            return None;
        }
        let (_, slot) = self.slots.pop_lru()?;
        Some(slot)
    }

    /// Gives a slot that is kept its new bytes, and hands out a box that is left over. It takes no memory.
    fn rewrite(&mut self, at: u32, slot: Boxed<Slot>) -> Option<Boxed<Slot>>
        ensures { Rewrites self.old self.new at slot }
    {
        if !self.slots.contains(&at) {
            return Some(slot);
        }
        // The slot is kept already, so the call takes no memory.
        self.slots.put(at, slot).ok().flatten()
    }

    /// Gives the slots that are kept their new bytes; boxes that are left over are spared. It takes no memory but for
    /// these.
    pub fn rewrite_all(&mut self, changed: Vec<(u32, Boxed<Slot>)>, spares: &mut Spares<Slot>)
        ensures { RewritesFirst (length changed.items)
            (changes_of changed.items) self.old self.new }
    {
        for (at, slot) in changed {
            spares.take(self.rewrite(at, slot));
        }
    }

    /// Keeps no slot any more. It takes no memory.
    pub fn clear(&mut self)
        ensures { self.new ≡ [] }
    {
        self.slots.clear();
    }
}

/// Reads this slot of the table of a disk that has so many; what is kept of it is not read again.
/// After `DiskFault` the buffer may hold anything.
pub fn read_slot<D: Disk>(
    disk: &mut D,
    cache: &mut SlotCache,
    slots: u32,
    at: u32,
    into: &mut Slot,
) -> Result<(), DiskFault>
    requires in_range { slots ≤ slots_limit }
    requires below { at < slots }
    requires size { (D.state disk.old).size ≡ image_len slots }
    requires cached { IsSlotCacheOf slots (D.state disk.old) cache.old }
    ensures call { ReadsSlot slots at (D.state disk.old)
        (D.state disk.new) cache.new into.new result }
{
    if cache.fetch(at, into) {
        return Ok(());
    }
    disk.read_at(table_at(slots, at), into)?;
    cache.keep(at, into);
    Ok(())
}

/// Asks a slot of the table of a disk, which has so many, what it tells by these bytes (`Told`). A slot that is kept
/// is not copied for it, and is not read again. After `DiskFault` what is kept is still the table's, and may be one
/// slot less.
pub fn tell_slot<D: Disk, T: Told>(
    disk: &mut D,
    cache: &mut SlotCache,
    slots: u32,
    at: u32,
    wanted: &[u8],
) -> Result<T, DiskFault>
    requires in_range { slots ≤ slots_limit }
    requires below { at < slots }
    requires size { (D.state disk.old).size ≡ image_len slots }
    requires cached { IsSlotCacheOf slots (D.state disk.old) cache.old }
    ensures call { TellsOfSlot slots at (D.state disk.old)
        (D.state disk.new) cache.new (λ slot told. T.of slot wanted.now told) result }
{
    match cache.tell(at, wanted) {
        Some(told) => Ok(told),
        None => load_and_tell(disk, cache, slots, at, wanted),
    }
}

/// As `tell_slot`, of a slot that is not kept: it is read into the box of the one that it takes the place of.
fn load_and_tell<D: Disk, T: Told>(
    disk: &mut D,
    cache: &mut SlotCache,
    slots: u32,
    at: u32,
    wanted: &[u8],
) -> Result<T, DiskFault>
    requires in_range { slots ≤ slots_limit }
    requires below { at < slots }
    requires size { (D.state disk.old).size ≡ image_len slots }
    requires cached { IsSlotCacheOf slots (D.state disk.old) cache.old }
    ensures call { TellsOfSlot slots at (D.state disk.old)
        (D.state disk.new) cache.new (λ slot told. T.of slot wanted.now told) result }
{
    let Some(mut slot) = cache.give_up() else {
        return read_and_tell(disk, cache, slots, at, wanted);
    };
    slot.read(disk, table_at(slots, at))?;
    let told = T::tell(slot.get(), wanted);
    cache.keep_box(at, slot);
    Ok(told)
}

/// As `tell_slot`, of a slot that is not kept, while fewer are kept than may be.
// It stands apart, since each call of `tell_slot` would clear its slot.
#[inline(never)]
fn read_and_tell<D: Disk, T: Told>(
    disk: &mut D,
    cache: &mut SlotCache,
    slots: u32,
    at: u32,
    wanted: &[u8],
) -> Result<T, DiskFault>
    requires in_range { slots ≤ slots_limit }
    requires below { at < slots }
    requires size { (D.state disk.old).size ≡ image_len slots }
    requires cached { IsSlotCacheOf slots (D.state disk.old) cache.old }
    ensures call { TellsOfSlot slots at (D.state disk.old)
        (D.state disk.new) cache.new (λ slot told. T.of slot wanted.now told) result }
{
    let mut there = [0; BLOCK];
    read_slot(disk, cache, slots, at, &mut there)?;
    Ok(T::tell(&there, wanted))
}
