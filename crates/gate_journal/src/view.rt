//! The slots of the image that a disk recovers to, read without recovering it.
ghost use Rattle.std.specs.Prelude.{◌≡◌, ◌+◌, ◌-◌, ◌*◌, ◌≤◌, length, OnOk, IfOk};
ghost use Rattle.store_model.specs.Parameters.{IsParameters, image_len, block_len};
ghost use Rattle.store_model.specs.Images.{bytes_at, recovered_slot};
ghost use Rattle.disk_model.specs.DiskState.{DiskState, IsObservable};
ghost use Rattle.gate_journal.specs.JournalCaches.{IsJournalCacheOf, HasSlot, ReadsJournal};
ghost use Rattle.gate_journal.specs.ViewState.{HasRecovered, viewed, viewed_count, viewed_whole};
ghost use Rattle.gate_journal.specs.ViewState.{KeepsView, KeepsView-refl, KeepsView-trans};

use crate::journal_cache::JournalCache;
use disk_model::Disk;
use store_base::{DiskFault, Fault, Params, ReadSlots, shadow_at, table_at};
use store_model::{BLOCK, Slot};

/// Where the bytes lie that recovery leaves in this slot.
fn recovered_place<D: Disk>(
    disk: &mut D,
    cache: &mut JournalCache,
    slots: u32,
    slot: u32,
) -> Result<u64, DiskFault>
    requires { HasSlot slots slot (D.state disk.old) cache.old }
    ensures journal { ReadsJournal (D.state disk.old) (D.state disk.new) cache.new result }
    ensures within { IfOk result (λ place. place + block_len ≤ image_len slots) }
    ensures value { IsObservable (D.state disk.old)
        → IfOk result (λ place. bytes_at (D.state disk.old).bytes place block_len
        ≡ recovered_slot slots (D.state disk.old).bytes slot) }
{
    if cache.is_redone(disk, slots, slot)? {
        Ok(shadow_at(slots, slot))
    } else {
        Ok(table_at(slots, slot))
    }
}

/// Reads what recovery leaves in this slot. What the cache has of the journal is not read again.
pub fn read_recovered<D: Disk>(
    disk: &mut D,
    cache: &mut JournalCache,
    slots: u32,
    slot: u32,
    into: &mut Slot,
) -> Result<(), DiskFault>
    requires { HasSlot slots slot (D.state disk.old) cache.old }
    ensures journal { ReadsJournal (D.state disk.old) (D.state disk.new) cache.new result }
    ensures slot { IsObservable (D.state disk.old)
        → OnOk result (into.new ≡ recovered_slot slots (D.state disk.old).bytes slot) }
{
    let place = recovered_place(disk, cache, slots, slot)?;
    disk.read_at(place, into)
}

/// Reads what recovery leaves in slots one behind the other, from this one on, and says in how many: as many as the
/// buffer has room for, or one where the commit flag is set, since then each may lie in the journal or in the table.
fn read_some<D: Disk>(
    disk: &mut D,
    cache: &mut JournalCache,
    slots: u32,
    slot: u32,
    into: &mut [u8],
) -> Result<u32, DiskFault>
    requires slot { HasSlot slots slot (D.state disk.old) cache.old }
    requires room { block_len ≤ length into.old }
    requires within { length into.old ≤ block_len * (slots - slot) }
    ensures journal { ReadsJournal (D.state disk.old) (D.state disk.new) cache.new result }
    ensures some { IfOk result (λ count. 1 ≤ count) }
    ensures room { IfOk result (λ count. block_len * count ≤ length into.new) }
    ensures slots { IsObservable (D.state disk.old)
        → IfOk result (HasRecovered slots (D.state disk.old).bytes slot into.new) }
{
    if cache.is_flag_set(disk)? {
        let place = recovered_place(disk, cache, slots, slot)?;
        disk.read_at(place, &mut into[..BLOCK])?;
        return Ok(1);
    }
    disk.read_at(table_at(slots, slot), into)?;
    Ok((into.len() / BLOCK) as u32)
}

/// The slots of the image that a disk recovers to, read through the journal; the disk is not written.
///
/// The commit flag is read once, and the marks by block: for slots asked in order, each block of them once. Its calls
/// take no memory, and its faults are the disk's.
#[derive(Drop)]
pub struct View<D: Disk> {
    disk: D,
    params: Params,
    cache: JournalCache,
    ghost sized: { (D.state disk).size ≡ image_len params.slots },
    ghost cached: { IsJournalCacheOf (D.state disk) cache },
}

impl<D: Disk> View<D> {
    ghost use Rattle.gate_journal.specs.View.{disk_of, params_of};

    /// The view on a disk of the length of these parameters.
    pub fn new(disk: D, params: &Params) -> View<D>
        requires { (D.state disk).size ≡ image_len params.now.slots }
        ensures disk { disk_of result ≡ disk }
        ensures params { params_of result ≡ params.now }
    {
        View {
            disk,
            params: *params,
            cache: JournalCache::new(),
        }
    }

    /// The disk below.
    pub fn disk(&self) -> &D
        ensures { result.now ≡ disk_of self.now }
    {
        &self.disk
    }

    /// Hands the disk back.
    pub fn into_disk(self) -> D
        ensures { result ≡ disk_of self }
    {
        let View { disk, .. } = self;
        disk
    }
}

impl<D: Disk> ReadSlots for View<D> {
    ghost use Rattle.gate_journal.specs.View.{disk_of, params_of};

    ghost state = { λ view. viewed (params_of view).slots (D.state (disk_of view)) };

    ghost follows = { λ old new. KeepsView (params_of old) (params_of new) (D.state (disk_of old))
        (D.state (disk_of new)) };

    ghost counted = { λ view observable.
        viewed_count (params_of view).slots (D.state (disk_of view)) };

    ghost whole = { λ view observable. viewed_whole (params_of view).slots (D.state (disk_of view))
        (D.sound (disk_of view) observable) view.sized };

    ghost follows_refl = { λ view. KeepsView-refl (params_of view) (D.state (disk_of view))
        (D.sound (disk_of view)) };

    ghost follows_trans = { λ old mid new.
        KeepsView-trans (params_of old) (params_of mid) (params_of new)
        (D.state (disk_of old)) (D.state (disk_of mid)) (D.state (disk_of new)) };

    fn get(&mut self, at: u32, into: &mut Slot) -> Result<(), Fault> {
        Ok(read_recovered(
            &mut self.disk,
            &mut self.cache,
            self.params.slots(),
            at,
            into,
        )?)
    }

    fn get_some(&mut self, at: u32, into: &mut [u8]) -> Result<u32, Fault> {
        Ok(read_some(
            &mut self.disk,
            &mut self.cache,
            self.params.slots(),
            at,
            into,
        )?)
    }
}
