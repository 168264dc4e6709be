//! The slots of a table on a disk, with some of them changed in memory.

ghost use Rattle.std.specs.Prelude.{◌≡◌, ◌<◌, ℕ, List, length, Some, []};
ghost use Rattle.store_model.specs.Parameters.{image_len, block_len};
ghost use Rattle.disk_model.specs.DiskState.{IsObservable};
ghost use Rattle.table_memory.specs.SlotCaches.{IsSlotCacheOf};
ghost use Rattle.table_memory.specs.OverlayState.{touched_at, overlaid, overlaid_count, overlaid_whole};
ghost use Rattle.gate_journal.specs.ViewState.{KeepsView, KeepsView-refl, KeepsView-trans};

use crate::label_order::LabelOrder;
use disk_model::Disk;
use ordered_table::{OrderSlots, order_of};
use std::alloc::Global;
use std::cmp::Ordering;
use std::collections::BTreeMap;
use store_base::{Fault, Params, ReadSlots, Slots};
use store_model::Slot;
use table_memory::{Boxed, SlotCache, Spares, read_slot, tell_slot};

/// The slots of the table of a disk. It keeps in memory the slots that were written, and those that were read last.
/// The disk is only read.
#[derive(Drop)]
pub struct Overlay<D: Disk> {
    /// Where memory is taken.
    pub alloc: Global,
    /// The disk.
    pub disk: D,
    /// What its image is made with.
    pub params: Params,
    /// The slots that were written, each under its number.
    pub touched: BTreeMap<u32, Boxed<Slot>>,
    /// Slots of the disk, those that were read last.
    pub cache: SlotCache,
    /// Boxes for slots that are to be written.
    pub spares: Spares<Slot>,
    /// How many slots were looked at, by `order`, less those that are taken off.
    pub looks: u32,
    pub ghost sized: { (D.state disk).size ≡ image_len params.slots },
    pub ghost within: { (i : ℕ) (slot : List ℕ)
        → touched_at touched.entries i ≡ Some slot → i < params.slots },
    pub ghost filled: { (i : ℕ) (slot : List ℕ) → touched_at touched.entries i ≡ Some slot
        → length slot ≡ block_len },
    pub ghost cached: { IsSlotCacheOf params.slots (D.state disk) cache },
}

impl<D: Disk> Overlay<D> {
    ghost use Rattle.page_store.specs.Overlays.{disk_of, params_of, touched_of};

    /// Makes an overlay with nothing written: the slots are as the disk has them. The disk has the length of these
    /// parameters, and the cache keeps slots of its table.
    pub fn new(alloc: Global, disk: D, params: &Params, cache: SlotCache) -> Overlay<D>
        requires size { (D.state disk).size ≡ image_len params.now.slots }
        requires cached { IsSlotCacheOf params.now.slots (D.state disk) cache }
        ensures disk { disk_of result ≡ disk }
        ensures params { params_of result ≡ params.now }
        ensures untouched { touched_of result ≡ [] }
    {
        Overlay {
            alloc,
            disk,
            params: *params,
            touched: BTreeMap::new(alloc),
            cache,
            spares: Spares::new(alloc),
            looks: 0,
        }
    }

    /// Hands the disk back.
    pub fn into_disk(self) -> D
        ensures { result ≡ disk_of self }
    {
        let Overlay {
            alloc: _,
            disk,
            params: _,
            touched: _,
            cache: _,
            spares: _,
            looks: _,
        } = self;
        disk
    }
}

impl<D: Disk> ReadSlots for Overlay<D> {
    ghost use Rattle.page_store.specs.Overlays.{disk_of, params_of, touched_of};

    ghost state = { λ o. overlaid (params_of o).slots (touched_of o) (D.state (disk_of o)) };

    ghost follows = { λ old new. KeepsView (params_of old) (params_of new) (D.state (disk_of old))
        (D.state (disk_of new)) };

    ghost counted = { λ o observable. overlaid_count (params_of o).slots (touched_of o)
        (D.state (disk_of o)) };

    ghost whole = { λ o observable.
        overlaid_whole (params_of o).slots (touched_of o) (D.state (disk_of o))
        (D.sound (disk_of o) observable) o.sized o.filled };

    ghost follows_refl = { λ o. KeepsView-refl (params_of o) (D.state (disk_of o))
        (D.sound (disk_of o)) };

    ghost follows_trans = { λ old mid new.
        KeepsView-trans (params_of old) (params_of mid) (params_of new)
        (D.state (disk_of old)) (D.state (disk_of mid)) (D.state (disk_of new)) };

    fn get(&mut self, at: u32, into: &mut Slot) -> Result<(), Fault> {
        if let Some(slot) = self.touched.get(&at) {
            into.copy_from_slice(slot.get());
            return Ok(());
        }
        let slots = self.params.slots();
        Ok(read_slot(&mut self.disk, &mut self.cache, slots, at, into)?)
    }
}

impl<D: Disk> OrderSlots for Overlay<D> {
    fn order(&mut self, at: u32, wanted: &[u8; 130]) -> Result<Option<Ordering>, Fault> {
        self.looks = self.looks.saturating_add(1);
        if let Some(slot) = self.touched.get(&at) {
            return Ok(order_of(slot.get(), wanted));
        }
        let slots = self.params.slots();
        let LabelOrder { order } = tell_slot(&mut self.disk, &mut self.cache, slots, at, wanted)?;
        Ok(order)
    }
}

impl<D: Disk> Slots for Overlay<D> {
    fn set(&mut self, at: u32, slot: &Slot) -> Result<(), Fault> {
        let kept = self.spares.copy(slot)?;
        self.spares.take(self.touched.insert(at, kept)?);
        Ok(())
    }
}
