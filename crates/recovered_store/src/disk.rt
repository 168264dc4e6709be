//! A disk of slots.

ghost use Rattle.std.specs.Prelude.{◌≡◌, ◌+◌, ◌-◌, ◌*◌, ◌<◌, ◌≤◌, length, take, OnOk, IfOk};
ghost use Rattle.store_model.specs.Parameters.{IsParameters, block_len, image_len, table_at as slot_at};
ghost use Rattle.store_model.specs.Images.{bytes_at};
ghost use Rattle.store_base.specs.SlotsState.{IsObservable, TakesNone};
ghost use Rattle.recovered_store.specs.SlotsDisks.{image_of, ReadsSlots, IsPart};

use crate::below::DiskSlots;
use disk_model::Disk;
use store_base::{DiskFault, Params, ReadSlots, image_len as len_of, table_at, write_header};
use store_model::{BLOCK, Slot};

/// The image of these parameters with an empty journal and these slots, as a disk. Its header and its journal are not
/// read: the header is that of the parameters, and the journal reads as zeros. A sync has nothing to do. A write is
/// refused, with a fault, and changes nothing. No call takes memory.
#[derive(Drop)]
pub struct SlotsDisk<S: ReadSlots> {
    slots: S,
    params: Params,
    /// How many writes were refused.
    refused: u64,
    /// How many syncs were asked for.
    syncs: u64,
    ghost in_range: { IsParameters params },
    ghost counted: { (S.state slots).count ≡ params.slots },
    ghost takes_none: { TakesNone (S.state slots) },
}

impl<S: ReadSlots> SlotsDisk<S> {
    /// The disk of these slots, as many as the parameters say. Calls on them take no memory.
    pub fn new(slots: S, params: &Params) -> SlotsDisk<S>
        requires counted { (S.state slots).count ≡ params.now.slots }
        requires takes_none { TakesNone (S.state slots) }
        ensures slots { result.slots ≡ slots }
        ensures params { result.params ≡ params.now }
        ensures refused { result.refused ≡ 0 }
        ensures syncs { result.syncs ≡ 0 }
    {
        // That the parameters are in range is told where their slots are.
        let _slots = params.slots();
        SlotsDisk {
            slots,
            params: *params,
            refused: 0,
            syncs: 0,
        }
    }

    /// Hands the slots back.
    pub fn into_slots(self) -> S
        ensures { result ≡ self.slots }
    {
        let SlotsDisk { slots, .. } = self;
        slots
    }

    /// The number of the block in which the table begins.
    fn first_block(&self) -> u64
        ensures { block_len * result ≡ slot_at self.now.params.slots 0 }
    {
        table_at(self.params.slots(), 0) / BLOCK as u64
    }

    /// Reads a block of the image: the header, zeros, or a slot.
    fn read_block(&mut self, block: u64, into: &mut Slot) -> Result<(), DiskFault>
        requires { block_len * (block + 1) ≤ image_len self.old.params.slots }
        ensures reads { ReadsSlots (S.state self.old.slots) (S.state self.new.slots) result }
        ensures params { self.new.params ≡ self.old.params }
        ensures refused { self.new.refused ≡ self.old.refused }
        ensures syncs { self.new.syncs ≡ self.old.syncs }
        ensures follows { S.follows self.old.slots self.new.slots }
        ensures bytes { IsObservable (S.state self.old.slots)
            → OnOk result (into.new
            ≡ bytes_at (image_of self.old.params (S.state self.old.slots).slots)
            (block_len * block) block_len) }
    {
        let first = self.first_block();
        if block == 0 {
            write_header(&self.params, into);
            return Ok(());
        }
        if block < first {
            *into = [0; BLOCK];
            return Ok(());
        }
        match self.slots.get((block - first) as u32, into) {
            Ok(()) => Ok(()),
            Err(_) => Err(DiskFault),
        }
    }

    /// Reads the first of so many bytes from a place within a block on: those that lie in this block. It answers how
    /// many they are.
    fn read_part(&mut self, block: u64, behind: usize, into: &mut [u8]) -> Result<usize, DiskFault>
        requires some { 0 < length into.old }
        requires behind { behind < block_len }
        requires within { block_len * block + behind + length into.old ≤ image_len self.old.params.slots }
        ensures reads { ReadsSlots (S.state self.old.slots) (S.state self.new.slots) result }
        ensures params { self.new.params ≡ self.old.params }
        ensures refused { self.new.refused ≡ self.old.refused }
        ensures syncs { self.new.syncs ≡ self.old.syncs }
        ensures follows { S.follows self.old.slots self.new.slots }
        ensures part { IfOk result (λ count. IsPart count into.new) }
        ensures bytes { IsObservable (S.state self.old.slots)
            → IfOk result (λ count. take count into.new
            ≡ bytes_at (image_of self.old.params (S.state self.old.slots).slots)
            (block_len * block + behind) count) }
    {
        let mut bytes = [0; BLOCK];
        self.read_block(block, &mut bytes)?;
        let count = into.len().min(BLOCK - behind);
        into[..count].copy_from_slice(&bytes[behind..behind + count]);
        Ok(count)
    }

    /// Reads slots one behind the other, from this one on: as many as come by one call. It answers how many bytes
    /// they have.
    fn read_run(&mut self, slot: u32, into: &mut [u8]) -> Result<usize, DiskFault>
        requires room { block_len ≤ length into.old }
        requires within { length into.old ≤ block_len * (self.old.params.slots - slot) }
        ensures reads { ReadsSlots (S.state self.old.slots) (S.state self.new.slots) result }
        ensures params { self.new.params ≡ self.old.params }
        ensures refused { self.new.refused ≡ self.old.refused }
        ensures syncs { self.new.syncs ≡ self.old.syncs }
        ensures follows { S.follows self.old.slots self.new.slots }
        ensures part { IfOk result (λ count. IsPart count into.new) }
        ensures bytes { IsObservable (S.state self.old.slots)
            → IfOk result (λ count. take count into.new
            ≡ bytes_at (image_of self.old.params (S.state self.old.slots).slots)
            (slot_at self.old.params.slots slot) count) }
    {
        match self.slots.get_some(slot, into) {
            Ok(count) => Ok(count as usize * BLOCK),
            Err(_) => Err(DiskFault),
        }
    }

    /// Reads the first of so many bytes from a place of the image on, and answers how many they are. What lies in the
    /// table is read into its place.
    fn read_some(&mut self, at: u64, into: &mut [u8]) -> Result<usize, DiskFault>
        requires some { 0 < length into.old }
        requires within { at + length into.old ≤ image_len self.old.params.slots }
        ensures reads { ReadsSlots (S.state self.old.slots) (S.state self.new.slots) result }
        ensures params { self.new.params ≡ self.old.params }
        ensures refused { self.new.refused ≡ self.old.refused }
        ensures syncs { self.new.syncs ≡ self.old.syncs }
        ensures follows { S.follows self.old.slots self.new.slots }
        ensures part { IfOk result (λ count. IsPart count into.new) }
        ensures bytes { IsObservable (S.state self.old.slots)
            → IfOk result (λ count. take count into.new
            ≡ bytes_at (image_of self.old.params (S.state self.old.slots).slots) at count) }
    {
        let (block, behind) = (at / BLOCK as u64, (at % BLOCK as u64) as usize);
        let first = self.first_block();
        if behind == 0 && into.len() >= BLOCK && block >= first {
            let whole = into.len() - into.len() % BLOCK;
            return self.read_run((block - first) as u32, &mut into[..whole]);
        }
        self.read_part(block, behind, into)
    }

    /// Reads the bytes from a place of the image on into the whole buffer.
    fn fill(&mut self, at: u64, into: &mut [u8]) -> Result<(), DiskFault>
        requires { at + length into.old ≤ image_len self.old.params.slots }
        ensures reads { ReadsSlots (S.state self.old.slots) (S.state self.new.slots) result }
        ensures params { self.new.params ≡ self.old.params }
        ensures refused { self.new.refused ≡ self.old.refused }
        ensures syncs { self.new.syncs ≡ self.old.syncs }
        ensures follows { S.follows self.old.slots self.new.slots }
        ensures bytes { IsObservable (S.state self.old.slots)
            → OnOk result (into.new
            ≡ bytes_at (image_of self.old.params (S.state self.old.slots).slots) at
            (length into.new)) }
    {
        let mut done = 0;
        while done < into.len() {
            done += self.read_some(at + done as u64, &mut into[done..])?;
        }
        Ok(())
    }
}

impl<S: DiskSlots> Disk for SlotsDisk<S> {
    ghost use Rattle.recovered_store.specs.SlotsDisks.{disk_state, disk_sound};

    ghost state = { λ disk. disk_state (S.state disk.slots) (S.below disk.slots)
        disk.params disk.refused disk.syncs };

    ghost sound = { λ disk observable. disk_sound (S.state disk.slots) (S.below disk.slots)
        disk.params disk.refused disk.syncs disk.in_range disk.counted (S.counted disk.slots observable)
        (S.whole disk.slots observable) };

    fn len(&self) -> u64 {
        len_of(self.params.slots())
    }

    fn read_at(&mut self, at: u64, into: &mut [u8]) -> Result<(), DiskFault> {
        self.fill(at, into)
    }

    /// Is refused.
    fn write_at(&mut self, at: u64, bytes: &[u8]) -> Result<(), DiskFault> {
        let _ = at;
        let _ = bytes;
        self.refused = self.refused.saturating_add(1);
        Err(DiskFault)
    }

    fn sync(&mut self) -> Result<(), DiskFault> {
        self.syncs = self.syncs.saturating_add(1);
        Ok(())
    }
}
