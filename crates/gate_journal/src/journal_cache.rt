//! Remembers what was read of the journal of a disk, so that a view need not read it again for each slot.

ghost use Rattle.std.specs.Prelude.{◌≡◌, ◌≤◌, ◌&&◌, None, Some, OnOk, IfOk};
ghost use Rattle.store_model.specs.Images.{is_flag_set, is_marked};
ghost use Rattle.disk_model.specs.DiskState.{DiskState, IsObservable};
ghost use Rattle.gate_journal.specs.JournalCaches.{IsJournalCacheOf, HasSlot, ReadsJournal};

use crate::redo::is_flag_set;
use disk_model::Disk;
use store_base::{DiskFault, mark_at};
use store_model::{BLOCK, Slot};

/// The commit flag and a block of marks as a disk reads them. It serves as long as the disk is only read.
#[derive(Drop)]
pub struct JournalCache {
    /// The commit flag, once it was read.
    flag: Option<bool>,
    /// The slot of the first mark of the block that was read last.
    first: Option<u32>,
    /// The marks of that block.
    marks: Slot,
}

impl JournalCache {
    /// Makes an empty cache: nothing was read yet.
    pub fn new() -> JournalCache
        ensures flag { result.flag ≡ None }
        ensures first { result.first ≡ None }
    {
        JournalCache {
            flag: None,
            first: None,
            marks: [0; BLOCK],
        }
    }

    /// Whether the commit flag is set: it is read once.
    pub(crate) fn is_flag_set<D: Disk>(&mut self, disk: &mut D) -> Result<bool, DiskFault>
        requires size { 4097 ≤ (D.state disk.old).size }
        requires cache { IsJournalCacheOf (D.state disk.old) self.old }
        ensures journal { ReadsJournal (D.state disk.old) (D.state disk.new) self.new result }
        ensures value { IsObservable (D.state disk.old)
            → IfOk result (λ set. set ≡ is_flag_set (D.state disk.old).bytes) }
    {
        if let Some(set) = self.flag {
            return Ok(set);
        }
        let set = is_flag_set(disk)?;
        self.flag = Some(set);
        Ok(set)
    }

    /// Reads the block of marks that begins with that of this slot, unless it was read last.
    fn load_marks<D: Disk>(&mut self, disk: &mut D, slots: u32, first: u32) -> Result<(), DiskFault>
        requires { HasSlot slots first (D.state disk.old) self.old }
        ensures journal { ReadsJournal (D.state disk.old) (D.state disk.new) self.new result }
        ensures loaded { OnOk result (self.new.first ≡ Some first) }
    {
        if self.first.is_some_and(|kept| kept == first) {
            return Ok(());
        }
        // Nothing is kept of a block whose read fails.
        self.first = None;
        disk.read_at(mark_at(first), &mut self.marks)?;
        self.first = Some(first);
        Ok(())
    }

    /// Whether this slot is marked: marks are read by block.
    fn is_marked<D: Disk>(&mut self, disk: &mut D, slots: u32, slot: u32) -> Result<bool, DiskFault>
        requires { HasSlot slots slot (D.state disk.old) self.old }
        ensures journal { ReadsJournal (D.state disk.old) (D.state disk.new) self.new result }
        ensures value { IsObservable (D.state disk.old)
            → IfOk result (λ marked. marked ≡ is_marked (D.state disk.old).bytes slot) }
    {
        let behind = slot % BLOCK as u32;
        self.load_marks(disk, slots, slot - behind)?;
        Ok(self.marks[behind as usize] != 0)
    }

    /// Whether recovery redoes this slot: the commit flag is set, and the slot is marked.
    pub fn is_redone<D: Disk>(
        &mut self,
        disk: &mut D,
        slots: u32,
        slot: u32,
    ) -> Result<bool, DiskFault>
        requires { HasSlot slots slot (D.state disk.old) self.old }
        ensures journal { ReadsJournal (D.state disk.old) (D.state disk.new) self.new result }
        ensures value { IsObservable (D.state disk.old)
            → IfOk result (λ redone. redone
            ≡ (is_flag_set (D.state disk.old).bytes && is_marked (D.state disk.old).bytes slot)) }
    {
        if !self.is_flag_set(disk)? {
            return Ok(false);
        }
        self.is_marked(disk, slots, slot)
    }
}
