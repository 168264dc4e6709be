//! A disk in memory, which notes each call that changes it, so that it can show what a crash at any moment may leave.
ghost use Rattle.std.specs.Prelude.{◌≡◌, ◌↔◌, ◌+◌, ◌<◌, ◌≤◌, length, IfOk, IsOk, IsErr};
ghost use Rattle.disk_model.specs.DiskCalls.{IsRead, IsWrite, IsSync};
ghost use Rattle.disk_model.specs.Memory.{memory_state, room_left, after_read, after_write, after_sync, fresh};
ghost use Rattle.disk_model.specs.Memory.{restarted};
ghost use Rattle.disk_model.specs.MemoryLaws.{memory_is_sound};
ghost use Rattle.disk_model.specs.StopChoice.{IsChosen};

use crate::Disk;
use crate::record::{Call, StopChoice, copy_pending, crash, keep, note, put};
use std::alloc::Global;
use std::marker::Model;
use store_base::{DiskFault, NoMemory};

/// The room that each call takes in the record of a `MemDisk`, in bytes; a write takes as many again as it writes.
const CALL_ROOM: usize = 16;

/// A disk in memory. All its memory is taken by `new`.
///
/// It fails only where its record has no room for a write or a sync. Contracts see it as a `Memory`: its bytes, those
/// of its last sync, the record of its writes and syncs, the room of the record and the counts.
#[derive(Drop)]
pub struct MemDisk {
    bytes: Vec<u8>,
    synced: Vec<u8>,
    calls: Vec<Call>,
    replaced: Vec<u8>,
    room: usize,
    faults: u64,
    writes: u64,
    syncs: u64,
    fetched: u64,
}

impl Model for MemDisk {
    ghost use Rattle.disk_model.specs.Memory.{Memory};

    ghost Value = { Memory };

    ghost use Rattle.disk_model.specs.MemDisk.{memory_of, IsConsistentInside};

    ghost view = { memory_of };

    ghost invariant = { IsConsistentInside };
}

impl MemDisk {
    /// A disk with these bytes, all of them durable, whose record has this much room, in bytes: each write takes 16
    /// of them and as many again as it writes, each sync 16.
    ///
    /// `NoMemory`: there is no memory for two copies of the bytes and for the record. No later call takes memory.
    pub fn new(alloc: Global, bytes: &[u8], room: usize) -> Result<MemDisk, NoMemory>
        ensures { IfOk result (λ disk. disk ≡ fresh bytes.now room) }
    {
        Ok(MemDisk {
            bytes: Vec::from_slice(alloc, bytes)?,
            synced: Vec::from_slice(alloc, bytes)?,
            calls: Vec::with_capacity(alloc, room / CALL_ROOM)?,
            replaced: Vec::with_capacity(alloc, room)?,
            room,
            faults: 0,
            writes: 0,
            syncs: 0,
            fetched: 0,
        })
    }

    /// The bytes that reads give.
    pub fn bytes(&self) -> &[u8]
        ensures { result.now ≡ self.now.bytes }
    {
        &self.bytes
    }

    /// How many writes were asked for, failed ones too.
    pub fn write_count(&self) -> u64
        ensures { result ≡ (memory_state self.now).writes }
    {
        self.writes
    }

    /// How many syncs were asked for, failed ones too.
    pub fn sync_count(&self) -> u64
        ensures { result ≡ (memory_state self.now).syncs }
    {
        self.syncs
    }

    /// How many bytes reads have asked for, up to the last value of a `u64`.
    pub fn fetched(&self) -> u64
        ensures { result ≡ self.now.fetched }
    {
        self.fetched
    }

    /// Crashes the disk at this moment: the choice says what becomes of the pending bytes. Then all that the disk
    /// reads is durable, its record is empty, and its counts are as they were. It takes no memory.
    pub fn stopped(mut self, choice: StopChoice) -> MemDisk
        ensures image { (memory_state self).crash_images result.bytes }
        ensures chosen { IsChosen choice self.synced self.bytes self.calls result.bytes }
        ensures restarted { result ≡ restarted self result.bytes }
    {
        crash(&self.calls, choice, &mut self.bytes, &mut self.synced);
        self.calls.clear();
        self.replaced.clear();
        self
    }

    /// The room that is left in the record.
    fn free_room(&self) -> usize
        ensures { result ≡ room_left self.now }
    {
        self.room - (CALL_ROOM * self.calls.len() + self.replaced.len())
    }
}

impl Disk for MemDisk {
    ghost state = { memory_state };

    ghost sound = { λ disk observable. memory_is_sound disk };

    fn len(&self) -> u64 {
        self.bytes.len() as u64
    }

    fn read_at(&mut self, at: u64, into: &mut [u8]) -> Result<(), DiskFault>
        requires { at + length into.old ≤ length self.old.bytes }
        ensures read { IsRead (memory_state self.old) (memory_state self.new) at into.new result }
        ensures ok { IsOk result }
        ensures after { self.new ≡ after_read self.old (length into.old) }
    {
        let start = at as usize;
        into.copy_from_slice(&self.bytes[start..start + into.len()]);
        self.fetched = self.fetched.saturating_add(into.len() as u64);
        Ok(())
    }

    fn write_at(&mut self, at: u64, bytes: &[u8]) -> Result<(), DiskFault>
        requires { at + length bytes.now ≤ length self.old.bytes }
        ensures write { IsWrite (memory_state self.old)
            (memory_state self.new) at bytes.now result }
        ensures full { IsErr result ↔ (room_left self.old < length bytes.now + 16) }
        ensures after { self.new ≡ after_write self.old at bytes.now }
    {
        self.writes = self.writes.saturating_add(1);
        let free = self.free_room();
        if free < CALL_ROOM || free - CALL_ROOM < bytes.len() {
            self.faults = self.faults.saturating_add(1);
            return Err(DiskFault);
        }
        let (start, len) = (at as usize, bytes.len());
        keep(&mut self.replaced, &self.bytes[start..start + len]);
        note(&mut self.calls, Call::Write { at: start, len });
        put(&mut self.bytes, start, bytes);
        Ok(())
    }

    fn sync(&mut self) -> Result<(), DiskFault>
        ensures sync { IsSync (memory_state self.old) (memory_state self.new) result }
        ensures full { IsErr result ↔ (room_left self.old < 16) }
        ensures after { self.new ≡ after_sync self.old }
    {
        self.syncs = self.syncs.saturating_add(1);
        if self.free_room() < CALL_ROOM {
            self.faults = self.faults.saturating_add(1);
            return Err(DiskFault);
        }
        copy_pending(&self.calls, &self.bytes, &mut self.synced);
        note(&mut self.calls, Call::Sync);
        Ok(())
    }
}
