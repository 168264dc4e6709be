//! The contract of a disk of fixed length whose calls may fail, and which may crash at any moment.
ghost use Rattle.std.specs.Prelude.{◌≡◌, ◌+◌, ◌≤◌, length};
ghost use Rattle.disk_model.specs.DiskState.{DiskState, IsObservable, IsSound};
ghost use Rattle.disk_model.specs.DiskCalls.{IsRead, IsWrite, IsSync};

use store_base::DiskFault;

/// A disk of fixed length. Offsets and lengths are in bytes.
///
/// Between two syncs that succeed, a crash may leave any bytes in each range that was written, and leaves every other
/// byte as it reads. A crash may come at any moment, inside a call or between two.
///
/// Each call answers `DiskFault` only where the disk's count of faults rose during it, or stands at its last value.
/// Clauses on size and counts hold for every disk, and those on bytes and crashes for each disk that tells its bytes.
pub trait Disk {
    /// What the disk means at this moment: its bytes, the images that a crash may leave, its clock and its counts.
    ghost state: { Self → DiskState };

    /// How many bytes the disk has. It never changes.
    fn len(&self) -> u64
        ensures { result ≡ (state self.now).size };

    /// Reads the bytes at this offset into the whole buffer.
    /// After `DiskFault` the buffer may hold anything, and the disk is as it was.
    fn read_at(&mut self, at: u64, into: &mut [u8]) -> Result<(), DiskFault>
        requires { at + length into.old ≤ (state self.old).size }
        ensures { IsRead (state self.old) (state self.new) at into.new result };

    /// Writes these bytes at this offset.
    /// Until a sync succeeds, a crash may leave any bytes in their range. After `DiskFault` the range may read as
    /// anything, and all else is as it was.
    fn write_at(&mut self, at: u64, bytes: &[u8]) -> Result<(), DiskFault>
        requires { at + length bytes.now ≤ (state self.old).size }
        ensures { IsWrite (state self.old) (state self.new) at bytes.now result };

    /// Makes all that was written durable: after it, a crash leaves exactly what a read gives.
    /// After `DiskFault` what was pending is still pending.
    fn sync(&mut self) -> Result<(), DiskFault>
        ensures { IsSync (state self.old) (state self.new) result };

    /// The parts of an observable disk agree with each other.
    ghost sound: { (disk : Self) → IsObservable (state disk) → IsSound (state disk) };
}
