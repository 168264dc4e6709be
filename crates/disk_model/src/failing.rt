//! A disk that fails on purpose, to try what stands above it at each of its calls.
use crate::Disk;
use store_base::DiskFault;

/// A disk over another one, some of whose calls fail: those whose numbers are listed, and all from one number on.
///
/// The calls of `read_at`, `write_at` and `sync` are numbered from 0, in the order in which they come. A call that
/// fails here does not reach the disk below; every other call is that disk's.
#[derive(Drop)]
pub struct FailingDisk<D: Disk> {
    disk: D,
    calls: Vec<u64>,
    from: Option<u64>,
    next: u64,
    /// How many calls, writes and syncs failed here.
    faults: u64,
    writes: u64,
    syncs: u64,
}

impl<D: Disk> FailingDisk<D> {
    ghost use Rattle.std.specs.Prelude.{◌≡◌, if◌then◌else◌};
    ghost use Rattle.disk_model.specs.DiskCalls.{raised};
    ghost use Rattle.disk_model.specs.FailingDisk.{inner, call_number, listed, first_of_all, will_fail, faults_here};
    ghost use Rattle.disk_model.specs.FailingDisk.{writes_here, syncs_here};

    /// Takes a disk. The calls whose numbers stand in `calls` fail, and, where `from` is given, all from that number
    /// on.
    pub fn new(disk: D, calls: Vec<u64>, from: Option<u64>) -> FailingDisk<D>
        ensures inner { inner result ≡ disk }
        ensures number { call_number result ≡ 0 }
        ensures listed { listed result ≡ calls.items }
        ensures first_of_all { first_of_all result ≡ from }
        ensures faults { faults_here result ≡ 0 }
        ensures writes { writes_here result ≡ 0 }
        ensures syncs { syncs_here result ≡ 0 }
    {
        FailingDisk {
            disk,
            calls,
            from,
            next: 0,
            faults: 0,
            writes: 0,
            syncs: 0,
        }
    }

    /// Gives the disk below back, as the calls that reached it left it.
    pub fn into_disk(self) -> D
        ensures { result ≡ inner self }
    {
        let FailingDisk { disk, .. } = self;
        disk
    }

    /// Counts a call, and says whether it is to fail.
    fn takes_fault(&mut self) -> bool
        ensures answer { result ≡ will_fail self.old }
        ensures after { self.new ≡ record self.old {
          next = raised self.old.next;
          faults =
              if result then raised self.old.faults else self.old.faults;
        } }
    {
        let fails = self.fails_next();
        self.next = self.next.saturating_add(1);
        if fails {
            self.faults = self.faults.saturating_add(1);
        }
        fails
    }

    /// Whether the next call is to fail.
    fn fails_next(&self) -> bool
        ensures { result ≡ will_fail self.now }
    {
        if self.calls.contains(&self.next) {
            return true;
        }
        match self.from {
            Some(first) => first <= self.next,
            None => false,
        }
    }
}

impl<D: Disk> Disk for FailingDisk<D> {
    ghost use Rattle.std.specs.Prelude.{◌≡◌, ◌+◌, ◌≤◌, IsTrue, IsErr, false, length};
    ghost use Rattle.disk_model.specs.DiskCalls.{IsRead, IsWrite, IsSync};
    ghost use Rattle.disk_model.specs.Counted.{counted_is_sound};
    ghost use Rattle.disk_model.specs.FailingDisk.{inner, will_fail, CountsCall, failing_state};

    ghost state = { failing_state D.state };

    ghost sound = { λ failing observable. counted_is_sound (D.state failing.disk)
        failing.faults failing.writes failing.syncs (D.sound failing.disk observable) };

    fn len(&self) -> u64 {
        self.disk.len()
    }

    fn read_at(&mut self, at: u64, into: &mut [u8]) -> Result<(), DiskFault>
        requires { at + length into.old ≤ (D.state (inner self.old)).size }
        ensures read { IsRead (failing_state D.state self.old)
            (failing_state D.state self.new) at into.new result }

        // A call fails that is to fail, and no other, unless the disk below fails it.
        ensures fails { IsTrue (will_fail self.old)
            → IsErr result × (inner self.new ≡ inner self.old) }
        ensures passes { will_fail self.old ≡ false
            → IsRead (D.state (inner self.old)) (D.state (inner self.new)) at into.new result }
        ensures counts { CountsCall self.old self.new }
    {
        if self.takes_fault() {
            return Err(DiskFault);
        }
        self.disk.read_at(at, into)
    }

    fn write_at(&mut self, at: u64, bytes: &[u8]) -> Result<(), DiskFault>
        requires { at + length bytes.now ≤ (D.state (inner self.old)).size }
        ensures write { IsWrite (failing_state D.state self.old)
            (failing_state D.state self.new) at bytes.now result }
        ensures fails { IsTrue (will_fail self.old)
            → IsErr result × (inner self.new ≡ inner self.old) }
        ensures passes { will_fail self.old ≡ false
            → IsWrite (D.state (inner self.old)) (D.state (inner self.new)) at bytes.now result }
        ensures counts { CountsCall self.old self.new }
    {
        if self.takes_fault() {
            self.writes = self.writes.saturating_add(1);
            return Err(DiskFault);
        }
        self.disk.write_at(at, bytes)
    }

    fn sync(&mut self) -> Result<(), DiskFault>
        ensures sync { IsSync (failing_state D.state self.old)
            (failing_state D.state self.new) result }
        ensures fails { IsTrue (will_fail self.old)
            → IsErr result × (inner self.new ≡ inner self.old) }
        ensures passes { will_fail self.old ≡ false
            → IsSync (D.state (inner self.old)) (D.state (inner self.new)) result }
        ensures counts { CountsCall self.old self.new }
    {
        if self.takes_fault() {
            self.syncs = self.syncs.saturating_add(1);
            return Err(DiskFault);
        }
        self.disk.sync()
    }
}
