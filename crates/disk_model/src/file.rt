//! A file as a disk, by reads and writes at an offset. It is a trusted edge: it is assumed that a file keeps what the
//! contract says of an observable disk, so it tells no bytes.
ghost use Rattle.std.specs.Prelude.{◌<◌, ◌^◌};

use crate::Disk;
use std::fs::File;
use std::io;
use std::os::unix::fs::FileExt;
use store_base::DiskFault;

/// An open file of fixed length as a disk. An interrupted call is made again; every other error of the system is a
/// fault, and so is a read or a write that moves nothing. A sync is of the data alone: the length does not change.
#[derive(Drop)]
pub struct FileDisk {
    file: File,
    len: u64,
    faults: u64,
    ghost faults_fit: { faults < 2 ^ 64 },
}

impl FileDisk {
    ghost use Rattle.std.specs.Prelude.{◌≡◌, is_ok, if◌then◌else◌};
    ghost use Rattle.disk_model.specs.DiskCalls.{raised};
    ghost use Rattle.disk_model.specs.FileDisk.{file_state};

    /// Takes a file, open for reading and writing, as a disk of `len` bytes. That it has so many is the caller's
    /// word.
    pub fn new(file: File, len: u64) -> FileDisk
        ensures size { (file_state result).size ≡ len }
        ensures faults { (file_state result).faults ≡ 0 }
    {
        FileDisk {
            file,
            len,
            faults: 0,
        }
    }

    /// Turns the system's answer into the disk's, and counts an error as a fault.
    fn count(&mut self, outcome: io::Result<()>) -> Result<(), DiskFault>
        ensures variant { is_ok result ≡ is_ok outcome }
        ensures size { (file_state self.new).size ≡ (file_state self.old).size }
        ensures faults { (file_state self.new).faults
            ≡ (if is_ok outcome then (file_state self.old).faults else raised
            (file_state self.old).faults) }
    {
        if outcome.is_err() {
            self.faults = self.faults.saturating_add(1);
            return Err(DiskFault);
        }
        Ok(())
    }
}

impl Disk for FileDisk {
    ghost use Rattle.disk_model.specs.FileDisk.{file_state, no_bytes};

    ghost state = { file_state };

    ghost sound = { λ disk observable. no_bytes observable };

    fn len(&self) -> u64 {
        self.len
    }

    fn read_at(&mut self, at: u64, into: &mut [u8]) -> Result<(), DiskFault> {
        let outcome = self.file.read_exact_at(into, at);
        self.count(outcome)
    }

    fn write_at(&mut self, at: u64, bytes: &[u8]) -> Result<(), DiskFault> {
        let outcome = self.file.write_all_at(bytes, at);
        self.count(outcome)
    }

    fn sync(&mut self) -> Result<(), DiskFault> {
        let outcome = self.file.sync_data();
        self.count(outcome)
    }
}
