//! A disk that remembers whether it was written to.

ghost use Rattle.std.specs.Prelude.{◌≡◌, false};

use disk_model::Disk;
use store_base::DiskFault;

/// A disk that remembers whether it was written to since it was made. It tells what the disk below tells.
#[derive(Drop)]
pub(crate) struct NotedDisk<D: Disk> {
    disk: D,
    is_written: bool,
}

impl<D: Disk> NotedDisk<D> {
    /// Nothing was written yet.
    pub fn new(disk: D) -> Self
        ensures disk { result.disk ≡ disk }
        ensures written { result.is_written ≡ false }
    {
        NotedDisk {
            disk,
            is_written: false,
        }
    }

    /// Whether it was written to.
    pub fn is_written(&self) -> bool
        ensures { result ≡ self.now.is_written }
    {
        self.is_written
    }

    /// Gives the disk below back.
    pub fn into_disk(self) -> D
        ensures { result ≡ self.disk }
    {
        let NotedDisk {
            disk,
            is_written: _,
        } = self;
        disk
    }
}

impl<D: Disk> Disk for NotedDisk<D> {
    ghost state = { λ noted. D.state noted.disk };

    ghost sound = { λ noted observable. D.sound noted.disk observable };

    fn len(&self) -> u64 {
        self.disk.len()
    }

    fn read_at(&mut self, at: u64, into: &mut [u8]) -> Result<(), DiskFault> {
        self.disk.read_at(at, into)
    }

    fn write_at(&mut self, at: u64, bytes: &[u8]) -> Result<(), DiskFault> {
        self.is_written = true;
        self.disk.write_at(at, bytes)
    }

    fn sync(&mut self) -> Result<(), DiskFault> {
        self.disk.sync()
    }
}
