//! The digest of all bytes of a disk, as they read.
ghost use Rattle.std.specs.Prelude.{◌≡◌, ℕ, ◌+◌, ◌*◌, ◌/◌, ◌<◌, ◌≤◌, min, take, IfOk};
ghost use Rattle.sha2.specs.Sha256.{sha256};
ghost use Rattle.disk_model.specs.DiskState.{DiskState, IsObservable};
ghost use Rattle.gate_journal.specs.Places.{AreCalls, ReadsOnly};

use disk_model::Disk;
use sha2::{Digest, Sha256};
use store_base::DiskFault;
use store_model::BLOCK;

/// SHA-256 (FIPS 180-4) of all bytes, which are read once, in order, block by block.
pub fn digest_disk<D: Disk>(disk: &mut D) -> Result<[u8; 32], DiskFault>
    ensures calls { AreCalls (D.state disk.old) (D.state disk.new) result }
    ensures reads { IsObservable (D.state disk.old)
        → ReadsOnly (D.state disk.old) (D.state disk.new) }
    ensures digest { IsObservable (D.state disk.old)
        → IfOk result (λ digest. digest ≡ sha256 (D.state disk.old).bytes) }
{
    let len = disk.len();
    let mut hasher = Sha256::new();
    let mut buffer = [0; BLOCK];
    for block in 0..len.div_ceil(BLOCK as u64) {
        let start = block * BLOCK as u64;
        let part = &mut buffer[..(len - start).min(BLOCK as u64) as usize];
        disk.read_at(start, part)?;
        hasher.update(&*part);
    }
    Ok(hasher.finalize())
}
