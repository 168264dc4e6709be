//! How a disk becomes the image of the empty tree.
ghost use Rattle.std.specs.Prelude.{◌≡◌, ◌≢◌, ◌⊎◌, ℕ, ◌+◌, ◌-◌, ◌*◌, ◌/◌, ◌<◌, ◌≤◌, [], ◌∷◌, ◌==◌, slice_index, OnOk};
ghost use Rattle.std.specs.Prelude.{IfOk, Err};
ghost use Rattle.store_model.specs.Parameters.{IsParameters, image_len as len_of, block_len};
ghost use Rattle.store_model.specs.Images.{first_byte};
ghost use Rattle.disk_model.specs.DiskState.{DiskState, IsObservable, IsDurable};
ghost use Rattle.disk_model.specs.DiskCalls.{IsCall, LeavesOnly, overwrite};
ghost use Rattle.gate_journal.specs.Places.{IsApart, AreCalls, Reaches, Makes, ReadsOnly};
ghost use Rattle.gate_journal.specs.Formats.{IsEmptyOrNone, HasEmptyRest, Formats};

use crate::entry::write_byte;
use disk_model::Disk;
use store_base::{DiskFault, FIRST_BYTE, Params, image_len, write_header};
use store_model::BLOCK;

/// Whether the first byte is that of an image.
pub fn is_image<D: Disk>(disk: &mut D) -> Result<bool, DiskFault>
    requires { 1 ≤ (D.state disk.old).size }
    ensures call { IsCall (D.state disk.old) (D.state disk.new) result }
    ensures reads { IsObservable (D.state disk.old)
        → ReadsOnly (D.state disk.old) (D.state disk.new) }
    ensures value { IsObservable (D.state disk.old)
        → IfOk result (λ image. image ≡ (slice_index (D.state disk.old).bytes 0 == first_byte)) }
{
    let mut byte = [0; 1];
    disk.read_at(0, &mut byte)?;
    Ok(byte[0] == FIRST_BYTE)
}

/// Writes every byte but the first, and makes that durable.
fn write_rest<D: Disk>(disk: &mut D, params: &Params) -> Result<(), DiskFault>
    requires { (D.state disk.old).size ≡ len_of params.now.slots }
    ensures call { IsCall (D.state disk.old) (D.state disk.new) result }
    ensures reaches { IsObservable (D.state disk.old)
        → Reaches (IsApart 1 (len_of params.now.slots - 1))
        (HasEmptyRest params.now) (D.state disk.old)
        (D.state disk.new) result }
    ensures durable { IsObservable (D.state disk.old) → OnOk result (IsDurable (D.state disk.new)) }
    ensures makes { IsObservable (D.state disk.old)
        → Makes (len_of params.now.slots / block_len) 1 (D.state disk.old)
        (D.state disk.new) result }
{
    let mut header = [0; BLOCK];
    write_header(params, &mut header);
    disk.write_at(1, &header[1..])?;
    for block in 1..image_len(params.slots()) / BLOCK as u64 {
        disk.write_at(block * BLOCK as u64, &[0; BLOCK])?;
    }
    disk.sync()
}

/// Writes the image of the empty tree to a disk whose first byte is not that of an image, the first byte last.
pub fn write_image<D: Disk>(disk: &mut D, params: &Params) -> Result<(), DiskFault>
    requires valid { IsParameters params.now }
    requires size { (D.state disk.old).size ≡ len_of params.now.slots }
    requires no_image { IsObservable (D.state disk.old)
        → slice_index (D.state disk.old).bytes 0 ≢ first_byte }
    ensures call { IsCall (D.state disk.old) (D.state disk.new) result }
    ensures formats { IsObservable (D.state disk.old)
        → Formats params.now (D.state disk.new) result }
    ensures reads { IsObservable (D.state disk.old)
        → IsEmptyOrNone params.now (D.state disk.new).bytes }
    ensures crash { IsObservable (D.state disk.old) → IsDurable (D.state disk.old)
        → LeavesOnly (D.state disk.old) (D.state disk.new) (IsEmptyOrNone params.now) }
    ensures makes { IsObservable (D.state disk.old)
        → Makes (len_of params.now.slots / block_len + 1) 2 (D.state disk.old)
        (D.state disk.new) result }
{
    // Durable before the first byte is written: from then on the disk is an image.
    write_rest(disk, params)?;
    write_byte(disk, 0, FIRST_BYTE)
}
