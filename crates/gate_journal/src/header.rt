//! The parameters that a disk's image has, by its header as it is read.
//!
//! Where the commit flag and the version's mark are set, the journal makes the image one of version 2. Then the
//! header is read as one of it, whichever version it names.
ghost use Rattle.std.specs.Prelude.{◌≡◌, ◌+◌, ◌≤◌, take, drop, ◌&&◌, Some, IfSome, IfOk};
ghost use Rattle.std.specs.Int.{w32, from_be_bytes};
ghost use Rattle.store_model.specs.Parameters as model;
ghost use Rattle.store_model.specs.Parameters.{IsParameters, slots_limit};
ghost use Rattle.store_model.specs.Images.{header, is_flag_set, is_marked};
ghost use Rattle.disk_model.specs.DiskState.{DiskState, IsObservable};
ghost use Rattle.gate_journal.specs.Places.{AreCalls, ReadsOnly};
ghost use Rattle.gate_journal.specs.Headers.{as_read, ViewsHeader};

use crate::redo::{is_byte_set, is_flag_set};
use disk_model::Disk;
use store_base::{
    DiskFault, MAX_SLOTS, Params, image_len, mark_at, read_header, version_at, version_byte,
};
use store_model::{BLOCK, Slot, Version};

/// The bytes of a header, which is one block.
const HEADER: u64 = BLOCK as u64;

/// The number of slots that a header names, in range or not.
fn named_slots(block: &Slot) -> u32
    ensures { result ≡ from_be_bytes w32 (take 4 (drop 8 block.now)) }
{
    let mut slots = [0; 4];
    slots.copy_from_slice(&block[8..12]);
    u32::from_be_bytes(slots)
}

/// Whether the journal makes the image of so many slots one of version 2.
fn is_version_marked<D: Disk>(disk: &mut D, slots: u32) -> Result<bool, DiskFault>
    requires in_range { slots ≤ slots_limit }
    requires size { (D.state disk.old).size ≡ model.image_len slots }
    ensures calls { AreCalls (D.state disk.old) (D.state disk.new) result }
    ensures reads { IsObservable (D.state disk.old)
        → ReadsOnly (D.state disk.old) (D.state disk.new) }
    ensures value { IsObservable (D.state disk.old)
        → IfOk result (λ marked. marked
        ≡ (is_flag_set (D.state disk.old).bytes && is_marked (D.state disk.old).bytes slots)) }
{
    if !is_flag_set(disk)? {
        return Ok(false);
    }
    is_byte_set(disk, mark_at(slots))
}

/// The parameters that the block is the header of, where `marked` says that it is read as one of version 2.
fn params_as_read(block: &Slot, marked: bool) -> Option<Params>
    ensures found { IfSome result (λ p. IsParameters p × (header p ≡ as_read marked block.now)) }
    ensures only { (p : model.Parameters) → IsParameters p
        → header p ≡ as_read marked block.now → result ≡ Some p }
{
    if !marked {
        return read_header(block);
    }
    // Before the header is judged: a commit that was cut short may have left any byte there.
    let mut upgraded = *block;
    upgraded[version_at() as usize] = version_byte(Version::Two);
    read_header(&upgraded)
}

/// Reads the parameters of the image that recovery would leave.
pub fn read_viewed<D: Disk>(disk: &mut D) -> Result<Option<Params>, DiskFault>
    ensures views { ViewsHeader (D.state disk.old) (D.state disk.new) result }
{
    let len = disk.len();
    if len < HEADER {
        return Ok(None);
    }
    let mut block: Slot = [0; BLOCK];
    disk.read_at(0, &mut block)?;
    let slots = named_slots(&block);
    // Before flag and mark are read: on a disk of another length they may lie behind its end.
    if slots == 0 || slots > MAX_SLOTS || len != image_len(slots) {
        return Ok(None);
    }
    let marked = is_version_marked(disk, slots)?;
    Ok(params_as_read(&block, marked))
}
