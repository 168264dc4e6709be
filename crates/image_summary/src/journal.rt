//! Whether the journal of an image is empty.

ghost use Rattle.std.specs.Prelude.{◌≡◌, ◌↔◌, IsTrue, IfOk};
ghost use Rattle.store_model.specs.Parameters.{image_len};
ghost use Rattle.disk_model.specs.DiskState.{IsObservable};
ghost use Rattle.gate_journal.specs.Places.{AreCalls, ReadsOnly};
ghost use Rattle.gate_journal.specs.Phases.{HasEmptyJournal};

use disk_model::Disk;
use store_base::{DiskFault, Params, is_zero, table_at};
use store_model::BLOCK;

/// Whether all bytes between the header and the table of an image with these parameters are zero. They are read in
/// order, block by block, up to the first that is not.
/// `DiskFault`: a read failed, and no other call was made after it.
pub fn has_empty_journal<D: Disk>(disk: &mut D, params: &Params) -> Result<bool, DiskFault>
    requires { (D.state disk.old).size ≡ image_len params.now.slots }
    ensures calls { AreCalls (D.state disk.old) (D.state disk.new) result }
    ensures reads { IsObservable (D.state disk.old)
        → ReadsOnly (D.state disk.old) (D.state disk.new) }
    ensures empty { IsObservable (D.state disk.old) → IfOk result
        (λ empty. IsTrue empty ↔ HasEmptyJournal params.now.slots (D.state disk.old).bytes) }
{
    let end = table_at(params.slots(), 0) / BLOCK as u64;
    let mut bytes = [0; BLOCK];
    for block in 1..end {
        disk.read_at(block * BLOCK as u64, &mut bytes)?;
        if !is_zero(&bytes) {
            return Ok(false);
        }
    }
    Ok(true)
}
