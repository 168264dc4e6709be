//! A block of zeros.

ghost use Rattle.std.specs.Prelude.{◌≡◌, ◌↔◌, ◌≤◌, IsTrue, None, length};
ghost use Rattle.store_model.specs.Lists.{zeros};
ghost use Rattle.store_model.specs.Parameters.{block_len};
ghost use Rattle.store_model.specs.Images.{slot_bytes};

use store_model::{BLOCK, Slot};

/// A block of zeros: a free slot, and each block of an empty journal.
pub static ZEROS: Slot = [0; BLOCK];

/// Whether each byte of a slot is zero. A slot is compared as a whole, which takes many bytes at once.
pub fn is_zero(slot: &Slot) -> bool
    ensures { IsTrue result ↔ (slot.now ≡ slot_bytes None) }
{
    *slot == ZEROS
}

/// Whether each byte is zero, of at most those of a block. They are compared as a whole, too.
pub fn are_zero(bytes: &[u8]) -> bool
    requires { length bytes.now ≤ block_len }
    ensures { IsTrue result ↔ (bytes.now ≡ zeros (length bytes.now)) }
{
    bytes == &ZEROS[..bytes.len()]
}
