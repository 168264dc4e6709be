//! The order of strings of bytes, in fewer steps than one for each byte.

ghost use Rattle.std.specs.Prelude.{◌≡◌, ◌+◌, ◌≤◌, length, drop};
ghost use Rattle.byteorder.specs.Endian.{big_number};
ghost use Rattle.store_model.specs.Paths.{key_cmp};

use byteorder::{BigEndian, ByteOrder};
use std::cmp::Ordering;

/// How many bytes are compared as one number.
const WORD: usize = 8;

/// The bytes from a place on as one number, the first of them the highest.
fn word_at(bytes: &[u8], at: usize) -> u64
    requires { at + 8 ≤ length bytes.now }
    ensures { result ≡ big_number 8 (drop at bytes.now) }
{
    BigEndian::read_u64(&bytes[at..])
}

/// Compares two strings of bytes: by the first byte in which they differ, and, where one begins the other, by their
/// lengths.
pub fn byte_order(bytes: &[u8], other: &[u8]) -> Ordering
    ensures { result ≡ key_cmp bytes.now other.now }
{
    let both = bytes.len().min(other.len());
    let words = both / WORD;
    for word in 0..words {
        let at = WORD * word;
        let order = word_at(bytes, at).cmp(&word_at(other, at));
        if order.is_ne() {
            return order;
        }
    }
    for at in WORD * words..both {
        let order = bytes[at].cmp(&other[at]);
        if order.is_ne() {
            return order;
        }
    }
    bytes.len().cmp(&other.len())
}
