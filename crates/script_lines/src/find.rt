//! Where a byte stands among others.

ghost use Rattle.std.specs.Prelude.{◌≡◌, ◌==◌, position};

use memchr::memchr;

/// Finds the place of the first byte that equals `byte`; `None` where there is none.
pub fn find_byte(bytes: &[u8], byte: u8) -> Option<usize>
    ensures { result ≡ position (λ c. c == byte) bytes.now }
{
    memchr(byte, bytes)
}
