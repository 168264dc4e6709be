//! The spelling of a name of the host.

ghost use Rattle.std.specs.Prelude.{◌≡◌, ◌<◌, ◌≤◌, ◌++◌, length, true, false, IfSome, IfNone};
ghost use Rattle.host_names.specs.HostNames as model;

use arrayvec::ArrayVec;

/// The most bytes of a name of a path that a key can hold.
pub const MAX_NAME: usize = 119;

/// Whether the byte travels as itself.
fn is_plain(byte: u8) -> bool
    ensures { result ≡ model.is_plain byte }
{
    (0x21..=0x7e).contains(&byte) && byte != b'%'
}

/// The upper-case hexadecimal digit of a number.
fn upper_digit(number: u8) -> u8
    requires { number < 16 }
    ensures { result ≡ model.upper_digit number }
{
    if number < 10 {
        b'0' + number
    } else {
        b'A' - 10 + number
    }
}

/// Adds the spelling of a byte, where there is room for it.
fn push_escaped(byte: u8, into: &mut ArrayVec<u8, MAX_NAME>) -> bool
    ensures fits { result ≡ true → into.new.items ≡ into.old.items ++ model.escaped_byte byte }
    ensures room { result ≡ true → length into.new.items ≤ MAX_NAME }
    ensures full { result ≡ false → MAX_NAME < length (into.old.items ++ model.escaped_byte byte) }
{
    if is_plain(byte) {
        return into.try_extend_from_slice(&[byte]).is_ok();
    }
    let digits = [b'%', upper_digit(byte / 16), upper_digit(byte % 16)];
    into.try_extend_from_slice(&digits).is_ok()
}

/// Spells a name; `None` exactly where the spelling has more bytes than a name of a path can have.
pub fn escape(name: &[u8]) -> Option<ArrayVec<u8, MAX_NAME>>
    ensures some { IfSome result (λ spelled. spelled.items ≡ model.escaped name.now) }
    ensures fits { IfSome result (λ spelled. length spelled.items ≤ MAX_NAME) }
    ensures none { IfNone result (MAX_NAME < length (model.escaped name.now)) }
{
    let mut into = ArrayVec::new();
    for byte in name {
        if !push_escaped(*byte, &mut into) {
            return None;
        }
    }
    Some(into)
}
