//! The name of the host that a spelling tells.

ghost use Rattle.std.specs.Prelude.{◌≡◌, ◌<◌, ◌≤◌, ◌∷◌, ℕ, List, length, drop, true, false, IsTrue, IfSome, IfNone};
ghost use Rattle.host_names.specs.HostNames as model;
ghost use Rattle.host_names.specs.Reading.{digit_value, unescaped};

use crate::spelling::{MAX_NAME, escape};
use arrayvec::ArrayVec;

/// The number of an upper-case hexadecimal digit, and 0 for each other byte.
fn digit_value(digit: u8) -> u8
    ensures value { result ≡ digit_value digit }
    ensures small { result < 16 }
{
    if (b'0'..=b'9').contains(&digit) {
        digit - b'0'
    } else if (b'A'..=b'F').contains(&digit) {
        digit - b'A' + 10
    } else {
        0
    }
}

/// The first byte that a text tells, and how many bytes of the text tell it.
fn first_byte(text: &[u8]) -> (u8, usize)
    requires { 0 < length text.now }
    ensures step { unescaped text.now ≡ result.0 ∷ unescaped (drop result.1 text.now) }
    ensures some { 0 < result.1 }
    ensures within { result.1 ≤ length text.now }
{
    if text.len() >= 3 && text[0] == b'%' {
        (16 * digit_value(text[1]) + digit_value(text[2]), 3)
    } else {
        (text[0], 1)
    }
}

/// The bytes that a text tells, whether or not it is their spelling.
fn read(text: &[u8]) -> ArrayVec<u8, MAX_NAME>
    requires { length text.now ≤ MAX_NAME }
    ensures { result.items ≡ unescaped text.now }
{
    let mut into = ArrayVec::new();
    let mut at = 0;
    while at < text.len() {
        let (byte, len) = first_byte(&text[at..]);
        into.push(byte);
        at += len;
    }
    into
}

/// Whether a byte may stand in a name of the host.
fn is_host_byte(byte: u8) -> bool
    ensures { result ≡ model.is_host_byte byte }
{
    byte != 0 && byte != b'/'
}

/// Whether the bytes are a name of the host.
pub(crate) fn is_host_name(bytes: &[u8]) -> bool
    ensures { result ≡ model.is_host_name bytes.now }
{
    !bytes.is_empty()
        && bytes.iter().all(|byte| is_host_byte(*byte))
        && bytes != b".".as_slice()
        && bytes != b"..".as_slice()
}

/// Whether the text is the spelling of these bytes.
fn is_spelling(text: &[u8], bytes: &[u8]) -> bool
    requires { length text.now ≤ MAX_NAME }
    ensures yes { result ≡ true → model.escaped bytes.now ≡ text.now }
    ensures no { result ≡ false → model.escaped bytes.now ≡ text.now → ⊥ }
{
    match escape(bytes) {
        Some(spelled) => spelled.as_slice() == text,
        None => false,
    }
}

/// Finds the name of the host that has this spelling; `None` exactly where there is none.
pub fn unescape(text: &[u8]) -> Option<ArrayVec<u8, MAX_NAME>>
    requires { length text.now ≤ MAX_NAME }
    ensures name { IfSome result (λ name. IsTrue (model.is_host_name name.items)) }
    ensures spelled { IfSome result (λ name. model.escaped name.items ≡ text.now) }
    ensures none { IfNone result ((name : List ℕ) → IsTrue (model.is_host_name name)
        → model.escaped name ≡ text.now → ⊥) }
{
    let name = read(text);
    if !is_host_name(name.as_slice()) {
        return None;
    }
    if !is_spelling(text, name.as_slice()) {
        return None;
    }
    Some(name)
}
