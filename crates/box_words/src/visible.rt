//! How texts are shown to a person.

ghost use Rattle.std.specs.Prelude.{◌≡◌, ◌<◌, ◌++◌, ◌∷◌, [], length, IfOk, OnOk};
ghost use Rattle.std.specs.List.{flat_map};
ghost use Rattle.std.specs.Str.{IsUtf8};
ghost use Rattle.std.specs.String.{string_bytes};
ghost use Rattle.host_names.specs.HostNames.{upper_digit};
ghost use Rattle.box_words.specs.Shown.{is_visible, hex_byte, visible_byte, visible_char, visible_text};

use std::alloc::Global;
use std::fmt::{self, Display, Formatter};
use store_base::NoMemory;

/// A text as a terminal is shown it, for `format!` and its like: as `terminal_text` has it.
#[derive(Clone, Copy, Debug)]
pub struct Visible<'a>(pub &'a str);

/// Whether a character is shown as it is: all are but the control characters, 00 to 1F and 7F to 9F.
fn is_visible(c: char) -> bool
    ensures { result ≡ is_visible c }
{
    let code = c as u32;
    code >= 0x20 && !(0x7f..=0x9f).contains(&code)
}

/// Makes of bytes what a terminal is shown, such as those of a path: of a text each byte of a control character as
/// `\x1B`, and all else as it is; of bytes that are no UTF-8 each that is not printable ASCII so. So nothing that is
/// shown can steer the terminal, nor begin a line of its own.
/// `NoMemory`: it was not made.
pub fn terminal_text(alloc: Global, bytes: &[u8]) -> Result<String, NoMemory>
    ensures text { IsUtf8 bytes.now → IfOk result (λ shown. string_bytes shown ≡ visible_text bytes.now) }
    ensures other { (IsUtf8 bytes.now → ⊥)
        → IfOk result (λ shown. string_bytes shown ≡ flat_map visible_byte bytes.now) }
{
    match str::from_utf8(bytes) {
        Ok(text) => of_text(alloc, text),
        Err(_) => of_bytes(alloc, bytes),
    }
}

/// Makes of a text what a terminal is shown.
fn of_text(alloc: Global, text: &str) -> Result<String, NoMemory>
    ensures { IfOk result (λ shown. string_bytes shown ≡ visible_text text.now) }
{
    let mut shown = String::new(alloc);
    for c in text.chars() {
        push_char(&mut shown, c)?;
    }
    Ok(shown)
}

/// Makes of bytes that are no text what a terminal is shown.
fn of_bytes(alloc: Global, bytes: &[u8]) -> Result<String, NoMemory>
    ensures { IfOk result (λ shown. string_bytes shown ≡ flat_map visible_byte bytes.now) }
{
    let mut shown = String::new(alloc);
    for byte in bytes {
        push_shown(&mut shown, *byte)?;
    }
    Ok(shown)
}

/// Adds a byte as it is shown by itself.
fn push_shown(into: &mut String, byte: u8) -> Result<(), NoMemory>
    ensures { OnOk result (string_bytes into.new ≡ string_bytes into.old ++ visible_byte byte) }
{
    if (0x20..=0x7e).contains(&byte) {
        into.push(char::from(byte))?;
        return Ok(());
    }
    push_byte(into, byte)
}

/// Adds a character as it is shown.
fn push_char(into: &mut String, c: char) -> Result<(), NoMemory>
    ensures { OnOk result (string_bytes into.new ≡ string_bytes into.old ++ visible_char c) }
{
    if is_visible(c) {
        into.push(c)?;
        return Ok(());
    }
    let mut room = [0; 4];
    push_bytes(into, c.encode_utf8(&mut room).as_bytes())
}

/// Adds each byte as `\x1B`.
fn push_bytes(into: &mut String, bytes: &[u8]) -> Result<(), NoMemory>
    ensures { OnOk result (string_bytes into.new ≡ string_bytes into.old ++ flat_map hex_byte bytes.now) }
{
    for byte in bytes {
        push_byte(into, *byte)?;
    }
    Ok(())
}

/// Adds a byte as `\x1B`.
fn push_byte(into: &mut String, byte: u8) -> Result<(), NoMemory>
    ensures { OnOk result (string_bytes into.new ≡ string_bytes into.old ++ hex_byte byte) }
{
    into.push_str("\\x")?;
    push_digit(into, byte / 16)?;
    push_digit(into, byte % 16)
}

/// Adds an upper-case hexadecimal digit.
fn push_digit(into: &mut String, number: u8) -> Result<(), NoMemory>
    requires { number < 16 }
    ensures { OnOk result (string_bytes into.new ≡ string_bytes into.old ++ upper_digit number ∷ []) }
{
    let digit = if number < 10 {
        b'0' + number
    } else {
        b'A' - 10 + number
    };
    into.push(char::from(digit))?;
    Ok(())
}

impl Display for Visible<'_> {
    fn fmt<W: fmt::Write>(&self, f: &mut Formatter<W>) -> fmt::Result {
        for c in self.0.chars() {
            if is_visible(c) {
                f.write_char(c)?;
            } else {
                write_bytes(f, c)?;
            }
        }
        Ok(())
    }
}

/// Writes each byte of a character as `\x1B`.
fn write_bytes<W: fmt::Write>(f: &mut Formatter<W>, c: char) -> fmt::Result {
    let mut room = [0; 4];
    for byte in c.encode_utf8(&mut room).as_bytes() {
        write!(f, "\\x{byte:02X}")?;
    }
    Ok(())
}
