//! Words of a command line, as a shell takes them.

use std::fmt::{self, Display, Formatter};

/// A word as it is typed in a shell: in quotes where it has other characters than letters, digits and a few signs.
#[derive(Clone, Copy, Debug)]
pub struct Quoted<'a>(pub &'a str);

/// Whether a shell takes a byte as it is, wherever it stands. Bytes of characters beyond ASCII are taken so, too.
fn is_plain(byte: u8) -> bool {
    match byte {
        b'0'..=b'9' | b'A'..=b'Z' | b'a'..=b'z' => true,
        b'%' | b'+' | b',' | b'-' | b'.' | b'/' | b':' | b'=' | b'@' | b'_' => true,
        byte => byte >= 0x80,
    }
}

impl Display for Quoted<'_> {
    fn fmt<W: fmt::Write>(&self, f: &mut Formatter<W>) -> fmt::Result {
        let word = self.0;
        if !word.is_empty() && word.bytes().all(is_plain) {
            return f.write_str(word);
        }
        f.write_str("'")?;
        for c in word.chars() {
            match c {
                '\'' => f.write_str("'\\''")?,
                c => f.write_char(c)?,
            }
        }
        f.write_str("'")
    }
}
