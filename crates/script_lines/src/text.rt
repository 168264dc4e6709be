//! A text of bounded length, held in place.

ghost use Rattle.std.specs.Prelude.{◌≡◌, ◌≤◌, ◌+◌, ◌*◌, ◌++◌, ◌∷◌, [], length};
ghost use Rattle.std.specs.Fmt.{decimal};
ghost use Rattle.hex.specs.Hex.{encode_lower};
ghost use Rattle.store_model.specs.Paths.{path_text};
ghost use Rattle.script_lines.specs.CommandLines.{names_text};

use arrayvec::ArrayVec;
use itoa::Buffer;
use path_keys::Path;
use std::marker::Model;
use store_base::Bytes;

/// The most bytes that a text has: the longest line of a reply fits, and many lines of a listing.
pub const MAX_TEXT: usize = 8448;

/// The most bytes that `push_hex` adds the digits of.
const MAX_HEX: usize = Bytes::MAX_LEN;

/// A text of at most 8,448 bytes. It takes no memory.
#[derive(Drop)]
pub struct Text {
    bytes: ArrayVec<u8, MAX_TEXT>,
}

impl Model for Text {
    ghost use Rattle.std.specs.Prelude.{List, ℕ};

    ghost Value = { List ℕ };

    ghost view = { λ t. t.bytes.items };
}

impl Text {
    /// An empty text.
    pub fn new() -> Self
        ensures { result ≡ [] }
    {
        Text {
            bytes: ArrayVec::new(),
        }
    }

    /// Its bytes.
    pub fn as_slice(&self) -> &[u8]
        ensures { result.now ≡ self.now }
    {
        self.bytes.as_slice()
    }

    /// How many bytes it has.
    pub(crate) fn len(&self) -> usize
        ensures { result ≡ length self.now }
    {
        self.bytes.len()
    }

    /// Empties the text.
    pub(crate) fn clear(&mut self)
        ensures { self.new ≡ [] }
    {
        self.bytes.clear();
    }

    /// Adds bytes.
    pub fn push(&mut self, bytes: &[u8])
        requires { length self.old + length bytes.now ≤ MAX_TEXT }
        ensures { self.new ≡ self.old ++ bytes.now }
    {
        let Ok(()) = self.bytes.try_extend_from_slice(bytes) else {
            unreachable!()
        };
    }

    /// Adds a number in decimal digits, 10 at most.
    pub fn push_number(&mut self, number: u32)
        requires { length self.old + 10 ≤ MAX_TEXT }
        ensures value { self.new ≡ self.old ++ decimal number }
        ensures fits { length self.new ≤ length self.old + 10 }
    {
        let mut digits = Buffer::new();
        self.push(digits.format(number).as_bytes());
    }

    /// Adds a number of 64 bits in decimal digits, 20 at most.
    pub fn push_long(&mut self, number: u64)
        requires { length self.old + 20 ≤ MAX_TEXT }
        ensures value { self.new ≡ self.old ++ decimal number }
        ensures fits { length self.new ≤ length self.old + 20 }
    {
        let mut digits = Buffer::new();
        self.push(digits.format(number).as_bytes());
    }

    /// Adds the text of a path, 120 bytes at most.
    #[tactic(auto, unfolding(store_model::specs::Paths::path_text))]
    pub fn push_path(&mut self, path: &Path)
        requires { length self.old + Path.MAX_LEN ≤ MAX_TEXT }
        ensures value { self.new ≡ self.old ++ path_text path.now }
        ensures fits { length self.new ≤ length self.old + Path.MAX_LEN }
    {
        if path.is_root() {
            self.push(b"/");
        } else {
            self.push_names(path);
        }
    }

    /// Adds `/` and the name for each name of a path.
    fn push_names(&mut self, path: &Path)
        requires { length self.old + length (names_text path.now) ≤ MAX_TEXT }
        ensures { self.new ≡ self.old ++ names_text path.now }
    {
        if let Some(parent) = path.parent() {
            self.push_names(&parent);
            self.push(b"/");
            self.push(path.name());
        }
    }

    /// Adds two lower-case hexadecimal digits for each byte.
    pub(crate) fn push_hex(&mut self, bytes: &[u8])
        requires few { length bytes.now ≤ MAX_HEX }
        requires fits { length self.old + 2 * length bytes.now ≤ MAX_TEXT }
        ensures value { self.new ≡ self.old ++ encode_lower bytes.now }
        ensures size { length self.new ≡ length self.old + 2 * length bytes.now }
    {
        let mut room = [0; 2 * MAX_HEX];
        let digits = &mut room[..2 * bytes.len()];
        let Ok(()) = hex::encode_to_slice(bytes, digits) else {
            unreachable!()
        };
        self.push(digits);
    }
}
