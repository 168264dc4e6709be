//! The fields of a line, and what a field says: a path, a number, bytes.

ghost use Rattle.std.specs.Prelude.{◌≡◌, ◌≤◌, ◌*◌, ◌/◌, ◌∷◌, [], true, length, nat_le, if◌then◌else◌, None, Some};
ghost use Rattle.std.specs.Prelude.{IfSome, MatchOption};
ghost use Rattle.std.specs.List.{list_all};
ghost use Rattle.store_model.specs.Grammar.{number_of, content_of, ok_value, is_numeral, is_digit, digits_value};
ghost use Rattle.hex.specs.Hex.{decode_of};
ghost use Rattle.script_lines.specs.Parsing.{parts_of, AreFields, FitFields, AreCallFields, FitCallFields, ReadsPath};
ghost use Rattle.script_lines.specs.Parsing.{has_change_word, is_change_word, long_limit, long_of};

use crate::find::find_byte;
use path_keys::{Path, PathFault};
use store_model::Refusal;

/// The fields of a line, which exactly one space parts: the word, and up to three more.
#[derive(Clone, Copy)]
pub enum Fields<'a> {
    /// The word alone.
    One(&'a [u8]),
    /// The word and one field.
    Two(&'a [u8], &'a [u8]),
    /// The word and two fields.
    Three(&'a [u8], &'a [u8], &'a [u8]),
    /// The word and three fields.
    Four(&'a [u8], &'a [u8], &'a [u8], &'a [u8]),
    /// More fields than a command has.
    More,
}

/// The first field, and what stands behind the space that ends it, if one does.
fn cut_field(text: &[u8]) -> (&[u8], Option<&[u8]>)
    ensures parts { MatchOption result.1 (parts_of text.now ≡ result.0.now ∷ [])
        (λ rest. parts_of text.now ≡ result.0.now ∷ parts_of rest.now) }
    ensures word { length result.0.now ≤ length text.now }
    ensures rest { IfSome result.1 (λ rest. length rest.now ≤ length text.now) }
{
    match find_byte(text, b' ') {
        Some(place) => (&text[..place], Some(&text[place + 1..])),
        None => (text, None),
    }
}

/// Splits a line into its fields.
pub fn split_fields(text: &[u8]) -> Fields<'_>
    ensures value { AreFields result (parts_of text.now) }
    ensures fits { FitFields (length text.now) result }
{
    let (word, rest) = cut_field(text);
    let Some(rest) = rest else {
        return Fields::One(word);
    };
    let (first, rest) = cut_field(rest);
    let Some(rest) = rest else {
        return Fields::Two(word, first);
    };
    let (second, rest) = cut_field(rest);
    let Some(rest) = rest else {
        return Fields::Three(word, first, second);
    };
    let (third, rest) = cut_field(rest);
    if rest.is_some() {
        return Fields::More;
    }
    Fields::Four(word, first, second, third)
}

/// The fields of a session's line, which exactly one space parts: the word, the number of a session, and what a command
/// is to be read from.
#[derive(Clone, Copy)]
pub enum CallFields<'a> {
    /// The word alone.
    One(&'a [u8]),
    /// The word and a number.
    Two(&'a [u8], &'a [u8]),
    /// The word, a number, and all that stands behind the space that ends the number.
    More(&'a [u8], &'a [u8], &'a [u8]),
}

/// Splits a session's line into its fields.
pub fn split_call(text: &[u8]) -> CallFields<'_>
    ensures value { AreCallFields result (parts_of text.now) }
    ensures fits { FitCallFields (length text.now) result }
{
    let (word, rest) = cut_field(text);
    let Some(rest) = rest else {
        return CallFields::One(word);
    };
    let (number, rest) = cut_field(rest);
    let Some(rest) = rest else {
        return CallFields::Two(word, number);
    };
    CallFields::More(word, number, rest)
}

/// Whether the first field of a line is the word of a command that changes the tree.
pub fn has_change_word(text: &[u8]) -> bool
    ensures { result ≡ has_change_word (parts_of text.now) }
{
    let (word, _) = cut_field(text);
    is_change_word(word)
}

/// Whether a word is that of a command that changes the tree.
fn is_change_word(word: &[u8]) -> bool
    ensures { result ≡ is_change_word word.now }
{
    word == b"make".as_slice()
        || word == b"write".as_slice()
        || word == b"cut".as_slice()
        || word == b"rename".as_slice()
        || word == b"remove".as_slice()
        || word == b"prune".as_slice()
        || word == b"set".as_slice()
        || word == b"unset".as_slice()
}

/// Reads the path that a field spells.
pub fn read_path(text: &[u8]) -> Result<Path, Refusal>
    ensures { ReadsPath text.now result }
{
    match Path::parse(text) {
        Ok(path) => Ok(path),
        Err(PathFault::Syntax) => Err(Refusal::Syntax),
        Err(PathFault::TooLong) => Err(Refusal::Path),
    }
}

/// Whether a field is digits, with no leading zero but `0` itself.
fn is_numeral(text: &[u8]) -> bool
    ensures { result ≡ is_numeral text.now }
{
    match text {
        [] => false,
        [digit] => digit.is_ascii_digit(),
        [first, ..] => *first != b'0' && are_digits(text),
    }
}

/// Whether each byte is a digit.
fn are_digits(text: &[u8]) -> bool
    ensures { result ≡ list_all is_digit text.now }
{
    text.iter().all(u8::is_ascii_digit)
}

/// Reads the number that a text spells, 0 to 4,294,967,295: one or more of the digits `0` to `9`, the highest first,
/// with no leading zero but `0` itself, and nothing else: no sign, no space, no separator. `None` exactly where the
/// text spells no number, or a greater one. It takes no memory.
pub fn parse_number(text: &[u8]) -> Option<u32>
    ensures { result ≡ number_of text.now }
{
    let number = parse_long(text)?;
    u32::try_from(number).ok()
}

/// Reads the number that a text spells in the same way, 0 to 18,446,744,073,709,551,615. `None` exactly where the text
/// spells no number, or a greater one. It takes no memory.
#[tactic(auto, unfolding(crate::specs::Parsing::long_of))]
pub fn parse_long(text: &[u8]) -> Option<u64>
    ensures { result ≡ long_of text.now }
{
    if !is_numeral(text) {
        return None;
    }
    digits_value(text)
}

/// The number that digits spell, where it has 64 bits.
fn digits_value(digits: &[u8]) -> Option<u64>
    requires { list_all is_digit digits.now ≡ true }
    ensures { result ≡ (if nat_le (digits_value digits.now) long_limit then Some
        (digits_value digits.now) else None) }
{
    let mut value = 0u64;
    for digit in digits {
        let tens = value.checked_mul(10)?;
        value = tens.checked_add(u64::from(*digit - b'0'))?;
    }
    Some(value)
}

/// Reads the bytes that a field spells, into the room that is lent, a byte for two of the field: `-` for none, or
/// pairs of hexadecimal digits of either case.
pub fn read_bytes<'a>(text: &[u8], room: &'a mut [u8]) -> Option<&'a [u8]>
    requires { length text.now ≤ 2 * length room.old }
    ensures value { MatchOption result (content_of text.now ≡ None)
        (λ bytes. content_of text.now ≡ Some bytes.now) }
    ensures fits { IfSome result (λ bytes. length bytes.now ≤ length room.old) }
{
    if text == b"-".as_slice() {
        return Some(&[]);
    }
    if text.is_empty() {
        return None;
    }
    let bytes = &mut room[..text.len() / 2];
    if decode_pairs(text, bytes) {
        Some(bytes)
    } else {
        None
    }
}

/// Decodes pairs of hexadecimal digits, and says whether the text is that.
fn decode_pairs(text: &[u8], bytes: &mut [u8]) -> bool
    requires { length bytes.old ≡ length text.now / 2 }
    ensures { ok_value (decode_of text.now) ≡ (if result then Some bytes.new else None) }
{
    hex::decode_to_slice(text, bytes).is_ok()
}
