//! `attr`: attributes of a path of an image.

ghost use Rattle.std.specs.Prelude.{◌≡◌, ◌/◌, true, false, length, if◌then◌else◌, Some, None, IfOk};
ghost use Rattle.std.specs.Option.{option_map};
ghost use Rattle.std.specs.Result.{result_ok};
ghost use Rattle.hex.specs.Hex.{decode_of};
ghost use Rattle.store_model.specs.Grammar.{ok_value};
ghost use Rattle.box_words.specs.Attributes as model;
ghost use Rattle.box_words.specs.Attributes.{deed_said, new_value};
ghost use Rattle.box_words.specs.Calls.{IsAttr};
ghost use Rattle.box_words.specs.declared.attr.Deed.TheVariants as deeds;

use crate::call::Call;
use crate::fault::CallFault;
use crate::given::word_of;
use clap::ArgMatches;
use path_keys::AttrName;
use store_base::Bytes;

/// The most bytes that an attribute has.
pub const MAX_VALUE: usize = 255;

/// What an attribute is set to.
#[derive(Debug, Drop)]
pub enum NewValue {
    /// To these bytes, of which there are at most 255.
    Bytes(Bytes),
    /// To those of standard input, as `value_of` reads them: to them or, with `--hex`, to those that its digits spell.
    Input(bool),
}

/// What `attr` does.
#[derive(Debug, Drop)]
pub enum Deed {
    /// Lists the names.
    List,
    /// Prints the bytes of this name or, with `--hex`, their digits.
    Print(AttrName, bool),
    /// Sets this name.
    Set(AttrName, NewValue),
    /// Takes this name away.
    Remove(AttrName),
}

/// The value that bytes give an attribute: themselves, or those that they spell in hexadecimal digits of either case.
/// `None`: they spell none, or no attribute has so many.
pub fn value_of(given: &[u8], is_hex: bool) -> Option<Bytes>
    ensures { result ≡ model.value_said is_hex given.now }
{
    if is_hex {
        return spelled_value(given);
    }
    if given.len() > MAX_VALUE {
        return None;
    }
    Some(Bytes::new(given))
}

/// Decodes hexadecimal digits into room for half as many bytes, and answers whether all were digits, and none is left.
fn is_decoded(digits: &[u8], into: &mut [u8]) -> bool
    requires { length into.old ≡ length digits.now / 2 }
    ensures { (if result then Some into.new else None) ≡ ok_value (decode_of digits.now) }
{
    hex::decode_to_slice(digits, into).is_ok()
}

/// The value that hexadecimal digits spell.
fn spelled_value(digits: &[u8]) -> Option<Bytes>
    ensures { result ≡ model.value_said true digits.now }
{
    let mut room = [0; MAX_VALUE];
    let count = digits.len() / 2;
    if count > MAX_VALUE {
        return None;
    }
    let into = &mut room[..count];
    if is_decoded(digits, into) {
        Some(Bytes::new(into))
    } else {
        None
    }
}

/// What the word VALUE sets an attribute to.
fn new_value(word: &str, is_hex: bool) -> Result<NewValue, CallFault<'_>>
    ensures { result_ok result ≡ new_value is_hex word.entry.now }
{
    if word == "-" {
        return Ok(NewValue::Input(is_hex));
    }
    match value_of(word.as_bytes(), is_hex) {
        Some(value) => Ok(NewValue::Bytes(value)),
        None => Err(CallFault::AttrValue(word)),
    }
}

/// What is done that sets a name to what the word VALUE says.
fn setting_of(name: AttrName, word: &str, is_hex: bool) -> Result<Deed, CallFault<'_>>
    ensures { result_ok result ≡ option_map (deeds.Set name) (new_value is_hex word.entry.now) }
{
    match new_value(word, is_hex) {
        Ok(value) => Ok(Deed::Set(name, value)),
        Err(fault) => Err(fault),
    }
}

/// What is done with the attribute that the word NAME names, and to which VALUE may be given.
fn named_deed<'a>(
    name: &'a str,
    value: Option<&'a str>,
    is_hex: bool,
) -> Result<Deed, CallFault<'a>>
    ensures { result_ok result ≡ deed_said (Some name.entry.now) (option_map (λ w. w.now) value.entry) None is_hex }
{
    let Some(parsed) = AttrName::parse(name.as_bytes()) else {
        return Err(CallFault::AttrName(name));
    };
    match value {
        Some(value) => setting_of(parsed, value, is_hex),
        None => Ok(Deed::Print(parsed, is_hex)),
    }
}

/// What is done that takes away the attribute that a word names.
fn removal_of(name: &str) -> Result<Deed, CallFault<'_>>
    ensures { result_ok result ≡ deed_said None None (Some name.entry.now) false }
{
    match AttrName::parse(name.as_bytes()) {
        Some(name) => Ok(Deed::Remove(name)),
        None => Err(CallFault::AttrName(name)),
    }
}

/// What is done, by the words NAME and VALUE, that of `-d`, and `--hex`.
fn deed_of<'a>(
    name: Option<&'a str>,
    value: Option<&'a str>,
    removed: Option<&'a str>,
    is_hex: bool,
) -> Result<Deed, CallFault<'a>>
    ensures { result_ok result ≡ deed_said (option_map (λ w. w.now) name.entry)
        (option_map (λ w. w.now) value.entry) (option_map (λ w. w.now) removed.entry) is_hex }
{
    match (name, value, removed) {
        (Some(name), _, Some(_)) => Err(CallFault::Beside("NAME", name, "-d")),
        (Some(name), value, None) => named_deed(name, value, is_hex),
        (None, Some(_), _) => Err(CallFault::Missing),
        (None, None, _) if is_hex => Err(CallFault::Needs("--hex", "NAME")),
        (None, None, Some(name)) => removal_of(name),
        (None, None, None) => Ok(Deed::List),
    }
}

/// What the words of `attr` ask for.
pub(crate) fn attr_call<'a>(given: &ArgMatches<'a>) -> Result<Call<'a>, CallFault<'a>>
    ensures { IfOk result (IsAttr given.now) }
{
    let (image, path) = (word_of(given, "IMAGE")?, word_of(given, "PATH")?);
    let deed = deed_of(
        given.get_str("NAME"),
        given.get_str("VALUE"),
        given.get_str("remove"),
        given.get_flag("hex"),
    );
    match deed {
        Ok(deed) => Ok(Call::Attr { image, path, deed }),
        Err(fault) => Err(fault),
    }
}
