//! What stands at a path, and the value that says it in the path's first pair; and the values of attributes. Here alone
//! stand the byte that begins each kind of value, and how long a file, its blocks, a file in one pair and an attribute
//! are.

ghost use Rattle.std.specs.Prelude.{◌≡◌, ◌<◌, ◌≤◌, List, ◌∷◌, ℕ, length, Option, IfSome, MatchOption, Some, IsTrue};
ghost use Rattle.store_model.specs.Paths.{is_path};
ghost use Rattle.store_model.specs.Trees.{Node, contents_of, file_limit, attribute_limit};
ghost use Rattle.store_model.specs.Pairs as model;
ghost use Rattle.ordered_pairs.specs.PairsState.{IsObservable};
ghost use Rattle.tree_pairs.specs.Kinds.{IsKind, IsValueOf, Says, LacksBytes, IsNoAttribute, kind_of_node, first_value};
ghost use Rattle.tree_pairs.specs.TreeCalls.{TellsKind, TellsFirst};

use byteorder::{BigEndian, ByteOrder};
use ordered_pairs::OrderedPairs;
use path_keys::Path;
use store_base::{Fault, Value};
use store_model::Version;

/// The most bytes of a file.
pub const FILE_LIMIT: u32 = 16_777_216;

/// The bytes of a file in one block; its last block has the rest.
pub const FILE_BLOCK: u32 = Value::MAX_LEN as u32;

/// The most bytes of a file that stands in its first pair alone.
pub const INLINE_LIMIT: u32 = 200;

/// The most bytes of an attribute.
pub const ATTRIBUTE_LIMIT: usize = 255;

/// The byte that a directory's value has.
const DIRECTORY: u8 = 1;

/// The byte that begins the first value of a file whose bytes stand in blocks; its length follows.
const FILE: u8 = 2;

/// The byte that begins the value of a file in one pair; its bytes follow.
const INLINE: u8 = 3;

/// The byte that begins the value of an attribute; its bytes follow.
const ATTRIBUTE: u8 = 4;

/// The place in the value of a file in one pair at which the file's bytes begin.
pub const INLINE_START: usize = 1;

/// What stands at a path.
#[derive(Clone, Copy, Debug, PartialEq, Eq)]
pub enum Kind {
    /// A directory, as the root always is.
    Directory,
    /// A file of so many bytes.
    File(u32),
}

/// The value of a directory's one pair: the byte 1.
pub fn directory_value() -> Value
    ensures { result ≡ model.directory_value }
{
    Value::new(&[DIRECTORY])
}

/// The value of the first pair of a file of so many bytes that stand in blocks: the byte 2, and the length in four
/// bytes (big-endian).
pub fn file_value(len: u32) -> Value
    ensures { result ≡ model.file_value len }
{
    let mut bytes = [FILE; 5];
    BigEndian::write_u32(&mut bytes[1..], len);
    Value::new(&bytes)
}

/// The value of the one pair of a file with these bytes: the byte 3, and the bytes.
pub fn inline_value(bytes: &[u8]) -> Value
    requires { length bytes.now ≤ model.inline_limit }
    ensures { result ≡ model.inline_value bytes.now }
{
    value_behind(INLINE, bytes)
}

/// The value of the pair of an attribute with these bytes: the byte 4, and the bytes.
pub fn attribute_value(bytes: &[u8]) -> Value
    requires { length bytes.now ≤ attribute_limit }
    ensures { result ≡ model.attribute_value bytes.now }
{
    value_behind(ATTRIBUTE, bytes)
}

/// The value of a byte that tells its kind, and these bytes behind it.
fn value_behind(first: u8, bytes: &[u8]) -> Value
    requires { length bytes.now < Value.MAX_LEN }
    ensures { result ≡ first ∷ bytes.now }
{
    let mut value = [first; Value::MAX_LEN];
    value[1..=bytes.len()].copy_from_slice(bytes);
    Value::new(&value[..=bytes.len()])
}

/// The bytes of the attribute that has this value; `None` exactly where it is no attribute's.
pub fn attribute_in(value: &[u8]) -> Option<&[u8]>
    ensures bytes { MatchOption result (IsNoAttribute value.now)
        (λ bytes. value.now ≡ model.attribute_value bytes.now) }
    ensures fits { IfSome result (λ bytes. length bytes.now ≤ attribute_limit) }
{
    match value {
        [ATTRIBUTE, bytes @ ..] if bytes.len() <= ATTRIBUTE_LIMIT => Some(bytes),
        _ => None,
    }
}

/// Whether a version has a file of so many bytes in one pair.
pub fn is_inline(version: Version, len: u32) -> bool
    ensures { result ≡ model.is_inline version len }
{
    match version {
        Version::One => false,
        Version::Two => len <= INLINE_LIMIT,
    }
}

/// What the first value of a path says, under either version; `None` exactly where it is no such value.
pub fn kind_in(value: &[u8]) -> Option<Kind>
    ensures found { IfSome result (λ kind. IsKind kind × Says value.now kind) }
    ensures only { (kind : Kind) → IsKind kind → Says value.now kind → result ≡ Some kind }
{
    match value {
        [DIRECTORY] => Some(Kind::Directory),
        [FILE, a, b, c, d] => {
            let len = u32::from_be_bytes([*a, *b, *c, *d]);
            (len <= FILE_LIMIT).then_some(Kind::File(len))
        }
        [INLINE, bytes @ ..] if bytes.len() <= INLINE_LIMIT as usize => {
            Some(Kind::File(bytes.len() as u32))
        }
        _ => None,
    }
}

/// What the first value of a path says under one version; `None` exactly where the version has no such value.
pub fn kind_under(value: &[u8], version: Version) -> Option<Kind>
    ensures found { IfSome result (λ kind. IsKind kind × IsValueOf version kind value.now) }
    ensures only { (kind : Kind) → IsKind kind
        → IsValueOf version kind value.now → result ≡ Some kind }
{
    match kind_in(value)? {
        Kind::Directory => Some(Kind::Directory),
        Kind::File(len) => {
            let has_bytes = value.first() == Some(&INLINE);
            (has_bytes == is_inline(version, len)).then_some(Kind::File(len))
        }
    }
}

/// The bytes of a file that stand in its first pair; `None` where the first pair has none, or there is no such pair.
pub fn inline_in(first: &Option<Value>) -> Option<&[u8]>
    ensures first { MatchOption result (LacksBytes first.now)
        (λ bytes. first.now ≡ Some (model.inline_value bytes.now)) }
    ensures fits { IfSome result (λ bytes. length bytes.now < Value.MAX_LEN) }
{
    match first.as_ref()?.as_slice() {
        [INLINE, bytes @ ..] => Some(bytes),
        _ => None,
    }
}

/// What the first pair of a path says of it: nothing stands there where there is no such pair.
pub fn kind_told(first: &Option<Value>) -> Option<Kind>
    ensures { (o : Option Node) (version : Version) → length (contents_of o) ≤ file_limit
        → first.now ≡ first_value o version → result ≡ kind_of_node o }
{
    match first {
        Some(value) => kind_in(value.as_slice()),
        None => None,
    }
}

/// The value of the first pair of what stands at a path, if anything does; the root has a directory's. A fault of the
/// pairs is handed on.
pub fn first_of<P: OrderedPairs>(pairs: &mut P, path: &Path) -> Result<Option<Value>, Fault>
    ensures path { IsTrue (is_path path.now) }
    ensures call { TellsFirst path.now (P.state pairs.old) (P.state pairs.new) result }
    ensures hidden { IsObservable (P.state pairs.new) → IsObservable (P.state pairs.old) }
    ensures follows { P.follows pairs.old pairs.new }
{
    if path.is_root() {
        return Ok(Some(directory_value()));
    }
    pairs.get(&path.key(0))
}

/// What stands at a path, if anything does. The root is a directory. A fault of the pairs is handed on.
pub fn kind_of<P: OrderedPairs>(pairs: &mut P, path: &Path) -> Result<Option<Kind>, Fault>
    ensures call { TellsKind path.now (P.state pairs.old) (P.state pairs.new) result }
    ensures hidden { IsObservable (P.state pairs.new) → IsObservable (P.state pairs.old) }
    ensures follows { P.follows pairs.old pairs.new }
{
    let first = first_of(pairs, path)?;
    Ok(kind_told(&first))
}
