//! Paths, held as the fields of keys.

ghost use Rattle.std.specs.Prelude.{◌≡◌, ◌<◌, ◌≤◌, ◌+◌, ◌-◌, ◌^◌, ◌↔◌, ℕ, [], ◌++◌, length, take, slice_set, true};
ghost use Rattle.std.specs.Prelude.{false, nat_eq, Some, None, IfOk, IfSome, IfNone, IsErrOf, IsSome, IsNone, IsTrue};
ghost use Rattle.std.specs.Cmp.{partial_equiv_from_equiv};
ghost use Rattle.std.proofs.Common.{refl};
ghost use Rattle.std.specs.Cmp.Lexicographic.{pointwise, lists_equiv, lists_total, nat_list_eq_equiv};
ghost use Rattle.std.specs.Cmp.Lexicographic.{nat_list_cmp_total};
ghost use Rattle.path_keys.specs.PathOrder.{paths_po, paths_ties};
ghost use Rattle.std.specs.Int.{w32, to_be_bytes};
ghost use Rattle.std.specs.declared.cmp.Ordering.TheVariants.{Less};
ghost use Rattle.std.specs.Ordering.{is_le};
ghost use Rattle.store_model.specs.Lists.{zero_filled};
ghost use Rattle.store_model.specs.Paths as model;
ghost use Rattle.store_model.specs.Grammar.{path_of};
ghost use Rattle.store_base.specs.Keys.{IsKey};

use crate::names::{FIELD_LEN, MARK, are_names, field_of_names, last_start, used_len};
use byteorder::{BigEndian, ByteOrder};
use std::cmp::Ordering;
use std::marker::Model;
use store_base::Key;
use thiserror::Error;

/// Why bytes are no path that a key can hold.
#[derive(Clone, Copy, Debug, PartialEq, Eq, Error)]
pub enum PathFault {
    /// They are no path of any length.
    #[error("not a path")]
    Syntax,
    /// They are a path of more than 120 bytes.
    #[error("the path has more than 120 bytes")]
    TooLong,
}

/// A path that a key can hold: the root, or names one below the other.
#[derive(Clone, Copy, Debug)]
pub struct Path {
    /// Each name with a byte 0 behind it, and zeros.
    bytes: [u8; FIELD_LEN],
    /// How many of the bytes are names and the zeros that end them.
    len: u8,
}

impl Model for Path {
    ghost use Rattle.std.specs.Prelude.{List, ℕ, take};
    ghost use Rattle.store_model.specs.Paths.{field, field_len};
    ghost use Rattle.path_keys.specs.Fields.{names_in, IsField};

    ghost Value = { List (List ℕ) };

    ghost view = { λ p. names_in (take p.len p.bytes) };

    ghost invariant = { λ p. IsField p.bytes p.len (names_in (take p.len p.bytes)) };

    ghost inverse = { λ names. record { bytes = field names; len = field_len names } };
}

impl Path {
    ghost use Rattle.path_keys.specs.Reading.{IsOfNames, HasNoPath, IsOfField};

    /// The most bytes of the text of a path.
    pub const MAX_LEN: usize = FIELD_LEN;

    /// The root.
    pub fn root() -> Self
        ensures { result ≡ [] }
    {
        Path {
            bytes: [0; FIELD_LEN],
            len: 0,
        }
    }

    /// Whether it is the root.
    pub fn is_root(&self) -> bool
        ensures value { result ≡ model.is_root self.now }
        ensures valid { IsTrue (model.is_path self.now) }
    {
        self.len == 0
    }

    /// Reads the path that a text spells: `/` for the root, and else `/` and a name once or more.
    pub fn parse(text: &[u8]) -> Result<Path, PathFault>
        ensures value { IfOk result (λ p. path_of text.now ≡ Some p) }
        ensures valid { IfOk result (λ p. IsTrue (model.is_path p)) }
        ensures syntax { IsErrOf result PathFault.Syntax ↔ (path_of text.now ≡ None) }
        ensures too_long { IsErrOf result PathFault.TooLong
            ↔ (IsSome (path_of text.now) × (FIELD_LEN < length text.now)) }
        ensures too_long_field { IsErrOf result PathFault.TooLong
            → IfSome (path_of text.now) (λ p. model.fits_field p ≡ false) }
    {
        let Some((first, names)) = text.split_first() else {
            return Err(PathFault::Syntax);
        };
        if *first != b'/' {
            return Err(PathFault::Syntax);
        }
        if names.is_empty() {
            return Ok(Path::root());
        }
        Path::of_names(names, b'/')
    }

    /// The path of one or more names that are parted by the separator.
    pub(crate) fn of_names(text: &[u8], separator: u8) -> Result<Path, PathFault>
        ensures { IsOfNames separator text.now result }
    {
        if !are_names(text, separator) {
            return Err(PathFault::Syntax);
        }
        if text.len() >= FIELD_LEN {
            return Err(PathFault::TooLong);
        }
        Ok(Path {
            bytes: field_of_names(text, separator),
            len: text.len() as u8 + 1,
        })
    }

    /// The key of a pair of this path.
    pub fn key(&self, block: u32) -> Key
        ensures value { result ≡ model.key self.now block }
        ensures valid { IsKey result }
        ensures path { IsTrue (model.is_path self.now) }
    {
        key_of_field(&self.bytes, block)
    }

    /// The field that has these bytes behind the path's names, and zeros behind them.
    fn field_behind(&self, behind: &[u8]) -> [u8; FIELD_LEN]
        requires { model.field_len self.now + length behind.now ≤ FIELD_LEN }
        ensures { result ≡ zero_filled FIELD_LEN (model.name_bytes self.now ++ behind.now) }
    {
        let start = self.len as usize;
        let mut bytes = self.bytes;
        bytes[start..start + behind.len()].copy_from_slice(behind);
        bytes
    }

    /// The key whose field has these bytes behind the path's names, and zeros behind them.
    pub(crate) fn key_behind(&self, behind: &[u8], block: u32) -> Key
        requires { model.field_len self.now + length behind.now ≤ FIELD_LEN }
        ensures value { result ≡ zero_filled FIELD_LEN (model.name_bytes self.now ++ behind.now)
            ++ to_be_bytes w32 block }
        ensures valid { IsKey result }
    {
        key_of_field(&self.field_behind(behind), block)
    }

    /// Reads the path and the block number of a key; `None` where its field is no path's, or the root's.
    pub fn of_key(key: &Key) -> Option<(Path, u32)>
        ensures some { IfSome result (λ found. model.key found.0 found.1 ≡ key.now) }
        ensures valid { IfSome result (λ found. IsTrue (model.is_path found.0)) }
        ensures below_root { IfSome result (λ found. model.is_root found.0 ≡ false) }
        ensures none { IfNone result (HasNoPath (take FIELD_LEN key.now)) }

        // Each key of a path other than the root is read.
        ensures only { (p : model.Path) (block : ℕ) → IsTrue (model.is_path p)
            → model.is_root p ≡ false
            → block < 2 ^ 32 → key.now ≡ model.key p block → result ≡ Some (p, block) }
    {
        let (field, block) = key.as_bytes().split_at(FIELD_LEN);
        let path = Path::of_field(field)?;
        Some((path, block_of(block)))
    }

    /// The path other than the root that has this field.
    fn of_field(field: &[u8]) -> Option<Path>
        requires { length field.now ≡ FIELD_LEN }
        ensures { IsOfField field.now result }
    {
        let len = used_len(field);
        if len >= FIELD_LEN || !are_names(&field[..len], 0) {
            return None;
        }
        let mut bytes = [0; FIELD_LEN];
        bytes.copy_from_slice(field);
        Some(Path {
            bytes,
            len: len as u8 + 1,
        })
    }

    /// The names, each with a byte 0 behind it.
    pub(crate) fn names(&self) -> &[u8]
        ensures value { result.now ≡ model.name_bytes self.now }
        ensures valid { IsTrue (model.is_path self.now) }
    {
        &self.bytes[..self.len as usize]
    }

    /// Where the last name begins in the field.
    fn name_start(&self) -> usize
        requires { model.is_root self.now ≡ false }
        ensures value { result ≡ model.field_len (model.parent self.now) }
        ensures within { result < model.field_len self.now }
    {
        last_start(&self.bytes[..self.len as usize - 1])
    }

    /// The last name.
    pub fn name(&self) -> &[u8]
        requires { model.is_root self.now ≡ false }
        ensures { result.now ≡ model.last_name self.now }
    {
        &self.bytes[self.name_start()..self.len as usize - 1]
    }

    /// The path without its last name; `None` for the root.
    pub fn parent(&self) -> Option<Path>
        ensures none { IsNone result ↔ IsTrue (model.is_root self.now) }
        ensures value { IfSome result (λ q. q ≡ model.parent self.now) }
        ensures valid { IfSome result (λ q. IsTrue (model.is_path q)) }
    {
        if self.is_root() {
            return None;
        }
        let len = self.name_start();
        let mut bytes = [0; FIELD_LEN];
        bytes[..len].copy_from_slice(&self.bytes[..len]);
        Some(Path {
            bytes,
            len: len as u8,
        })
    }

    /// A key above those of this path and of all paths below it, and below those of each later path.
    pub fn past(&self) -> Key
        requires { model.is_root self.now ≡ false }
        ensures value { result ≡ slice_set (model.key self.now 0) (model.field_len self.now - 1) 1 }
        ensures valid { IsKey result }
        ensures path { IsTrue (model.is_path self.now) }

        // It stands behind the keys of the subtree, attributes among them.
        ensures above { (q : model.Path) (block : ℕ) → IsTrue (model.is_place q)
            → IsTrue (model.is_at_or_inside q self.now)
            → model.key_cmp (model.key q block) result ≡ Less }

        // And it stands before the keys of each path behind this one that is not in the subtree,
        ensures below { (q : model.Path) (block : ℕ) → IsTrue (model.is_path q)
            → model.is_at_or_inside q self.now ≡ false
            → model.path_cmp self.now q ≡ Less → model.key_cmp result (model.key q block) ≡ Less }

        // and not behind those of each such place.
        ensures not_above { (q : model.Path) (block : ℕ) → IsTrue (model.is_place q)
            → model.is_at_or_inside q self.now ≡ false
            → model.path_cmp self.now q ≡ Less
            → is_le (model.key_cmp result (model.key q block)) ≡ true }
    {
        let mut bytes = *self.key(0).as_bytes();
        bytes[self.len as usize - 1] = 1;
        Key::new(bytes)
    }

    /// A key above those of this path and of its attributes, and above no key of a path below it.
    pub fn below(&self) -> Key
        ensures valid { IsKey result }
        ensures path { IsTrue (model.is_path self.now) }

        // It stands behind the path's blocks, but for the last one that there could be,
        ensures blocks { (block : ℕ) → block < 2 ^ 32 - 1
            → model.key_cmp (model.key self.now block) result ≡ Less }

        // behind its attributes,
        ensures attributes { (a : model.Name) (block : ℕ) → IsTrue (model.is_attribute_name a)
            → IsTrue (model.fits_attribute self.now a)
            → block < 2 ^ 32
            → model.key_cmp (model.key (model.attribute_place self.now a) block) result ≡ Less }

        // and not behind what lies below it.
        ensures below { (q : model.Path) (block : ℕ) → IsTrue (model.is_path q)
            → IsTrue (model.is_inside q self.now)
            → block < 2 ^ 32 → is_le (model.key_cmp result (model.key q block)) ≡ true }

        // Nor does it stand behind the keys of each path behind this one that is not in the subtree.
        ensures behind { (q : model.Path) (block : ℕ) → IsTrue (model.is_path q)
            → model.is_at_or_inside q self.now ≡ false
            → model.path_cmp self.now q ≡ Less
            → is_le (model.key_cmp result (model.key q block)) ≡ true }
    {
        if self.len as usize == FIELD_LEN {
            return self.key(u32::MAX);
        }
        self.key_behind(&[MARK + 1], 0)
    }

    /// The path after a move of `old` to `new`, where it is `old` or lies below it. `None` where its field would have
    /// more than 120 bytes.
    pub fn replant(&self, old: &Path, new: &Path) -> Option<Path>
        requires { IsTrue (model.is_at_or_inside self.now old.now) }
        ensures value { IfSome result (λ p. p ≡ model.replanted old.now new.now self.now) }
        ensures none { IsNone result
            ↔ (model.fits_field (model.replanted old.now new.now self.now) ≡ false) }
        ensures valid { IfSome result (λ p. IsTrue (model.is_path p)) }
    {
        let below = &self.names()[old.names().len()..];
        let len = new.names().len() + below.len();
        if len > FIELD_LEN {
            return None;
        }
        Some(Path {
            bytes: new.field_behind(below),
            len: len as u8,
        })
    }

    /// Whether it lies strictly below the other path.
    pub fn is_inside(&self, other: &Path) -> bool
        ensures value { result ≡ model.is_inside self.now other.now }
        ensures valid { IsTrue (model.is_path self.now) × IsTrue (model.is_path other.now) }
    {
        let len = other.len as usize;
        other.len < self.len && self.bytes[..len] == other.bytes[..len]
    }
}

impl PartialEq for Path {
    ghost eq = { pointwise (pointwise nat_eq) };

    ghost laws = { partial_equiv_from_equiv (lists_equiv nat_list_eq_equiv) };

    fn eq(&self, other: &Self) -> bool
        ensures value { result ≡ pointwise (pointwise nat_eq) self.now other.now }
        ensures same { IsTrue result ↔ (self.now ≡ other.now) }
    {
        self.bytes == other.bytes
    }
}

impl Eq for Path {
    ghost laws = { lists_equiv nat_list_eq_equiv };
}

impl PartialOrd for Path {
    ghost partial_cmp = { λ a b. Some (model.path_cmp a b) };

    ghost laws = { paths_po };

    fn partial_cmp(&self, other: &Self) -> Option<Ordering> {
        Some(self.cmp(other))
    }
}

impl Ord for Path {
    ghost cmp = { model.path_cmp };

    ghost total = { lists_total nat_list_cmp_total };

    ghost matches_partial_cmp = { λ a b. refl };

    ghost matches_eq = { paths_ties };

    /// Name by name, each name as bytes: a path stands before those below it. Fields have that order as
    /// bytes, so no name is looked for.
    fn cmp(&self, other: &Self) -> Ordering
        ensures value { result ≡ model.path_cmp self.now other.now }
        ensures valid { IsTrue (model.is_path self.now) × IsTrue (model.is_path other.now) }
    {
        self.bytes.cmp(&other.bytes)
    }
}

/// The key of a field and a block number.
fn key_of_field(field: &[u8; FIELD_LEN], block: u32) -> Key
    ensures value { result ≡ field.now ++ to_be_bytes w32 block }
    ensures valid { IsKey result }
{
    let mut bytes = [0; 124];
    bytes[..FIELD_LEN].copy_from_slice(field);
    BigEndian::write_u32(&mut bytes[FIELD_LEN..], block);
    Key::new(bytes)
}

/// The block number that four bytes spell.
pub(crate) fn block_of(bytes: &[u8]) -> u32
    requires { length bytes.now ≡ 4 }
    ensures { to_be_bytes w32 result ≡ bytes.now }
{
    BigEndian::read_u32(bytes)
}
