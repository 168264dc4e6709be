//! Attributes of paths: their names and their keys. No other crate knows these keys' bytes.

ghost use Rattle.std.specs.Prelude.{◌≡◌, ◌⊎◌, ◌↔◌, List, ℕ, length, true, false, IfSome, IfNone, IsNone, IsTrue};
ghost use Rattle.store_model.specs.Paths as model;
ghost use Rattle.store_base.specs.Keys.{IsKey};
ghost use Rattle.path_keys.specs.Reading.{HasNoAttribute};

use crate::names::{FIELD_LEN, MARK, is_name, last_start, used_len};
use crate::paths::{Path, block_of};
use std::marker::Model;
use store_base::Key;

/// The name of an attribute: a name of 1 to 32 bytes.
#[derive(Clone, Copy, Debug)]
pub struct AttrName {
    /// The name, and zeros.
    bytes: [u8; AttrName::MAX_LEN],
    /// How many of the bytes are the name.
    len: u8,
}

impl Model for AttrName {
    ghost use Rattle.std.specs.Prelude.{List, ℕ, length, take};
    ghost use Rattle.store_model.specs.Paths.{attribute_name_limit};
    ghost use Rattle.store_model.specs.Lists.{zero_filled};
    ghost use Rattle.path_keys.specs.Fields.{IsNameField};

    ghost Value = { List ℕ };

    ghost view = { λ n. take n.len n.bytes };

    ghost invariant = { λ n. IsNameField n.bytes n.len (take n.len n.bytes) };

    ghost inverse = { λ name. record {
      bytes = zero_filled attribute_name_limit name;
      len = length name;
    } };
}

impl AttrName {
    /// The most bytes of an attribute's name.
    pub const MAX_LEN: usize = 32;

    /// Reads the name that a text is; `None` where it is no name, or one of more than 32 bytes.
    pub fn parse(text: &[u8]) -> Option<AttrName>
        ensures some { IfSome result (λ name. (name ≡ text.now)
            × IsTrue (model.is_attribute_name name)) }
        ensures none { IsNone result ↔ (model.is_attribute_name text.now ≡ false) }
    {
        if text.len() > AttrName::MAX_LEN || !is_name(text) {
            return None;
        }
        let mut bytes = [0; AttrName::MAX_LEN];
        bytes[..text.len()].copy_from_slice(text);
        Some(AttrName {
            bytes,
            len: text.len() as u8,
        })
    }

    /// Its bytes.
    pub fn as_bytes(&self) -> &[u8]
        ensures value { result.now ≡ self.now }
        ensures valid { IsTrue (model.is_attribute_name self.now) }
    {
        &self.bytes[..self.len as usize]
    }
}

/// Makes the key of an attribute of a path; `None` for the root, and where path and name need more than 120 bytes.
pub fn attr_key(path: &Path, name: &AttrName) -> Option<Key>
    ensures value { IfSome result (λ key. key ≡ model.attribute_key path.now name.now) }
    ensures valid { IfSome result IsKey }
    ensures none { IsNone result
        ↔ ((model.is_root path.now ≡ true) ⊎ (model.fits_attribute path.now name.now ≡ false)) }
    ensures path { IsTrue (model.is_path path.now) }
    ensures name { IsTrue (model.is_attribute_name name.now) }
{
    let start = path.names().len() + 1;
    let end = start + name.as_bytes().len();
    if path.is_root() || end >= FIELD_LEN {
        return None;
    }
    let mut bytes = *path.key_behind(&[MARK], 0).as_bytes();
    bytes[start..end].copy_from_slice(name.as_bytes());
    Some(Key::new(bytes))
}

/// Reads the path and the name from an attribute's key; `None` where it is no such key.
pub fn of_attr_key(key: &Key) -> Option<(Path, AttrName)>
    ensures some { IfSome result (λ found. model.attribute_key found.0 found.1 ≡ key.now) }
    ensures path { IfSome result (λ found. IsTrue (model.is_path found.0)) }
    ensures below_root { IfSome result (λ found. model.is_root found.0 ≡ false) }
    ensures name { IfSome result (λ found. IsTrue (model.is_attribute_name found.1)) }
    ensures fits { IfSome result (λ found. IsTrue (model.fits_attribute found.0 found.1)) }
    ensures none { IfNone result (HasNoAttribute key.now) }
{
    let (field, block) = key.as_bytes().split_at(FIELD_LEN);
    let end = used_len(field);
    let start = last_start(&field[..end]);
    if block_of(block) != 0 || end == FIELD_LEN || start == 0 || field[start] != MARK {
        return None;
    }
    let name = AttrName::parse(&field[start + 1..end])?;
    match Path::of_names(&field[..start - 1], 0) {
        Ok(path) => Some((path, name)),
        Err(_) => None,
    }
}
