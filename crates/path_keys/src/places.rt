//! Keys of whatever stands at a path or below it: its blocks, its attributes, and those of the paths below.

ghost use Rattle.std.specs.Prelude.{◌≡◌, ◌-◌, ◌^◌, ◌<◌, ◌↔◌, ℕ, length, false, IfSome, IsNone, IsTrue};
ghost use Rattle.store_model.specs.Paths as model;
ghost use Rattle.store_base.specs.Keys.{IsKey};

use crate::names::{FIELD_LEN, used_len};
use crate::paths::{Path, block_of};
use byteorder::{BigEndian, ByteOrder};
use store_base::Key;

/// The key after a move of `old` to `new`; its place lies at `old` or below it. `None` where its field would have
/// more than 120 bytes. Attributes move as paths do.
pub fn replant(key: &Key, old: &Path, new: &Path) -> Option<Key>
    ensures value { (place : model.Path) (block : ℕ) → IsTrue (model.is_place place)
        → IsTrue (model.is_at_or_inside place old.now)
        → block < 2 ^ 32 → key.now ≡ model.key place block
        → IfSome result (λ k. k ≡ model.key (model.replanted old.now new.now place) block) }
    ensures none { (place : model.Path) (block : ℕ) → IsTrue (model.is_place place)
        → IsTrue (model.is_at_or_inside place old.now)
        → block < 2 ^ 32 → key.now ≡ model.key place block
        → (IsNone result ↔ (model.fits_field (model.replanted old.now new.now place) ≡ false)) }
    ensures valid { IfSome result IsKey }
{
    let (field, block) = key.as_bytes().split_at(FIELD_LEN);
    let below = place_names(field).strip_prefix(old.names())?;
    if new.names().len() + below.len() > FIELD_LEN {
        return None;
    }
    Some(new.key_behind(below, block_of(block)))
}

/// The last key that stands at the key's place: the one with the greatest block number.
pub fn last_at(key: &Key) -> Key
    ensures value { (place : model.Path) (block : ℕ)
        → IsTrue (model.is_place place) → block < 2 ^ 32
        → key.now ≡ model.key place block
        → result ≡ model.key place (2 ^ 32 - 1) }
    ensures valid { IsKey result }
{
    let mut bytes = *key.as_bytes();
    BigEndian::write_u32(&mut bytes[FIELD_LEN..], u32::MAX);
    Key::new(bytes)
}

/// What stands at a place in its field: parts, each with a byte 0 behind it.
fn place_names(field: &[u8]) -> &[u8]
    requires { length field.now ≡ FIELD_LEN }
    ensures { (place : model.Path) → IsTrue (model.is_place place) → field.now ≡ model.field place
        → result.now ≡ model.name_bytes place }
{
    match used_len(field) {
        0 => &field[..0],
        FIELD_LEN => field,
        used => &field[..used + 1],
    }
}
