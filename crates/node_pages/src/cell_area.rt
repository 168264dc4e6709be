//! The bytes of cells: a key of 124 bytes, and at level 0 the length of its value in two bytes and the
//! value, zero-filled to 256 bytes. Behind the last cell of a page stand zeros.

ghost use Rattle.std.specs.Prelude.{◌≡◌, ◌↔◌, ◌*◌, ◌≤◌, [], length, IsTrue};
ghost use Rattle.std.specs.declared.cmp.Ordering.TheVariants.{Less};
ghost use Rattle.store_model.specs.Paths.{key_cmp};
ghost use Rattle.store_model.specs.Pages as model;
ghost use Rattle.node_pages.specs.CellAreas as cells;

use store_base::{Value, are_zero, byte_order};

/// The bytes of a key.
pub const KEY_LEN: usize = 124;

/// The bytes of a cell of level 0, which are the most.
pub const MOST_LEN: usize = 382;

/// How many bytes a cell of the level has.
pub fn cell_len(level: u8) -> usize
    ensures { result ≡ cells.cell_size level }
{
    if level == 0 { MOST_LEN } else { KEY_LEN }
}

/// How many cells a page of the level holds at most: 10 at level 0, 31 above.
pub fn room(level: u8) -> u8
    ensures { result ≡ model.page_room level }
{
    if level == 0 { 10 } else { 31 }
}

/// Whether these bytes are a value's: its length from 1 to 256, and no other bytes than zeros behind it.
fn is_value(bytes: &[u8]) -> bool
    requires { length bytes.now ≡ 258 }
    ensures { IsTrue result ↔ cells.SpellsValue bytes.now }
{
    let len = usize::from(u16::from_be_bytes([bytes[0], bytes[1]]));
    1 <= len && len <= Value::MAX_LEN && are_zero(&bytes[2 + len..])
}

/// Whether these bytes are those of a cell of the level.
fn is_cell(level: u8, bytes: &[u8]) -> bool
    requires { length bytes.now ≡ cells.cell_size level }
    ensures { IsTrue result ↔ cells.SpellsCell level bytes.now }
{
    let (_, value) = bytes.split_at(KEY_LEN);
    level != 0 || is_value(value)
}

/// Whether a key is strictly below another.
pub fn is_below(key: &[u8], other: &[u8]) -> bool
    ensures { IsTrue result ↔ (key_cmp key.now other.now ≡ Less) }
{
    byte_order(key, other).is_lt()
}

/// Whether the bytes begin with so many cells of the level, with keys that strictly rise.
fn are_cells(level: u8, count: u8, bytes: &[u8]) -> bool
    requires { cells.cell_size level * count ≤ length bytes.now }
    ensures { IsTrue result ↔ cells.SpellsRising level [] count bytes.now }
{
    let mut last: &[u8] = &[];
    let mut rest = bytes;
    for _ in 0..count {
        let (cell, after) = rest.split_at(cell_len(level));
        let (key, _) = cell.split_at(KEY_LEN);
        if !is_cell(level, cell) || !is_below(last, key) {
            return false;
        }
        last = key;
        rest = after;
    }
    true
}

/// Whether these bytes, behind the count of a page of the level, are those of so many cells and zeros.
pub fn are_whole(level: u8, count: u8, area: &[u8]) -> bool
    requires { length area.now ≡ 3964 }
    ensures { IsTrue result ↔ cells.SpellsCells level count area.now }
{
    if count == 0 || count > room(level) {
        return false;
    }
    let (_, rest) = area.split_at(cell_len(level) * usize::from(count));
    are_zero(rest) && are_cells(level, count, area)
}
