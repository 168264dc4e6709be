//! Cells read from their bytes, and written, over others or behind them.

ghost use Rattle.std.specs.Prelude.{◌≡◌, ◌+◌, ◌*◌, ◌≤◌, ◌++◌, length, take, drop, Some, IfSome, OnOk, OnErr};
ghost use Rattle.std.specs.Option.{option_map};
ghost use Rattle.store_model.specs.Lists.{zeros, zero_filled};
ghost use Rattle.store_model.specs.Pages.{IsCell};
ghost use Rattle.store_model.specs.Images.{cell_bytes, value_bytes};
ghost use Rattle.node_pages.specs.CellAreas as spelled;
ghost use Rattle.node_pages.specs.CellRefs.{cell_of};
ghost use Rattle.node_pages.specs.PageSlots as cells;

use crate::cell::{Cell, CellRef};
use crate::cell_area::{KEY_LEN, MOST_LEN, cell_len};
use store_base::{Key, NoMemory, Value};

/// The bytes of the cells from number `first` up to number `past`, of cells of the level that stand one
/// behind the other.
pub fn cells_between(level: u8, bytes: &[u8], first: u32, past: u32) -> &[u8]
    requires order { first ≤ past }
    requires within { spelled.cell_size level * past ≤ length bytes.now }
    ensures { result.now ≡ drop (spelled.cell_size level * first)
        (take (spelled.cell_size level * past) bytes.now) }
{
    let len = cell_len(level);
    let (front, _) = bytes.split_at(len * past as usize);
    let (_, cells) = front.split_at(len * first as usize);
    cells
}

/// The key with these bytes.
pub fn read_key(bytes: &[u8]) -> Key
    requires { length bytes.now ≡ KEY_LEN }
    ensures { result ≡ bytes.now }
{
    let mut key = [0; KEY_LEN];
    key.copy_from_slice(bytes);
    Key::new(key)
}

/// The bytes of a value, without the length that stands in front of them.
#[tactic(auto, unfolding(crate::specs::PageSlots::cell_in))]
fn value_behind_length(bytes: &[u8]) -> &[u8]
    requires long { length bytes.now ≡ 258 }
    requires valid { spelled.SpellsValue bytes.now }
    ensures value { Some result.now ≡ cells.value_in 0 bytes.now }
    ensures some { 1 ≤ length result.now }
    ensures fits { length result.now ≤ Value.MAX_LEN }
{
    let len = usize::from(u16::from_be_bytes([bytes[0], bytes[1]]));
    &bytes[2..2 + len]
}

/// The key in front of the bytes of a cell.
pub fn key_part(bytes: &[u8]) -> &[u8]
    requires { KEY_LEN ≤ length bytes.now }
    ensures { result.now ≡ take KEY_LEN bytes.now }
{
    let (key, _) = bytes.split_at(KEY_LEN);
    key
}

/// The bytes of the value of the cell of the level that the bytes spell.
#[tactic(auto, unfolding(crate::specs::PageSlots::cell_in))]
fn value_part(level: u8, bytes: &[u8]) -> Option<&[u8]>
    requires long { length bytes.now ≡ spelled.cell_size level }
    requires valid { spelled.SpellsCell level bytes.now }
    ensures value { option_map (λ value. value.now) result ≡ (cells.cell_in level bytes.now).value }
    ensures fits { IfSome result
        (λ value. (1 ≤ length value.now) × (length value.now ≤ Value.MAX_LEN)) }
{
    let (_, value) = bytes.split_at(KEY_LEN);
    if level == 0 {
        Some(value_behind_length(value))
    } else {
        None
    }
}

/// The value of the cell of the level that the bytes spell.
pub fn read_value(level: u8, bytes: &[u8]) -> Option<Value>
    requires long { length bytes.now ≡ spelled.cell_size level }
    requires valid { spelled.SpellsCell level bytes.now }
    ensures { result ≡ (cells.cell_in level bytes.now).value }
{
    Some(Value::new(value_part(level, bytes)?))
}

/// The cell of the level that the bytes spell. They lend its value.
#[tactic(auto, unfolding(crate::specs::PageSlots::cell_in))]
pub fn cell_ref(level: u8, bytes: &[u8]) -> CellRef<'_>
    requires long { length bytes.now ≡ spelled.cell_size level }
    requires valid { spelled.SpellsCell level bytes.now }
    ensures { cell_of result ≡ cells.cell_in level bytes.now }
{
    let (key, _) = bytes.split_at(KEY_LEN);
    CellRef {
        key: read_key(key),
        value: value_part(level, bytes),
    }
}

/// The cell of the level that the bytes spell.
#[tactic(auto, unfolding(crate::specs::PageSlots::cell_in))]
pub fn read_cell(level: u8, bytes: &[u8]) -> Cell
    requires long { length bytes.now ≡ spelled.cell_size level }
    requires valid { spelled.SpellsCell level bytes.now }
    ensures { result ≡ cells.cell_in level bytes.now }
{
    let (key, _) = bytes.split_at(KEY_LEN);
    Cell {
        key: read_key(key),
        value: read_value(level, bytes),
    }
}

/// Writes a value with its length in front over zeros.
fn write_value(area: &mut [u8], value: &Value)
    requires zeros { area.old ≡ zeros (length area.old) }
    requires room { 258 ≤ length area.old }
    ensures { area.new ≡ zero_filled (length area.old) (value_bytes (Some value.now)) }
{
    let bytes = value.as_slice();
    area[..2].copy_from_slice(&(bytes.len() as u16).to_be_bytes());
    area[2..2 + bytes.len()].copy_from_slice(bytes);
}

/// Writes a cell over zeros.
pub fn write_cell(area: &mut [u8], cell: &Cell)
    requires zeros { area.old ≡ zeros (length area.old) }
    requires room { length (cell_bytes cell.now) ≤ length area.old }
    ensures { area.new ≡ zero_filled (length area.old) (cell_bytes cell.now) }
{
    let key = cell.key.as_bytes();
    area[..KEY_LEN].copy_from_slice(key);
    if let Some(value) = &cell.value {
        write_value(&mut area[KEY_LEN..], value);
    }
}

/// Moves the bytes from `from` up to `end` by `size`, over what stands behind them, and leaves zeros in front of them.
fn make_room(area: &mut [u8], from: usize, end: usize, size: usize)
    requires order { from ≤ end }
    requires room { end + size ≤ length area.old }
    ensures { area.new ≡ take from area.old ++ zeros size ++ drop from (take end area.old)
        ++ drop (end + size) area.old }
{
    area.copy_within(from..end, from + size);
    area[from..from + size].fill(0);
}

/// Puts a cell of the level before the bytes from `from` up to `end`, which move over what stands behind them.
pub fn insert_cell(level: u8, area: &mut [u8], from: usize, end: usize, cell: &Cell)
    requires cell { IsCell level cell.now }
    requires order { from ≤ end }
    requires room { end + spelled.cell_size level ≤ length area.old }
    ensures { area.new ≡ take from area.old ++ cell_bytes cell.now ++ drop from (take end area.old)
        ++ drop (end + spelled.cell_size level) area.old }
{
    let size = cell_len(level);
    make_room(area, from, end, size);
    write_cell(&mut area[from..from + size], cell);
}

/// Adds the bytes of a cell of the level behind those of others.
pub fn push_cell(bytes: &mut Vec<u8>, level: u8, cell: &Cell) -> Result<(), NoMemory>
    requires { IsCell level cell.now }
    ensures ok { OnOk result (bytes.new.items ≡ bytes.old.items ++ cell_bytes cell.now) }
    ensures err { OnErr result (bytes.new.items ≡ bytes.old.items) }
{
    let mut area = [0; MOST_LEN];
    write_cell(&mut area, cell);
    bytes.extend_from_slice(&area[..cell_len(level)])?;
    Ok(())
}
