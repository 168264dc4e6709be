//! Where the areas of an image lie.
//!
//! An image has a header block, a gate block, the marks, the shadow and the table, one behind the other.
//! The marks have a byte for each slot and one for the version, and fill whole blocks. Shadow and table have a block
//! for each slot. All places and lengths are in bytes.

ghost use Rattle.std.specs.Prelude.{◌≡◌, ℕ, ◌+◌, ◌*◌, ◌/◌, ◌<◌, ◌≤◌};
ghost use Rattle.store_model.specs.Parameters as model;
ghost use Rattle.store_model.specs.Parameters.{slots_limit, block_len};
ghost use Rattle.store_base.specs.Areas.{AreasFill};

use store_model::BLOCK;

/// The bytes of a block, as the places in an image are counted.
const BLOCK_LEN: u64 = BLOCK as u64;

/// The blocks of the marks: a byte for each slot and one for the version.
fn mark_blocks(slots: u32) -> u64
    requires { slots ≤ slots_limit }
    ensures value { result ≡ model.mark_blocks slots }
    ensures few { result ≤ slots_limit / block_len + 1 }
{
    (u64::from(slots) + 1).div_ceil(BLOCK_LEN)
}

/// The length of an image of so many slots, from 1 to `MAX_SLOTS`.
#[tactic(auto, unfolding(store_model::specs::Parameters::image_len))]
pub fn image_len(slots: u32) -> u64
    requires some { 1 ≤ slots }
    requires in_range { slots ≤ slots_limit }
    ensures { result ≡ model.image_len slots }
{
    BLOCK_LEN * (2 + mark_blocks(slots) + 2 * u64::from(slots))
}

/// Where the gate block begins; its byte 0 is the commit flag.
pub fn gate_at() -> u64
    ensures { result ≡ model.gate_at }
{
    BLOCK_LEN
}

/// Where mark `i` lies. A slot has the mark of its number, and the version has the one behind the last slot's.
pub fn mark_at(i: u32) -> u64
    requires { i ≤ slots_limit }
    ensures { result ≡ model.mark_at i }
{
    2 * BLOCK_LEN + u64::from(i)
}

/// Where the shadow block of slot `i` begins, in an image of so many slots.
#[tactic(auto, unfolding(store_model::specs::Parameters::shadow_at, store_model::specs::Parameters::image_len))]
pub fn shadow_at(slots: u32, i: u32) -> u64
    requires in_range { slots ≤ slots_limit }
    requires below { i < slots }
    ensures value { result ≡ model.shadow_at slots i }
    ensures within { result + block_len ≤ model.image_len slots }
{
    BLOCK_LEN * (2 + mark_blocks(slots) + u64::from(i))
}

/// Where slot `i` of the table begins, in an image of so many slots.
#[tactic(auto, unfolding(store_model::specs::Parameters::table_at, store_model::specs::Parameters::image_len))]
pub fn table_at(slots: u32, i: u32) -> u64
    requires in_range { slots ≤ slots_limit }
    requires below { i < slots }
    ensures value { result ≡ model.table_at slots i }
    ensures within { result + block_len ≤ model.image_len slots }
{
    BLOCK_LEN * (2 + mark_blocks(slots) + u64::from(slots) + u64::from(i))
}

/// The areas lie one behind the other, from byte 0 to the end of the image.
#[tactic(auto, unfolding(store_model::specs::Parameters::mark_blocks, store_model::specs::Parameters::shadow_at, store_model::specs::Parameters::table_at, store_model::specs::Parameters::image_len))]
pub fn areas_fill_the_image()
    ensures { (slots : ℕ) → AreasFill slots }
{}
