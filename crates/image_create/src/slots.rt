//! How many slots an image gets by itself.

ghost use Rattle.std.specs.Prelude.{◌≡◌, ◌≤◌, IfSome};
ghost use Rattle.store_model.specs.Parameters.{slots_limit};
ghost use Rattle.image_create.specs.Ladder.{has_room, ladder_of};

use store_base::MAX_SLOTS;

/// The slots that an image may get by itself.
const RUNGS: [u32; 11] = [
    64, 128, 256, 512, 1_024, 2_048, 4_096, 8_192, 16_384, 32_768, 65_536,
];

/// Whether pages take at most three quarters of some slots.
fn has_room(pages: u32, slots: u32) -> bool
    ensures { result ≡ has_room pages slots }
{
    4 * u64::from(pages) <= 3 * u64::from(slots)
}

/// How many slots an image of so many pages gets by itself: the least power of two, from 64 on, of which the pages take
/// at most three quarters; 65,536 where they fit these at all, and else none.
pub fn ladder(pages: u32) -> Option<u32>
    ensures value { result ≡ ladder_of pages }
    ensures some { IfSome result (λ slots. 1 ≤ slots) }
    ensures in_range { IfSome result (λ slots. slots ≤ slots_limit) }
{
    for slots in &RUNGS {
        if has_room(pages, *slots) {
            return Some(*slots);
        }
    }
    (pages <= MAX_SLOTS).then_some(MAX_SLOTS)
}
