//! The draw `ruler`, by sums and counts of bytes.

ghost use Rattle.std.specs.Prelude.{◌≡◌, ◌≤◌, length};
ghost use Rattle.std.specs.List.{sum};
ghost use Rattle.store_model.specs.Draws.{key_block};
ghost use Rattle.seeded_draw.specs.Drawn.{ruler_draw, ruler_digest};
ghost use Rattle.seeded_draw.specs.Lawful.{ruler_is_lawful};

use crate::draw::Draw;
use crate::front::Front;
use crate::sha::number_of_digest;
use store_base::{Key, Label, Params};

/// The draw `ruler`, with which small images can be worked out by hand. A label starts at the sum of its bytes,
/// modulo the number of slots. In a key with the block number 0 each letter `U` of its field lifts it by a level, up
/// to the highest. Every other key stands on level 0 alone.
#[derive(Clone, Copy, Debug)]
pub struct RulerDraw {
    slots: u32,
    height: u8,
    pub ghost some_slot: { 1 ≤ slots },
    pub ghost some_level: { 1 ≤ height },
}

impl RulerDraw {
    /// The draw of the slots and the height of these parameters, whatever kind they name.
    pub fn new(params: &Params) -> Self
        ensures slots { result.slots ≡ params.now.slots }
        ensures height { result.height ≡ params.now.height }
    {
        RulerDraw {
            slots: params.slots(),
            height: params.height(),
        }
    }
}

/// The sum of the bytes of a label.
fn byte_sum(bytes: &[u8]) -> u32
    requires { length bytes.now ≤ 130 }
    ensures { result ≡ sum bytes.now }
{
    bytes.iter().map(|byte| u32::from(*byte)).sum()
}

/// The block number of a key with these bytes.
fn block_number(bytes: &[u8; 124]) -> u32
    ensures { result ≡ key_block bytes.now }
{
    let mut number = [0; 4];
    number.copy_from_slice(&bytes[120..]);
    u32::from_be_bytes(number)
}

impl Draw for RulerDraw {
    ghost drawn = { λ d. ruler_draw d.slots d.height };

    ghost digests = { λ d l. ruler_digest l };

    ghost lawful = { λ d. ruler_is_lawful d.slots d.height d.some_slot d.some_level };

    fn slots(&self) -> u32 {
        self.slots
    }

    fn height(&self) -> u8 {
        self.height
    }

    #[tactic(auto, unfolding(store_model::specs::Draws::ruler_start))]
    fn start(&self, label: &Label) -> u32 {
        byte_sum(&label.to_bytes()) % self.slots
    }

    #[tactic(auto, unfolding(store_model::specs::Draws::ruler_level))]
    fn level(&self, key: &Key) -> u8 {
        let bytes = key.as_bytes();
        if block_number(bytes) != 0 {
            return 0;
        }
        let letters = bytes[..120].iter().filter(|byte| **byte == b'U').count();
        letters.min(usize::from(self.height - 1)) as u8
    }

    fn digest_from(&self, front: &mut Front, label: &Label) -> u64 {
        number_of_digest(&front.digest(&label.to_bytes()))
    }

    fn start_by(&self, label: &Label, digest: u64) -> u32 {
        let _ = digest;
        self.start(label)
    }
}
