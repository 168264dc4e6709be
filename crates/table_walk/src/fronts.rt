//! Digests of labels that come in no order.

ghost use Rattle.std.specs.Prelude.{◌≡◌, ◌<◌};
ghost use Rattle.store_model.specs.Labels.{IsLabel};

use seeded_draw::{Draw, Front};
use std::array;
use store_base::Label;

/// How many bits the checksum has by which a front is found.
const FRONT_BITS: u32 = 8;

/// How many fronts there are: one for each checksum.
const FRONT_COUNT: usize = 1 << FRONT_BITS;

/// A front is found by so many first bytes of a label. What it digests is longer.
const FRONT_PART: usize = 88;

/// What digests of labels are taken from that begin alike, as those of the pages of one file, in whatever order they
/// come. Of those whose first bytes have one checksum the last one is kept.
#[derive(Drop)]
pub(crate) struct Fronts {
    fronts: [Front; FRONT_COUNT],
}

/// The number of the front that serves a label: a checksum of its first bytes by multiplication (Knuth 1973, 6.4).
fn front_of(label: &Label) -> usize
    ensures { result < FRONT_COUNT }
{
    let bytes = label.to_bytes();
    let (words, _) = bytes[..FRONT_PART].as_chunks::<8>();
    let mut sum: u64 = 0;
    for word in words {
        sum = (sum ^ u64::from_be_bytes(*word)).wrapping_mul(0x9e37_79b9_7f4a_7c15);
    }
    (sum >> (u64::BITS - FRONT_BITS)) as usize
}

impl Fronts {
    /// Makes fronts that serve no label yet.
    pub(crate) fn new() -> Fronts {
        let front = Front::new();
        Fronts {
            fronts: array::from_fn(|_| front.copy()),
        }
    }

    /// The draw's digest of a label.
    pub(crate) fn digest<W: Draw>(&mut self, draw: &W, label: &Label) -> u64
        ensures value { result ≡ W.digests draw.now label.now }
        ensures valid { IsLabel label.now }
    {
        draw.digest_from(&mut self.fronts[front_of(label)], label)
    }
}
