//! How far a walk has come.

ghost use Rattle.std.specs.Prelude.{◌≡◌, ◌<◌, ◌^◌, None};

use seeded_draw::Front;
use store_base::{BLOCK, Key, Slot};

/// How far a walk has come.
#[derive(Drop)]
pub(crate) struct Progress {
    /// How many pages it may still meet.
    pub(crate) left: u32,
    /// The last key of level 0 that it came to; `None` before the first.
    pub(crate) last: Option<Key>,
    /// What the levels of keys are drawn from that begin alike.
    pub(crate) front: Front,
    /// What the digests of labels are taken from that begin alike.
    pub(crate) label_front: Front,
    /// Room for the slot that is read.
    pub(crate) slot: Slot,
    ghost in_range: { left < 2 ^ 32 },
}

impl Progress {
    /// No page met yet, of so many.
    pub(crate) fn none_of(pages: u32) -> Self
        ensures left { result.left ≡ pages }
        ensures last { result.last ≡ None }
    {
        Progress {
            left: pages,
            last: None,
            front: Front::new(),
            label_front: Front::new(),
            slot: [0; BLOCK],
        }
    }
}
