//! A draw that counts.

ghost use Rattle.std.specs.Prelude.{◌≡◌};
ghost use Rattle.seeded_draw.specs.AnyDrawn.{any_draw, any_digest, any_is_lawful};

use seeded_draw::{AnyDraw, Draw, Front};
use store_base::{Key, Label};

/// A draw that counts the starts that it draws, and the labels that it digests. Digests are what costs under `sha256`.
#[derive(Drop)]
pub(super) struct CountedDraw {
    pub(super) draw: AnyDraw,
    starts: std::cell::Cell<u64>,
    digests: std::cell::Cell<u64>,
}

impl CountedDraw {
    /// Makes a draw that has counted nothing.
    pub(super) fn new(draw: AnyDraw) -> CountedDraw
        ensures { result.draw ≡ draw }
    {
        CountedDraw {
            draw,
            starts: std::cell::Cell::new(0),
            digests: std::cell::Cell::new(0),
        }
    }

    /// How many starts were drawn, and how many labels were digested.
    pub(super) fn counts(&self) -> [u64; 2] {
        [self.starts.get(), self.digests.get()]
    }
}

/// Adds one to a count.
fn count(so_far: &std::cell::Cell<u64>) {
    so_far.set(so_far.get().saturating_add(1));
}

impl Draw for CountedDraw {
    ghost drawn = { λ d. any_draw d.draw };

    ghost digests = { λ d. any_digest d.draw };

    ghost lawful = { λ d. any_is_lawful d.draw };

    fn slots(&self) -> u32 {
        self.draw.slots()
    }

    fn height(&self) -> u8 {
        self.draw.height()
    }

    fn start(&self, label: &Label) -> u32 {
        count(&self.starts);
        count(&self.digests);
        self.draw.start(label)
    }

    fn start_by(&self, label: &Label, digest: u64) -> u32 {
        count(&self.starts);
        self.draw.start_by(label, digest)
    }

    fn digest_from(&self, front: &mut Front, label: &Label) -> u64 {
        count(&self.digests);
        self.draw.digest_from(front, label)
    }

    fn level(&self, key: &Key) -> u8 {
        self.draw.level(key)
    }
}
