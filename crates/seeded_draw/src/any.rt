//! The draw that an image's parameters name.

ghost use Rattle.std.specs.Prelude.{◌≡◌};
ghost use Rattle.seeded_draw.specs.AnyDrawn.{any_draw, any_digest, any_is_lawful};
ghost use Rattle.store_model.specs.Draws.{draw_of};

use crate::draw::Draw;
use crate::front::Front;
use crate::ruler::RulerDraw;
use crate::sha::ShaDraw;
use store_base::{Key, Label, Params};
use store_model::DrawKind;

/// The draw of an image: of the kind, seed, slots and height that its parameters name.
#[derive(Clone, Copy, Debug)]
pub enum AnyDraw {
    /// The draw `ruler`.
    Ruler(RulerDraw),
    /// The draw `sha256`.
    Sha256(ShaDraw),
}

impl AnyDraw {
    /// The draw that the parameters name.
    #[tactic(auto, unfolding(store_model::specs::Draws::draw_of))]
    pub fn new(params: &Params) -> Self
        ensures { any_draw result ≡ draw_of params.now }
    {
        match params.kind() {
            DrawKind::Ruler => AnyDraw::Ruler(RulerDraw::new(params)),
            DrawKind::Sha256 => AnyDraw::Sha256(ShaDraw::new(params)),
        }
    }
}

impl Draw for AnyDraw {
    ghost drawn = { any_draw };

    ghost digests = { any_digest };

    ghost lawful = { any_is_lawful };

    fn slots(&self) -> u32 {
        match self {
            AnyDraw::Ruler(draw) => draw.slots(),
            AnyDraw::Sha256(draw) => draw.slots(),
        }
    }

    fn height(&self) -> u8 {
        match self {
            AnyDraw::Ruler(draw) => draw.height(),
            AnyDraw::Sha256(draw) => draw.height(),
        }
    }

    fn start(&self, label: &Label) -> u32 {
        match self {
            AnyDraw::Ruler(draw) => draw.start(label),
            AnyDraw::Sha256(draw) => draw.start(label),
        }
    }

    fn level(&self, key: &Key) -> u8 {
        match self {
            AnyDraw::Ruler(draw) => draw.level(key),
            AnyDraw::Sha256(draw) => draw.level(key),
        }
    }

    fn start_from(&self, front: &mut Front, label: &Label) -> u32 {
        match self {
            AnyDraw::Ruler(draw) => draw.start_from(front, label),
            AnyDraw::Sha256(draw) => draw.start_from(front, label),
        }
    }

    fn level_from(&self, front: &mut Front, key: &Key) -> u8 {
        match self {
            AnyDraw::Ruler(draw) => draw.level_from(front, key),
            AnyDraw::Sha256(draw) => draw.level_from(front, key),
        }
    }

    fn digest_from(&self, front: &mut Front, label: &Label) -> u64 {
        match self {
            AnyDraw::Ruler(draw) => draw.digest_from(front, label),
            AnyDraw::Sha256(draw) => draw.digest_from(front, label),
        }
    }

    fn start_by(&self, label: &Label, digest: u64) -> u32 {
        match self {
            AnyDraw::Ruler(draw) => draw.start_by(label, digest),
            AnyDraw::Sha256(draw) => draw.start_by(label, digest),
        }
    }
}
