//! Levels that are drawn once.

ghost use Rattle.std.specs.Prelude.{◌≡◌, ◌≤◌, ◌<◌};
ghost use Rattle.store_model.specs.Parameters.{IsParameters, slots_limit};
ghost use Rattle.store_model.specs.Draws.{draw_of};
ghost use Rattle.seeded_draw.specs.AnyDrawn.{any_draw};

use crate::kept::KeptLevels;
use seeded_draw::{AnyDraw, Draw, Front};
use std::alloc::Global;
use std::marker::Model;
use store_base::{Key, Params};

/// The levels that parameters draw for keys. In a first pass each level is drawn, and kept as far as there is room: 132
/// bytes for keys of one field with numbers one after another, and a byte for each of them. In a second pass over keys
/// that come in the same order, a level that is kept is not drawn again. Contracts see it as the parameters.
#[derive(Drop)]
pub struct KnownLevels {
    params: Params,
    draw: AnyDraw,
    front: Front,
    kept: KeptLevels,
    /// How many runs begin no later than the key that was asked for last.
    begun: usize,
}

impl Model for KnownLevels {
    ghost use Rattle.store_model.specs.Parameters.{Parameters};
    ghost use Rattle.drawn_levels.specs.Known.{Knows};

    ghost Value = { Parameters };

    ghost view = { λ k. k.params };

    ghost invariant = { λ k. Knows k.params k.draw k.kept };
}

impl KnownLevels {
    /// The levels under these parameters; none is kept yet.
    pub fn new(alloc: Global, params: &Params) -> Self
        ensures { result ≡ params.now }
    {
        KnownLevels {
            params: *params,
            draw: drawn_by(params),
            front: Front::new(),
            kept: KeptLevels::new(alloc),
            begun: 0,
        }
    }

    /// Draws the level of a key, and keeps it for a second pass. It keeps 1,048,576 levels at most, in 262,144 runs of
    /// keys, and none for which memory is refused.
    pub fn draw(&mut self, key: &Key) -> u8
        ensures value { result ≡ (draw_of self.old).level key.now }
        ensures below { result < self.old.height }
        ensures valid { IsParameters self.old }
        ensures same { self.new ≡ self.old }
    {
        let level = self.draw.level_from(&mut self.front, key);
        self.kept.keep(key, level);
        level
    }

    /// Begins a second pass, for a table of so many slots: keys are expected from the first on.
    pub fn again(&mut self, slots: u32)
        requires some { 1 ≤ slots }
        requires in_range { slots ≤ slots_limit }
        ensures { self.new ≡ record self.old { slots = slots } }
    {
        self.params = with_slots(&self.params, slots);
        self.draw = drawn_by(&self.params);
        self.begun = 0;
    }

    /// The level of a key. It is drawn unless it is kept, and stands behind those that were asked for since the pass
    /// began.
    pub fn level(&mut self, key: &Key) -> u8
        ensures value { result ≡ (draw_of self.old).level key.now }
        ensures below { result < self.old.height }
        ensures valid { IsParameters self.old }
        ensures same { self.new ≡ self.old }
    {
        self.begun = self.kept.begun(self.begun, key);
        match self.kept.level_in(self.begun, key) {
            Some(level) => level,
            None => self.draw.level_from(&mut self.front, key),
        }
    }
}

/// The draw that the parameters name.
fn drawn_by(params: &Params) -> AnyDraw
    ensures draw { any_draw result ≡ draw_of params.now }
    ensures valid { IsParameters params.now }
{
    let _ = params.height();
    AnyDraw::new(params)
}

/// The same parameters for a table of so many slots.
fn with_slots(params: &Params, slots: u32) -> Params
    requires some { 1 ≤ slots }
    requires in_range { slots ≤ slots_limit }
    ensures { result ≡ record params.now { slots = slots } }
{
    match Params::new(slots, params.height(), params.kind(), params.seed()) {
        Ok(others) => others.with_version(params.version()),
        Err(_) => unreachable!(),
    }
}
