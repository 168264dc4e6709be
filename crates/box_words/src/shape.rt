//! What an image that `create` makes is like.

ghost use Rattle.std.specs.Prelude.{◌≤◌, IsTrue};
ghost use Rattle.store_model.specs.Parameters.{height_limit};
ghost use Rattle.box_words.specs.Ranges.{slots_fit};

use store_model::DrawKind;

/// Where the seed of a new image comes from.
#[derive(Clone, Copy, Debug, PartialEq, Eq)]
pub enum Seed {
    /// It is this one: `--seed HEX`, and 32 zero bytes where no seed is said.
    Given([u8; 32]),
    /// The system gives one: `--seed random`.
    Random,
    /// Its 64 hexadecimal digits stand on standard input: `--seed -`.
    Input,
}

/// What a new image is like. Its version is 2.
#[derive(Clone, Copy, Debug, PartialEq, Eq)]
pub struct Shape {
    /// `--slots`: the number of slots, 1 to `MAX_SLOTS`; nothing where it follows from what is stored.
    pub slots: Option<u32>,
    /// `--height`: the number of levels, 1 to 8.
    pub height: u8,
    /// `--draw`: how starts and levels are drawn.
    pub draw: DrawKind,
    /// `--seed`: where the seed of the draws comes from.
    pub seed: Seed,
    ghost slots_in_range: { IsTrue (slots_fit slots) },
    ghost some_level: { 1 ≤ height },
    ghost height_in_range: { height ≤ height_limit },
}
