//! What the words of `create` say of the image.

ghost use Rattle.std.specs.Prelude.{◌≡◌, ◌≤◌, IsTrue, IfOk};
ghost use Rattle.std.specs.Option.{option_map};
ghost use Rattle.std.specs.Result.{result_ok};
ghost use Rattle.store_model.specs.Parameters.{height_limit};
ghost use Rattle.box_words.specs.Ranges.{slots_fit};
ghost use Rattle.box_words.specs.Said.{IsSaid, slots_said, height_said, draw_said, seed_said, seed_named};

use crate::fault::CallFault;
use crate::shape::{Seed, Shape};
use clap::ArgMatches;
use store_base::{MAX_HEIGHT, MAX_SLOTS};
use store_model::DrawKind;
use word_values::{draw_kind, number_in, seed_of};

/// The height of an image where none is said.
const PLAIN_HEIGHT: u8 = 4;

/// What the options of `create` say of the image.
pub(crate) fn shape_of<'a>(given: &ArgMatches<'a>) -> Result<Shape, CallFault<'a>>
    ensures { IfOk result (IsSaid given.now) }
{
    Ok(Shape {
        slots: slots_of(given.get_str("slots"))?,
        height: height_of(given.get_str("height"))?,
        draw: draw_of(given.get_str("draw"))?,
        seed: seed_source(given.get_str("seed"))?,
    })
}

/// The number of slots that the word behind `--slots` says.
fn slots_of<'a>(word: Option<&'a str>) -> Result<Option<u32>, CallFault<'a>>
    ensures said { result_ok result ≡ slots_said (option_map (λ w. w.now) word.entry) }
    ensures range { IfOk result (λ slots. IsTrue (slots_fit slots)) }
{
    let Some(word) = word else {
        return Ok(None);
    };
    match number_in(1, MAX_SLOTS, word) {
        Some(slots) => Ok(Some(slots)),
        None => Err(CallFault::Value("slots", word, "is not a number from 1 to 65536")),
    }
}

/// The height that the word behind `--height` says.
fn height_of<'a>(word: Option<&'a str>) -> Result<u8, CallFault<'a>>
    ensures said { result_ok result ≡ height_said (option_map (λ w. w.now) word.entry) }
    ensures range { IfOk result (λ height. (1 ≤ height) × (height ≤ height_limit)) }
{
    let Some(word) = word else {
        return Ok(PLAIN_HEIGHT);
    };
    match number_in(1, u32::from(MAX_HEIGHT), word) {
        Some(height) => Ok(height as u8),
        None => Err(CallFault::Value("height", word, "is not a number from 1 to 8")),
    }
}

/// The draw that the word behind `--draw` says.
fn draw_of<'a>(word: Option<&'a str>) -> Result<DrawKind, CallFault<'a>>
    ensures { result_ok result ≡ draw_said (option_map (λ w. w.now) word.entry) }
{
    let Some(word) = word else {
        return Ok(DrawKind::Sha256);
    };
    match draw_kind(word) {
        Some(kind) => Ok(kind),
        None => Err(CallFault::Value("draw", word, "is neither ruler nor sha256")),
    }
}

/// Where the word behind `--seed` says that the seed comes from.
fn seed_source<'a>(word: Option<&'a str>) -> Result<Seed, CallFault<'a>>
    ensures { result_ok result ≡ seed_said (option_map (λ w. w.now) word.entry) }
{
    let Some(word) = word else {
        return Ok(Seed::Given([0; 32]));
    };
    match seed_named(word) {
        Some(seed) => Ok(seed),
        None => Err(CallFault::Value(
            "seed",
            word,
            "is not 64 hexadecimal digits, `random` or `-`",
        )),
    }
}

/// Where a word says that a seed comes from.
fn seed_named(word: &str) -> Option<Seed>
    ensures { result ≡ seed_named word.now }
{
    match word {
        "random" => Some(Seed::Random),
        "-" => Some(Seed::Input),
        word => Some(Seed::Given(seed_of(word)?)),
    }
}
