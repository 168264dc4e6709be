//! What a command line asks for, by the texts of its words.

ghost use Rattle.std.specs.Prelude.{◌≡◌, ◌∷◌, [], map};
ghost use Rattle.std.specs.Option.{option_map};
ghost use Rattle.std.specs.String.{string_bytes};
ghost use Rattle.store_model.specs.Words.{request_of, version_of_word};
ghost use Rattle.command_line.specs.Requests.{request_seen};

use crate::line::{MAX_COMMANDS, single_request};
use script_lines::parse_number;
use store_base::{MAX_HEIGHT, MAX_SLOTS, Params};
use store_model::Version;
use word_values::{draw_kind, number_in, seed_of};

/// What a command line asks for.
#[derive(Clone, Copy, Debug)]
pub enum Request {
    /// Makes the image of the empty tree.
    Format(Params),
    /// Answers a script.
    Run,
    /// Answers the lines of sessions.
    Session,
    /// Tells what the image is.
    Check,
    /// Recovers the image, and makes its free slots zero.
    Scrub,
    /// Makes every byte zero.
    Wipe,
    /// Makes the image one of version 2.
    Upgrade,
    /// Prints the commands that make what the image holds.
    Dump,
    /// Makes what a listing tells, in an empty image.
    Load,
    /// Carries out generated commands: their number, which tells which they are, and how many, 1 to 1,000,000.
    Big(u32, u32),
}

/// What the words ask for; `None` exactly where they are not well formed.
#[tactic(auto, unfolding(store_model::specs::Words::request_of))]
pub(crate) fn asked(words: &[String]) -> Option<Request>
    ensures { option_map request_seen result ≡ request_of (map string_bytes words.now) }
{
    match words {
        [word] => single_request(word.as_str()),
        [word, number, count] => big_request(word.as_str(), number.as_str(), count.as_str()),
        [word, slots, height, draw, seed] => format_request(
            word.as_str(),
            slots.as_str(),
            height.as_str(),
            draw.as_str(),
            seed.as_str(),
        ),
        _ => None,
    }
}

/// What a word and two arguments ask for: those of `big`.
#[tactic(auto, unfolding(store_model::specs::Words::request_of))]
fn big_request(word: &str, number: &str, count: &str) -> Option<Request>
    ensures { option_map request_seen result
        ≡ request_of (word.now ∷ number.now ∷ count.now ∷ []) }
{
    if word != "big" {
        return None;
    }
    let number = parse_number(number.as_bytes())?;
    let count = number_in(1, MAX_COMMANDS, count)?;
    Some(Request::Big(number, count))
}

/// What a word and four arguments ask for: those of `format` and `format2`.
#[tactic(auto, unfolding(store_model::specs::Words::request_of))]
fn format_request(word: &str, slots: &str, height: &str, draw: &str, seed: &str) -> Option<Request>
    ensures { option_map request_seen result
        ≡ request_of (word.now ∷ slots.now ∷ height.now ∷ draw.now ∷ seed.now ∷ []) }
{
    let version = version_of(word)?;
    let slots = number_in(1, MAX_SLOTS, slots)?;
    let height = number_in(1, u32::from(MAX_HEIGHT), height)?;
    let kind = draw_kind(draw)?;
    let seed = seed_of(seed)?;
    let params = Params::new(slots, height as u8, kind, seed).ok()?;
    Some(Request::Format(params.with_version(version)))
}

/// The version of the images that a word makes.
#[tactic(auto, unfolding(store_model::specs::Words::version_of_word))]
fn version_of(word: &str) -> Option<Version>
    ensures { result ≡ version_of_word word.now }
{
    match word {
        "format" => Some(Version::One),
        "format2" => Some(Version::Two),
        _ => None,
    }
}
