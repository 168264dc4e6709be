//! What words spell.

ghost use Rattle.std.specs.Prelude.{◌≡◌, ◌≤◌, IfSome};
ghost use Rattle.store_model.specs.Words as model;

use hex::FromHex;
use script_lines::parse_number;
use store_model::DrawKind;

/// The number that a word spells; `None` where it spells none that lies in the range.
#[tactic(auto, unfolding(store_model::specs::Words::number_in))]
pub fn number_in(low: u32, high: u32, word: &str) -> Option<u32>
    ensures value { result ≡ model.number_in low high word.now }
    ensures range { IfSome result (λ number. (low ≤ number) × (number ≤ high)) }
{
    let number = parse_number(word.as_bytes())?;
    if low <= number && number <= high {
        Some(number)
    } else {
        None
    }
}

/// The draw that a word names; `None` where it names none.
#[tactic(auto, unfolding(store_model::specs::Words::kind_of_word))]
pub fn draw_kind(word: &str) -> Option<DrawKind>
    ensures { result ≡ model.kind_of_word word.now }
{
    match word {
        "ruler" => Some(DrawKind::Ruler),
        "sha256" => Some(DrawKind::Sha256),
        _ => None,
    }
}

/// The seed that 64 hexadecimal digits of either case spell; `None` where the word is anything else.
pub fn seed_of(word: &str) -> Option<[u8; 32]>
    ensures { result ≡ model.seed_of_word word.now }
{
    <[u8; 32] as FromHex>::from_hex(word).ok()
}
