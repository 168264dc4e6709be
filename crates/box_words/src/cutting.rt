//! Texts that are cut at a separator.

ghost use Rattle.std.specs.Prelude.{◌≡◌, ◌<◌, ◌++◌, length, IfSome};
ghost use Rattle.std.specs.Option.{MatchOption};
ghost use Rattle.box_words.specs.Shown.{name_in, parts_between};

use memchr::memchr;

/// What stands in front of the first separator, and what stands behind it, where there is one.
pub(crate) fn cut_part(separator: u8, text: &[u8]) -> (&[u8], Option<&[u8]>)
    ensures parts { MatchOption result.1 (parts_between separator text.now ≡ name_in result.0.now)
        (λ rest. parts_between separator text.now ≡ name_in result.0.now ++ parts_between separator rest.now) }
    ensures shorter { IfSome result.1 (λ rest. length rest.now < length text.now) }
{
    match memchr(separator, text) {
        Some(place) => (&text[..place], Some(&text[place + 1..])),
        None => (text, None),
    }
}
