//! Where bytes come from that a call takes: standard input, or a file of the host.

ghost use Rattle.std.specs.Prelude.{◌≡◌};
ghost use Rattle.std.specs.Option.{option_map};
ghost use Rattle.box_words.specs.Sources.{origin_path, path_said};

/// Where bytes come from.
#[derive(Clone, Copy, Debug, PartialEq, Eq)]
pub enum Origin<'a> {
    /// From standard input: the word is `-`.
    Input,
    /// From what stands at this path of the host.
    Host(&'a str),
}

/// Where bytes come from that a word names.
pub(crate) fn origin_of(word: &str) -> Origin<'_>
    ensures { origin_path result ≡ path_said word.entry.now }
{
    if word == "-" {
        Origin::Input
    } else {
        Origin::Host(word)
    }
}

/// Where further names are read from, if a word says so.
pub(crate) fn list_said(word: Option<&str>) -> Option<Origin<'_>>
    ensures { option_map origin_path result ≡ option_map path_said (option_map (λ w. w.now) word.entry) }
{
    word.map(origin_of)
}
