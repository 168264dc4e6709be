//! The words of a call on two images.

ghost use Rattle.std.specs.Prelude.{◌≡◌, ◌↔◌, IsTrue, None};
ghost use Rattle.store_model.specs.Words.{request_of};
ghost use Rattle.command_line.specs.Requests.{AskMirror};

use crate::words::Words;

/// Whether the words ask for a mirror: there are two of them, `mirror` and the path of the other image. It takes no
/// memory.
#[tactic(auto, unfolding(store_model::specs::Words::request_of))]
pub fn pair_words(words: &Words) -> bool
    ensures asks { IsTrue result ↔ AskMirror words.now }
    // and then they ask for nothing else
    ensures apart { IsTrue result → request_of words.now ≡ None }
{
    words.len() == 2 && words.get(0) == Some("mirror")
}
