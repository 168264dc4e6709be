//! What is taken of a tree where a folder of the host is made, compared or stored.

ghost use Rattle.std.specs.Prelude.{◌≡◌};
ghost use Rattle.box_calls.specs.Makings as model;

use box_words::{Taken, Times};
use host_builder::{Links, Wanted};

/// What the host has of a tree, as the options of the words say. An image without times has the same with times as
/// without, so they are left out only where the words say so.
pub fn wanted_of(taken: Taken) -> Wanted
    ensures { result ≡ model.wanted_of taken }
{
    Wanted {
        mode: !taken.no_mode,
        mtime: taken.times != Times::LeftOut,
        links: if taken.no_links {
            Links::LeftOut
        } else {
            Links::Made
        },
        skips: taken.skip,
    }
}

/// What is stored of a folder, as the options of the words say: times only where these ask for them, since times are
/// history.
pub fn stored_of(taken: Taken) -> Wanted
    ensures { result ≡ model.stored_of taken }
{
    Wanted {
        mtime: taken.times == Times::Kept,
        ..wanted_of(taken)
    }
}
