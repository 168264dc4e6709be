//! Pairs whose levels were drawn before.

ghost use Rattle.std.specs.Prelude.{◌≡◌, IsTrue};
ghost use Rattle.store_model.specs.Draws.{draw_of};
ghost use Rattle.layout_scratch.specs.Levels.{AreLevels};

use node_pages::PairList;
use std::marker::Model;
use store_base::Params;

/// A list of pairs, and the levels of its first pairs, as parameters draw them: all, some or none. Contracts see it as
/// the list of its pairs. Its layout under these parameters draws no level that is known.
#[derive(Drop)]
pub struct DrawnPairs<'a> {
    params: Params,
    pairs: &'a PairList,
    levels: &'a [u8],
}

impl<'a> Model for DrawnPairs<'a> {
    ghost use Rattle.std.specs.Prelude.{List};
    ghost use Rattle.store_model.specs.Draws.{draw_of};
    ghost use Rattle.store_model.specs.Pairs.{Pair};
    ghost use Rattle.layout_scratch.specs.Levels.{AreLevels};

    ghost Value = { List Pair };

    ghost view = { λ p. p.pairs.now };

    ghost invariant = { λ p. AreLevels (draw_of p.params) p.pairs.now p.levels.now };
}

/// Whether the parameters are the same.
fn are_same(one: &Params, other: &Params) -> bool
    ensures { IsTrue result → one.now ≡ other.now }
{
    one.slots() == other.slots()
        && one.height() == other.height()
        && one.kind() == other.kind()
        && one.seed() == other.seed()
        && one.version() == other.version()
}

impl<'a> DrawnPairs<'a> {
    /// The pairs, of which the first have these levels under the parameters.
    pub fn new(params: &Params, pairs: &'a PairList, levels: &'a [u8]) -> Self
        requires { AreLevels (draw_of params.now) pairs.now levels.now }
        ensures { result ≡ pairs.now }
    {
        DrawnPairs {
            params: *params,
            pairs,
            levels,
        }
    }

    /// The pairs alone.
    pub fn pairs(&self) -> &'a PairList
        ensures { result.now ≡ self.now }
    {
        self.pairs
    }

    /// The levels of the first pairs under these parameters, as far as they are known: none where the pairs were drawn
    /// for others.
    pub fn levels(&self, params: &Params) -> &'a [u8]
        ensures { AreLevels (draw_of params.now) self.now result.now }
    {
        if are_same(&self.params, params) {
            self.levels
        } else {
            &[]
        }
    }
}
