//! The stream of the pairs of a list.

ghost use Rattle.std.specs.Prelude.{◌≡◌, ◌<◌, ◌≤◌, [], List, IfOk, IfSome};
ghost use Rattle.store_model.specs.Parameters.{height_limit};
ghost use Rattle.store_model.specs.Draws as draws;
ghost use Rattle.store_model.specs.Pairs.{Pair};
ghost use Rattle.store_model.specs.PageMaps.{PageMap};
ghost use Rattle.skip_levels.specs.Descent.{HoldsPairs};
ghost use Rattle.pair_stream.specs.Streams.{StandsBehind, PassesPair, IsLeaderSearch, IsNextCall};

use crate::group_reads::{next_key, next_pair};
use crate::places::{LevelPlace, PairStream};
use node_pages::Pages;
use store_base::{Fault, Key, Lead, MAX_HEIGHT, Value};

impl PairStream {
    /// Stands before the first pair of a list of this height. No page is asked for.
    pub fn new(height: u8) -> Self
        requires { height ≤ height_limit }
        ensures { (d : draws.Draw) (s : List Pair) (m : PageMap) → HoldsPairs d s m → height ≡ d.height
            → StandsBehind d s m [] result }
    {
        let start = LevelPlace {
            lead: Lead::Start,
            count: 0,
        };
        PairStream {
            height,
            places: [start; MAX_HEIGHT as usize],
            page: None,
        }
    }

    /// Finds the key that leads the next group of level 0, with its level, where all cells of the group are read that
    /// level 0 is in: it is the next cell of the first level whose group has one more. A page is asked for on each
    /// level up to that one.
    fn next_leader<P: Pages>(&self, pages: &mut P) -> Result<Option<(u8, Key)>, Fault>
        ensures call { IsLeaderSearch (P.state pages.old) (P.state pages.new) self.now result }
        ensures within { IfOk result (λ next. IfSome next (λ next. next.0 < self.now.height)) }
        ensures follows { P.follows pages.old pages.new }
    {
        for level in 1..self.height {
            let place = &self.places[usize::from(level)];
            if let Some(key) = next_key(pages, level, place)? {
                return Ok(Some((level, key)));
            }
        }
        Ok(None)
    }

    /// Passes the next pair. Its key stands on the levels up to this one: it leads a group of each level below, and
    /// goes on the group of this level.
    fn pass(&mut self, level: u8, key: &Key)
        requires { level < height_limit }
        ensures { PassesPair level key.now self.old self.new }
    {
        let at = usize::from(level);
        self.places[..at].fill(LevelPlace {
            lead: Lead::Key(*key),
            count: 1,
        });
        self.places[at].count = self.places[at].count.saturating_add(1);
    }

    /// Gives the next pair; `None` exactly where all pairs of the list came.
    ///
    /// Where each call gives a pair, the lookups of all calls together are at most one for each page that the pairs
    /// have, and two for each group of level 0 that one of their keys leads. A call that gives none asks for at most
    /// one page on each level, and so does one that fails, and for one more. After a fault the stream stands where it
    /// stood, and may be called again. No call takes memory of its own.
    pub fn next<P: Pages>(&mut self, pages: &mut P) -> Result<Option<(Key, Value)>, Fault>
        ensures call { IsNextCall (P.state pages.old) (P.state pages.new) self.old self.new result }
        ensures follows { P.follows pages.old pages.new }
    {
        let here = self.places[0];
        if let Some(pair) = next_pair(pages, &here, &mut self.page)? {
            self.pass(0, &pair.0);
            return Ok(Some(pair));
        }
        let Some(next) = self.next_leader(pages)? else {
            return Ok(None);
        };
        let led = LevelPlace {
            lead: Lead::Key(next.1),
            count: 0,
        };
        let Some(pair) = next_pair(pages, &led, &mut self.page)? else {
            return Ok(None);
        };
        self.pass(next.0, &next.1);
        Ok(Some(pair))
    }
}
