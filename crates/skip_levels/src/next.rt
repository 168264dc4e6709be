//! The search for the first pair from a key on.

ghost use Rattle.std.specs.Prelude.{◌≡◌, ◌≤◌};
ghost use Rattle.skip_levels.specs.Descent.{next_known};
ghost use Rattle.skip_levels.specs.NextSearch.{IsFirstPair, IsNextSearch};

use crate::walk::Walk;
use node_pages::Pages;
use skip_groups::{label_in_group, pair_of, search_group};
use store_base::{Fault, Key, Lead, Value};

/// The first pair of the group of level 0 that a key leads; `None` where there is no such group. One page is asked for.
fn first_pair<P: Pages>(pages: &mut P, leader: Key) -> Result<Option<(Key, Value)>, Fault>
    ensures call { IsFirstPair (P.state pages.old) (P.state pages.new) leader result }
    ensures follows { P.follows pages.old pages.new }
{
    let found = pages.look(&label_in_group(0, &Lead::Key(leader), 0))?;
    let Some(page) = found else {
        return Ok(None);
    };
    page.reveal();
    Ok(pair_of(page.cell(0)))
}

impl Walk {
    /// What leads the group of level 0 behind the one that is known, if there is one.
    fn next_leader(&self) -> Option<Key>
        ensures { result ≡ next_known self.now.known }
    {
        match &self.known {
            Some(place) => place.next,
            None => None,
        }
    }

    /// Finds the first pair whose key is not below the given one, in the pages of a list of this height; `None` exactly
    /// where every key is below it. The groups of one search path are read, and where the pair leads the next group one
    /// page more. The place of the key on level 0 is then known. After a fault the pages are as they were, and what was
    /// known is still right.
    pub fn find_next<P: Pages>(
        &mut self,
        pages: &mut P,
        height: u8,
        key: &Key,
    ) -> Result<Option<(Key, Value)>, Fault>
        requires { 1 ≤ height }
        ensures call { IsNextSearch (P.state pages.old)
            (P.state pages.new) height self.old.known key.now self.new.known result }
        ensures follows { P.follows pages.old pages.new }
    {
        self.go_to(pages, height, key)?;
        let mut here = None;
        search_group(pages, 0, &self.known_lead(), key, &mut here)?;
        if here.is_some() {
            return Ok(here);
        }
        match self.next_leader() {
            Some(leader) => first_pair(pages, leader),
            None => Ok(None),
        }
    }
}
