//! How a list is walked: the search for a key in its pages, on its search path from level to level.

ghost use Rattle.std.specs.Prelude.{◌≡◌, ◌<◌, ◌≤◌, refl, ◌↔◌, None, IsTrue};
ghost use Rattle.skip_levels.specs.Descent.{LiesIn, LiesInKnown, IsWayDown, IsPlaceSearch, IsKeySearch, ends_at};
ghost use Rattle.skip_levels.specs.Descent.{followed_by, lead_in, leads_in, led_by, placed};

use node_pages::{Page, Pages};
use seeded_draw::Front;
use skip_groups::{Wanted, search_group};
use std::alloc::Global;
use store_base::{Fault, Key, Lead, Value};

/// Where a descent on the search path of a key ends.
#[derive(Clone, Copy)]
pub struct PathEnd {
    /// What leads the group of the level at which it ends.
    pub lead: Lead,
    /// The first key above that leads a group of that level, if there is one.
    pub next: Option<Key>,
}

impl Wanted for PathEnd {
    ghost floor = { λ key. led_by };

    ghost after = { λ key. followed_by };

    ghost last_counts = { λ key first second found. refl };

    fn see_floor(&mut self, page: &Page, index: u32, key: &Key) {
        self.lead = Lead::Key(page.key(index));
    }

    fn see_after(&mut self, page: &Page, index: u32, key: &Key) {
        self.next = Some(page.key(index));
    }
}

/// Goes down on the search path of a key, from the level `top` to the level `bottom`. `end` has the place on `top`
/// before, and that on `bottom` after. It reads one group of each level above `bottom`. After a fault `end` tells
/// nothing.
fn descend<P: Pages>(
    pages: &mut P,
    top: u8,
    bottom: u8,
    key: &Key,
    end: &mut PathEnd,
) -> Result<(), Fault>
    requires { bottom ≤ top }
    ensures call { IsWayDown (P.state pages.old) (P.state pages.new) top end.old bottom
        key.now (ends_at result end.new) }
    ensures follows { P.follows pages.old pages.new }
{
    let mut level = top;
    while level > bottom {
        let lead = end.lead;
        search_group(pages, level, &lead, key, end)?;
        level -= 1;
    }
    Ok(())
}

/// Whether a key lies in the group of level 0 of this place: from what leads it on, and below the next leader.
fn lies_in(place: &PathEnd, key: &Key) -> bool
    ensures { IsTrue result ↔ LiesIn place.now key.now }
{
    let is_from = match &place.lead {
        Lead::Start => true,
        Lead::Key(leader) => leader.cmp(key).is_le(),
    };
    let is_before = match &place.next {
        Some(leader) => key.cmp(leader).is_lt(),
        None => true,
    };
    is_from && is_before
}

/// What a search for a key finds.
#[derive(Drop)]
pub struct KeyPlace {
    /// What leads the group of the key's own level on its search path.
    pub lead: Lead,
    /// The value of the key, if the list has it.
    pub value: Option<Value>,
}

/// How the pages of a list are walked: what one call leaves to the next, and the memory that calls take.
#[derive(Drop)]
pub struct Walk {
    /// The group of level 0 to which the last call came, if it is known.
    pub known: Option<PathEnd>,
    /// What was digested of the key whose level was drawn last.
    pub front: Front,
    /// Where changes take memory from.
    pub alloc: Global,
}

impl Walk {
    /// Makes a walk that knows no place.
    pub fn new(alloc: Global) -> Self
        ensures { result.known ≡ None }
    {
        Walk {
            known: None,
            front: Front::new(),
            alloc,
        }
    }

    /// Whether a key lies in the group of level 0 that is known.
    fn knows(&self, key: &Key) -> bool
        ensures { IsTrue result ↔ LiesInKnown self.now.known key.now }
    {
        match &self.known {
            Some(place) => lies_in(place, key),
            None => false,
        }
    }

    /// What leads the group of level 0 that is known, or the start where none is.
    pub fn known_lead(&self) -> Lead
        ensures { result ≡ lead_in self.now.known }
    {
        match &self.known {
            Some(place) => place.lead,
            None => Lead::Start,
        }
    }

    /// Finds the place of a key on level 0, in pages of this height, and remembers it. It reads one group of each
    /// level above. Where the place is known already, no page is asked for. After a fault what was known still is.
    pub fn go_to<P: Pages>(&mut self, pages: &mut P, height: u8, key: &Key) -> Result<(), Fault>
        requires { 1 ≤ height }
        ensures call { IsPlaceSearch (P.state pages.old)
            (P.state pages.new) height self.old.known 0
            key.now self.new.known (leads_in self.new.known result) }
        ensures follows { P.follows pages.old pages.new }
    {
        if self.knows(key) {
            return Ok(());
        }
        let mut end = PathEnd {
            lead: Lead::Start,
            next: None,
        };
        descend(pages, height - 1, 0, key, &mut end)?;
        self.known = Some(end);
        Ok(())
    }

    /// Finds what leads the group of the level `top` on the search path of a key, in pages of this height, by
    /// one group of each level above. The place of the key on level 0 is then known; where it is before, and
    /// `top` is 0, no page is asked for. After a fault what was known still is.
    pub fn find_lead<P: Pages>(
        &mut self,
        pages: &mut P,
        height: u8,
        top: u8,
        key: &Key,
    ) -> Result<Lead, Fault>
        requires { top < height }
        ensures call { IsPlaceSearch (P.state pages.old)
            (P.state pages.new) height self.old.known top key.now self.new.known result }
        ensures follows { P.follows pages.old pages.new }
    {
        if top == 0 {
            self.go_to(pages, height, key)?;
            return Ok(self.known_lead());
        }
        let mut end = PathEnd {
            lead: Lead::Start,
            next: None,
        };
        descend(pages, height - 1, top, key, &mut end)?;
        let lead = end.lead;
        descend(pages, top, 0, key, &mut end)?;
        self.known = Some(end);
        Ok(lead)
    }

    /// Finds the value of a key in the pages of a list of this height, if the list has it. The groups of one
    /// search path are read, or that of level 0 alone where it is known. The place of the key on level 0 is
    /// then known. After a fault the pages are as they were, and what was known is still right.
    pub fn find_value<P: Pages>(
        &mut self,
        pages: &mut P,
        height: u8,
        key: &Key,
    ) -> Result<Option<Value>, Fault>
        requires { 1 ≤ height }
        ensures call { IsKeySearch (P.state pages.old)
            (P.state pages.new) height self.old.known 0
            key.now self.new.known (placed self.new.known result) }
        ensures follows { P.follows pages.old pages.new }
    {
        self.go_to(pages, height, key)?;
        let mut value = None;
        search_group(pages, 0, &self.known_lead(), key, &mut value)?;
        Ok(value)
    }

    /// Finds what leads the group of a key's own level, `top`, and the key's value, by one way down. The
    /// place of the key on level 0 is then known. After a fault the pages are as they were, and what was
    /// known is still right.
    pub fn find_place<P: Pages>(
        &mut self,
        pages: &mut P,
        height: u8,
        top: u8,
        key: &Key,
    ) -> Result<KeyPlace, Fault>
        requires { top < height }
        ensures call { IsKeySearch (P.state pages.old)
            (P.state pages.new) height self.old.known top key.now self.new.known result }
        ensures follows { P.follows pages.old pages.new }
    {
        let lead = self.find_lead(pages, height, top, key)?;
        let mut value = None;
        search_group(pages, 0, &self.known_lead(), key, &mut value)?;
        Ok(KeyPlace { lead, value })
    }
}
