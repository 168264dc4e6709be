//! The place at which a pair is put into a list.

ghost use Rattle.std.specs.Prelude.{◌≡◌, IfOk};
ghost use Rattle.store_base.specs.Leads.{model_lead};
ghost use Rattle.skip_levels.specs.Descent.{lead_known};
ghost use Rattle.skip_levels.specs.PutPlaces.{IsPutSearch, is_leader, behind};

use crate::walk::{PathEnd, Walk};
use node_pages::Pages;
use seeded_draw::Draw;
use store_base::{Fault, Key, Lead};

/// Where the pair of a key is put.
#[derive(Drop)]
pub struct PutPlace {
    /// The highest level that changes: the key's own, or 0 where the key is there.
    pub top: u8,
    /// What leads the group of that level on the search path of the key.
    pub lead: Lead,
}

impl Walk {
    /// Whether the key is what leads the group of level 0 that is known.
    fn is_at_leader(&self, key: &Key) -> bool
        ensures { result ≡ is_leader key.now (lead_known self.now.known) }
    {
        match &self.known {
            Some(
                PathEnd {
                    lead: Lead::Key(leader),
                    ..
                },
            ) => leader.cmp(key).is_eq(),
            _ => false,
        }
    }

    /// Finds the place at which a value is put under the key, whose own level is `own`, in the pages of a list. It
    /// reads at most the groups of one search path, without that of level 0: a key of a higher level is there exactly
    /// where it leads its group, and for a key of level 0 it makes no difference. The place of the key on level 0 is
    /// then known. After a fault the pages are as they were.
    pub fn place_to_put<P: Pages, W: Draw>(
        &mut self,
        pages: &mut P,
        draw: &W,
        own: u8,
        key: &Key,
    ) -> Result<PutPlace, Fault>
        requires { own ≡ (W.drawn draw.now).level key.now }
        ensures call { IsPutSearch (W.drawn draw.now) (P.state pages.old)
            (P.state pages.new) self.old.known key.now self.new.known result }
        ensures follows { P.follows pages.old pages.new }
    {
        let lead = self.find_lead(pages, draw.height(), own, key)?;
        if self.is_at_leader(key) {
            Ok(PutPlace {
                top: 0,
                lead: Lead::Key(*key),
            })
        } else {
            Ok(PutPlace { top: own, lead })
        }
    }

    /// Remembers what a put of the key from the level `top` down leaves: a new key above level 0 leads a
    /// group of its own.
    pub fn remember_put(&mut self, top: u8, key: &Key)
        ensures { self.new.known ≡ behind top key.now self.old.known }
    {
        if top == 0 {
            return;
        }
        if let Some(place) = &mut self.known {
            place.lead = Lead::Key(*key);
        }
    }
}
