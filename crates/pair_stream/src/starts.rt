//! Where a stream stands that is to give the pairs from a key on.

ghost use Rattle.std.specs.Prelude.{◌≡◌, ◌≤◌, length, IfOk};
ghost use Rattle.store_base.specs.Leads.{model_lead};
ghost use Rattle.store_model.specs.Parameters.{height_limit};
ghost use Rattle.skip_groups.specs.Floors.{lead_from};
ghost use Rattle.skip_groups.specs.Searches.{IsGroupWalk};
ghost use Rattle.pair_stream.specs.Starts.{IsCountBelow, IsReadBelow, IsLevelsRead, IsStartSearch, last_before};

use crate::group_reads::hold_page;
use crate::places::{LevelPlace, PairStream};
use node_pages::{Page, Pages, room};
use skip_groups::label_in_group;
use store_base::{Fault, Key, Lead, MAX_HEIGHT};

/// How many cells of a page have keys below the given one, up to the first cell that has not.
fn count_below(page: &Page, key: &Key) -> u32
    ensures { IsCountBelow key.now page.now.cells result }
{
    let all = page.len();
    for at in 0..all {
        if !page.key(at).cmp(key).is_lt() {
            return at;
        }
    }
    all
}

/// What leads the next lower group of a search path, behind the first so many cells of a page, and where there are
/// none, what did before.
fn lead_past(page: &Page, count: u32, lead: Lead) -> Lead
    requires { count ≤ length page.now.cells }
    ensures { model_lead result ≡ lead_from (last_before page.now.cells count) (model_lead lead) }
{
    if count == 0 {
        return lead;
    }
    Lead::Key(page.key(count - 1))
}

/// Reads the group that `lead` leads on the level up to its first cell whose key is not below the given one. The answer
/// is how many cells stand before it, and what leads the group of the next lower level behind them. Each page is asked
/// for once at most, and none behind a page with room.
fn read_below<P: Pages>(
    pages: &mut P,
    level: u8,
    lead: &Lead,
    key: &Key,
) -> Result<(u32, Lead), Fault>
    ensures call { IsGroupWalk (P.state pages.old) (P.state pages.new) level (model_lead lead.now)
        (λ cells. IfOk result (IsReadBelow (model_lead lead.now) key.now cells)) result }
    ensures follows { P.follows pages.old pages.new }
{
    let room = u32::from(room(level));
    let mut next = *lead;
    for index in 0..u32::MAX {
        let first = room.saturating_mul(index);
        let found = pages.look(&label_in_group(level, lead, index))?;
        let Some(page) = found else {
            return Ok((first, next));
        };
        let count = count_below(page, key);
        next = lead_past(page, count, next);
        if count < room {
            return Ok((first.saturating_add(count), next));
        }
    }
    Ok((u32::MAX, next))
}

/// Reads each level of a list of this height up to the key, by one way down: how far each is then read.
fn read_levels<P: Pages>(
    pages: &mut P,
    height: u8,
    key: &Key,
) -> Result<[LevelPlace; MAX_HEIGHT as usize], Fault>
    requires { height ≤ height_limit }
    ensures call { IsLevelsRead (P.state pages.old) (P.state pages.new) height key.now result }
    ensures follows { P.follows pages.old pages.new }
{
    let start = LevelPlace {
        lead: Lead::Start,
        count: 0,
    };
    let mut places = [start; MAX_HEIGHT as usize];
    let mut lead = Lead::Start;
    let mut level = height;
    while level > 0 {
        level -= 1;
        let (count, next) = read_below(pages, level, &lead, key)?;
        places[usize::from(level)] = LevelPlace { lead, count };
        lead = next;
    }
    Ok(places)
}

impl PairStream {
    /// Stands before the first pair whose key is not below the given one, in the pages of a list of this height. The
    /// groups of one search path are read, and one page of level 0 once more.
    pub fn starting_at<P: Pages>(pages: &mut P, height: u8, key: &Key) -> Result<Self, Fault>
        requires { height ≤ height_limit }
        ensures call { IsStartSearch (P.state pages.old) (P.state pages.new) height key.now result }
        ensures follows { P.follows pages.old pages.new }
    {
        let places = read_levels(pages, height, key)?;
        let here = places[0];
        let mut page = None;
        hold_page(
            pages,
            &here.lead,
            here.count / u32::from(room(0)),
            &mut page,
        )?;
        Ok(PairStream {
            height,
            places,
            page,
        })
    }
}
