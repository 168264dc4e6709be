//! What is read next in a group.

ghost use Rattle.std.specs.Prelude.{◌≡◌, OnErr, Some};
ghost use Rattle.store_base.specs.Leads.{model_lead};
ghost use Rattle.node_pages.specs.PagesState.{IsPageGet};
ghost use Rattle.skip_groups.specs.Floors.{pair_in};
ghost use Rattle.skip_groups.specs.Groups.{label_of};
ghost use Rattle.pair_stream.specs.GroupReads.{IsKeyRead, IsPageTurn, IsPairRead, cell_in, held_by};

use crate::places::LevelPlace;
use node_pages::{Page, Pages, room};
use skip_groups::{label_in_group, pair_of};
use store_base::{Fault, Key, Lead, Value};

/// The key of the next cell of a group above level 0, if the group has one more. One page is asked for.
pub fn next_key<P: Pages>(
    pages: &mut P,
    level: u8,
    place: &LevelPlace,
) -> Result<Option<Key>, Fault>
    ensures call { IsKeyRead (P.state pages.old) (P.state pages.new) level place.now result }
    ensures follows { P.follows pages.old pages.new }
{
    let room = u32::from(room(level));
    let found = pages.look(&label_in_group(level, &place.lead, place.count / room))?;
    let Some(page) = found else {
        return Ok(None);
    };
    let at = place.count % room;
    if at < page.len() {
        Ok(Some(page.key(at)))
    } else {
        Ok(None)
    }
}

/// Copies page `index` of the group of level 0 that `lead` leads, if the group has so many pages. After a fault the
/// page that was held still is.
pub fn hold_page<P: Pages>(
    pages: &mut P,
    lead: &Lead,
    index: u32,
    held: &mut Option<Page>,
) -> Result<(), Fault>
    ensures call { IsPageGet (P.state pages.old) (P.state pages.new)
        (label_of 0 (model_lead lead.now) index) (held_by result held.new) }
    ensures kept { OnErr result (held.new ≡ held.old) }
    ensures follows { P.follows pages.old pages.new }
{
    *held = pages.look(&label_in_group(0, lead, index))?.copied();
    Ok(())
}

/// Asks for the page of the next cell of a group of level 0 where this cell is the first of a page, and holds that
/// page. After a fault the page that was held still is.
fn turn_page<P: Pages>(
    pages: &mut P,
    place: &LevelPlace,
    held: &mut Option<Page>,
) -> Result<(), Fault>
    ensures call { IsPageTurn (P.state pages.old) (P.state pages.new) place.now held.old held.new result }
    ensures kept { OnErr result (held.new ≡ held.old) }
    ensures follows { P.follows pages.old pages.new }
{
    let room = u32::from(room(0));
    if place.count % room != 0 {
        return Ok(());
    }
    hold_page(pages, &place.lead, place.count / room, held)
}

/// The pair of the cell with this number of a page of level 0, if there is one.
fn pair_at(held: &Option<Page>, at: u32) -> Option<(Key, Value)>
    ensures { result ≡ pair_in (cell_in held.now at) }
{
    let page = held.as_ref()?;
    if at >= page.len() {
        return None;
    }
    pair_of(page.cell(at))
}

/// The next pair of a group of level 0, if the group has one more. Its page is held, and one page is asked for where
/// the pair is the first of its page. After a fault the page that was held still is.
pub fn next_pair<P: Pages>(
    pages: &mut P,
    place: &LevelPlace,
    held: &mut Option<Page>,
) -> Result<Option<(Key, Value)>, Fault>
    ensures call { IsPairRead (P.state pages.old) (P.state pages.new) place.now held.old held.new result }
    ensures kept { OnErr result (held.new ≡ held.old) }
    ensures follows { P.follows pages.old pages.new }
{
    turn_page(pages, place, held)?;
    Ok(pair_at(held, place.count % u32::from(room(0))))
}
