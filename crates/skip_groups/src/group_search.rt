//! The search for the cells next to a key in the pages of one group.

ghost use Rattle.std.specs.Prelude.{◌≡◌, ◌-◌, ◌<◌, ◌≤◌, length, slice_get};
ghost use Rattle.std.specs.List.{prefix_len};
ghost use Rattle.store_base.specs.Leads.{model_lead};
ghost use Rattle.skip_groups.specs.Floors.{is_not_above};
ghost use Rattle.skip_groups.specs.Searches.{seen, IsGroupSearch};

use crate::group::{is_last, label_in_group};
use crate::wanted::Wanted;
use node_pages::{Page, Pages};
use store_base::{Fault, Key, Lead, byte_order};

/// How many cells of a page have keys that are not above the given one, by halving.
pub fn count_not_above(page: &Page, key: &Key) -> u32
    ensures count { result ≡ prefix_len (is_not_above key.now) page.now.cells }
    ensures within { result ≤ length page.now.cells }
{
    let wanted = key.as_bytes().as_slice();
    let mut low = 0;
    let mut high = page.len();
    while low < high {
        let middle = low + (high - low) / 2;
        if byte_order(page.key_bytes(middle), wanted).is_le() {
            low = middle + 1;
        } else {
            high = middle;
        }
    }
    low
}

/// How many cells of a page of the level have keys that are not above the given one: of one without room often all.
fn count_in_group(level: u8, page: &Page, key: &Key) -> u32
    ensures count { result ≡ prefix_len (is_not_above key.now) page.now.cells }
    ensures within { result ≤ length page.now.cells }
{
    let all = page.len();
    if is_last(level, page) {
        return count_not_above(page, key);
    }
    if byte_order(page.key_bytes(all - 1), key.as_bytes()).is_le() {
        all
    } else {
        count_not_above(page, key)
    }
}

/// Sees the last of the first so many cells of a page, where there are some.
fn see_last<T: Wanted>(page: &Page, count: u32, key: &Key, found: &mut T)
    requires { count ≤ length page.now.cells }
    ensures none { count ≡ 0 → found.new ≡ found.old }
    ensures some { 0 < count → found.new
        ≡ seen (T.floor key.now) (slice_get page.now.cells (count - 1)) found.old }
{
    if count > 0 {
        found.see_floor(page, count - 1, key);
    }
}

/// Sees the cell of a page with this number, the first being 0, where it has so many.
fn see_next<T: Wanted>(page: &Page, index: u32, key: &Key, found: &mut T)
    ensures { found.new ≡ seen (T.after key.now) (slice_get page.now.cells index) found.old }
{
    if index < page.len() {
        found.see_after(page, index, key);
    }
}

/// Sees the cells next to a key in the group that `lead` leads on the level: the one with the greatest key that is not
/// above the key, and the one with the least key above it. Each page of the group is asked for once at most, and none
/// behind a page with room. After a fault a part may be seen.
pub fn search_group<P: Pages, T: Wanted>(
    pages: &mut P,
    level: u8,
    lead: &Lead,
    key: &Key,
    found: &mut T,
) -> Result<(), Fault>
    ensures call { IsGroupSearch (T.floor key.now) (T.after key.now) (P.state pages.old)
        (P.state pages.new) level
        (model_lead lead.now) key.now found.old found.new result }
    ensures follows { P.follows pages.old pages.new }
{
    for index in 0..u32::MAX {
        let looked = pages.look(&label_in_group(level, lead, index))?;
        let Some(page) = looked else {
            return Ok(());
        };
        let count = count_in_group(level, page, key);
        see_last(page, count, key, found);
        if count < page.len() || is_last(level, page) {
            see_next(page, count, key, found);
            return Ok(());
        }
    }
    Ok(())
}
