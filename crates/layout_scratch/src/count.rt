//! How many pages there are, before any is made.

ghost use Rattle.std.specs.Prelude.{◌≡◌, ◌≤◌, length};
ghost use Rattle.std.specs.List.{flat_map};
ghost use Rattle.store_model.specs.Parameters.{height_limit};
ghost use Rattle.store_model.specs.Lists.{numbers_below};
ghost use Rattle.store_model.specs.Draws.{Draw};
ghost use Rattle.store_model.specs.Pages.{level_pages};
ghost use Rattle.layout_scratch.specs.Sorting.{sorted_limit};
ghost use Rattle.layout_scratch.specs.Ranks.{pairs_of, AreRanked};

use crate::groups::{cell_count, first_group};
use crate::ranked::Ranked;
use node_pages::room;

/// How many pages a level has.
fn level_page_count(level: u8, ranked: &[Ranked]) -> u32
    requires few { length ranked.now ≤ sorted_limit }
    ensures value { (d : Draw) → AreRanked d ranked.now
        → result ≡ length (level_pages d (pairs_of ranked.now) level) }
    ensures bound { result ≤ length ranked.now }
{
    let room = u32::from(room(level));
    let mut count = 0;
    let mut start = 0;
    while start < ranked.len() {
        let group = first_group(level, &ranked[start..]);
        count += cell_count(level, group).div_ceil(room);
        start += group.len();
    }
    count
}

/// How many pages the levels below a height have.
pub fn page_count(height: u8, ranked: &[Ranked]) -> u32
    requires few { length ranked.now ≤ sorted_limit }
    requires low { height ≤ height_limit }
    ensures { (d : Draw) → AreRanked d ranked.now
        → result ≡ length (flat_map (level_pages d (pairs_of ranked.now)) (numbers_below height)) }
{
    let mut count = 0;
    for level in 0..height {
        count += level_page_count(level, ranked);
    }
    count
}
