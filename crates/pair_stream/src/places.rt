//! How far the levels of a list are read.

ghost use Rattle.std.specs.Prelude.{◌≤◌};
ghost use Rattle.store_model.specs.Parameters.{height_limit};

use node_pages::Page;
use store_base::{Lead, MAX_HEIGHT};

/// How far a level of the list is read.
#[derive(Clone, Copy)]
pub struct LevelPlace {
    /// What leads the group that is read.
    pub lead: Lead,
    /// How many cells of this group are read.
    pub count: u32,
}

/// Gives the pairs of a list one after another, from pages that hold the list and stay as they are.
///
/// On each level it knows how far this level is read. Where a group ends, the next cell of the level above leads the
/// next group. So each page of level 0 is asked for once, and a page above level 0 once for each group that it leads
/// to.
#[derive(Drop)]
pub struct PairStream {
    /// How many levels the list has.
    pub(crate) height: u8,
    /// How far each level is read.
    pub(crate) places: [LevelPlace; MAX_HEIGHT as usize],
    /// The page of level 0 that was read last.
    pub(crate) page: Option<Page>,
    ghost in_range: { height ≤ height_limit },
}
