//! What an image holds.

use store_base::Params;
use tree_pairs::Counts;

/// What slots hold that are the layout of a tree.
#[derive(Clone, Copy, Debug)]
pub struct Contents {
    /// The parameters of the layout.
    pub params: Params,
    /// How many slots hold a page.
    pub used: u32,
    /// What the tree holds.
    pub counts: Counts,
}
