//! What a walk goes by.

use crate::Entry;
use seeded_draw::Draw;

/// What a walk goes by.
pub(crate) struct Guide<'a, W: Draw> {
    /// The draw of the keys' levels.
    pub(crate) draw: &'a W,
    /// An index of the pages in the slots.
    pub(crate) entries: &'a [Entry],
}

impl<W: Draw> Drop for Guide<'_, W> {
    fn drop(self) {
        let Guide {
            draw: _,
            entries: _,
        } = self;
    }
}
