//! The labels of the pages of one group, and which of these is its last.

ghost use Rattle.std.specs.Prelude.{◌≡◌, ◌<◌, ◌↔◌, length, IsTrue};
ghost use Rattle.store_base.specs.Leads.{model_lead};
ghost use Rattle.store_model.specs.Pages.{page_room};
ghost use Rattle.skip_groups.specs.Groups.{label_of};

use node_pages::{Page, reveal_lead, room};
use store_base::{Label, Lead};

/// The label of page `index` of the group that `lead` leads on the level, the first being 0.
pub fn label_in_group(level: u8, lead: &Lead, index: u32) -> Label
    ensures { result ≡ label_of level (model_lead lead.now) index }
{
    reveal_lead(lead);
    Label {
        level,
        lead: *lead,
        index,
    }
}

/// Whether a page of the level is the last of its group: a page with room is, since each but the last is full.
pub fn is_last(level: u8, page: &Page) -> bool
    ensures { IsTrue result ↔ (length page.now.cells < page_room level) }
{
    page.len() < u32::from(room(level))
}
