//! A page on its way into its slot.

ghost use Rattle.std.specs.Prelude.{◌≡◌, ℕ, ◌<◌, ◌≤◌, ◌++◌, ◌∷◌, [], List, length};
ghost use Rattle.store_model.specs.Parameters.{image_len, slots_limit};
ghost use Rattle.store_model.specs.Images.{page_bytes};
ghost use Rattle.store_model.specs.Pages as model;
ghost use Rattle.store_model.specs.Parameters.{table_at as slot_place};
ghost use Rattle.disk_model.specs.DiskState.{DiskState};
ghost use Rattle.disk_model.specs.DiskCalls.{IsWrite};
ghost use Rattle.gate_journal.specs.Places.{AreCalls};
ghost use Rattle.rising_pages.specs.FreePlaces.{AreFree};
ghost use Rattle.rising_pages.specs.Ends.{list_of};
ghost use Rattle.image_writer.specs.Placing.{placed, ArePlaced, Places};

use disk_model::Disk;
use node_pages::Page;
use rising_pages::FreeSlots;
use seeded_draw::Draw;
use store_base::{DiskFault, table_at};

/// Writes a page to slot `at` of the table.
fn write_page<D: Disk>(disk: &mut D, slots: u32, at: u32, page: &Page) -> Result<(), DiskFault>
    requires in_range { slots ≤ slots_limit }
    requires below { at < slots }
    requires size { (D.state disk.old).size ≡ image_len slots }
    ensures { IsWrite (D.state disk.old) (D.state disk.new) (slot_place slots at)
        (page_bytes page.now) result }
{
    disk.write_at(table_at(slots, at), page.as_slot())
}

/// Writes a page into the first free slot of its probe sequence. There has to be
/// one.
///
/// After `DiskFault` all but the first byte of the disk may hold anything.
pub fn place_page<D: Disk, W: Draw>(
    disk: &mut D,
    draw: &W,
    free: &mut FreeSlots,
    page: &Page,
) -> Result<(), DiskFault>
    requires in_range { (W.drawn draw.now).slots ≤ slots_limit }
    requires size { (D.state disk.old).size ≡ image_len (W.drawn draw.now).slots }
    requires slots { length free.old ≡ (W.drawn draw.now).slots }
    ensures calls { AreCalls (D.state disk.old) (D.state disk.new) result }
    ensures slots { length free.new ≡ (W.drawn draw.now).slots }
    ensures free { (pages : List model.Page)
        → AreFree (placed (W.drawn draw.now) pages) free.old
        → AreFree (placed (W.drawn draw.now) (pages ++ page.now ∷ [])) free.new }
    ensures places { (start : D) (pages : List model.Page)
        → length pages < (W.drawn draw.now).slots
        → AreFree (placed (W.drawn draw.now) pages) free.old
        → ArePlaced (W.drawn draw.now) pages (D.state start) (D.state disk.old)
        → Places (W.drawn draw.now) (pages ++ page.now ∷ [])
        (D.state start) (D.state disk.new) result }
{
    let start = draw.start(&page.label());
    match free.take_first(start) {
        Some(at) => write_page(disk, draw.slots(), at, page),
        None => Ok(()),
    }
}

/// Places a page that was closed, if one was, as `place_page` does.
pub fn place_closed<D: Disk, W: Draw>(
    disk: &mut D,
    draw: &W,
    free: &mut FreeSlots,
    closed: &Option<Page>,
) -> Result<(), DiskFault>
    requires in_range { (W.drawn draw.now).slots ≤ slots_limit }
    requires size { (D.state disk.old).size ≡ image_len (W.drawn draw.now).slots }
    requires slots { length free.old ≡ (W.drawn draw.now).slots }
    ensures calls { AreCalls (D.state disk.old) (D.state disk.new) result }
    ensures slots { length free.new ≡ (W.drawn draw.now).slots }
    ensures free { (pages : List model.Page)
        → AreFree (placed (W.drawn draw.now) pages) free.old
        → AreFree (placed (W.drawn draw.now)
        (pages ++ list_of closed.now)) free.new }
    ensures places { (start : D) (pages : List model.Page)
        → length (pages ++ list_of closed.now)
        ≤ (W.drawn draw.now).slots
        → AreFree (placed (W.drawn draw.now) pages) free.old
        → ArePlaced (W.drawn draw.now) pages (D.state start) (D.state disk.old)
        → Places (W.drawn draw.now) (pages ++ list_of closed.now)
        (D.state start) (D.state disk.new) result }
{
    match closed {
        Some(page) => place_page(disk, draw, free, page),
        None => Ok(()),
    }
}
