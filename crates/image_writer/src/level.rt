//! The pages of a level above 0.

ghost use Rattle.std.specs.Prelude.{◌≡◌, ℕ, ◌<◌, ◌≤◌, ◌++◌, List, length, OnOk};
ghost use Rattle.store_model.specs.Parameters.{image_len, slots_limit};
ghost use Rattle.store_model.specs.Pairs.{IsPairs};
ghost use Rattle.store_model.specs.Pages as model;
ghost use Rattle.store_model.specs.Pages.{level_pages};
ghost use Rattle.disk_model.specs.DiskState.{DiskState};
ghost use Rattle.gate_journal.specs.Places.{AreCalls};
ghost use Rattle.rising_pages.specs.FreePlaces.{AreFree};
ghost use Rattle.rising_pages.specs.Raised.{AreRaised, key_pairs};
ghost use Rattle.image_writer.specs.Placing.{placed, ArePlaced, Places};

use crate::place::place_closed;
use disk_model::Disk;
use rising_pages::{FreeSlots, OpenPage, RaisedKey};
use seeded_draw::Draw;
use store_base::DiskFault;

/// Places the pages of a level above 0, which follow from the keys that stand above level 0. They come in their order,
/// each with its level.
///
/// After `DiskFault` all but the first byte of the disk may hold anything.
pub fn place_level<D: Disk, W: Draw>(
    disk: &mut D,
    draw: &W,
    free: &mut FreeSlots,
    level: u8,
    keys: &[RaisedKey],
) -> Result<(), DiskFault>
    requires in_range { (W.drawn draw.now).slots ≤ slots_limit }
    requires size { (D.state disk.old).size ≡ image_len (W.drawn draw.now).slots }
    requires slots { length free.old ≡ (W.drawn draw.now).slots }
    requires above { 1 ≤ level }
    requires rising { IsPairs (key_pairs keys.now) }
    requires levels { AreRaised (W.drawn draw.now) keys.now }
    requires few { length keys.now < 4294967296 }
    ensures calls { AreCalls (D.state disk.old) (D.state disk.new) result }
    ensures slots { length free.new ≡ (W.drawn draw.now).slots }
    ensures free { (before : List model.Page)
        → AreFree (placed (W.drawn draw.now) before) free.old
        → OnOk result (AreFree (placed (W.drawn draw.now)
        (before ++ level_pages (W.drawn draw.now) (key_pairs keys.now) level)) free.new) }
    ensures places { (start : D) (before : List model.Page)
        → length (before ++ level_pages (W.drawn draw.now) (key_pairs keys.now) level)
        ≤ (W.drawn draw.now).slots
        → AreFree (placed (W.drawn draw.now) before) free.old
        → ArePlaced (W.drawn draw.now) before (D.state start) (D.state disk.old)
        → Places (W.drawn draw.now)
        (before ++ level_pages (W.drawn draw.now) (key_pairs keys.now) level)
        (D.state start) (D.state disk.new) result }
{
    let mut last = OpenPage::new();
    for key in keys {
        let closed = last.take_key(level, key);
        place_closed(disk, draw, free, &closed)?;
    }
    place_closed(disk, draw, free, last.page())
}
