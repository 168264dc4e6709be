//! The pages that are left when the last pair came.

ghost use Rattle.std.specs.Prelude.{◌≡◌, ℕ, ◌<◌, ◌≤◌, ◌++◌, List, length, OnOk};
ghost use Rattle.store_model.specs.Parameters.{image_len, slots_limit};
ghost use Rattle.store_model.specs.Pairs.{Pair, IsPairs};
ghost use Rattle.store_model.specs.Pages as model;
ghost use Rattle.store_model.specs.Pages.{pages_of_pairs};
ghost use Rattle.disk_model.specs.DiskState.{DiskState};
ghost use Rattle.gate_journal.specs.Places.{AreCalls};
ghost use Rattle.rising_pages.specs.FreePlaces.{AreFree};
ghost use Rattle.rising_pages.specs.OpenPages.{closed_pages};
ghost use Rattle.rising_pages.specs.Raised.{AreRaised, key_pairs, upper_pages};
ghost use Rattle.image_writer.specs.Placing.{placed, ArePlaced, Places};
ghost use Rattle.image_writer.specs.Writing.{AreComplete};

use crate::level::place_level;
use crate::place::place_closed;
use disk_model::Disk;
use rising_pages::{FreeSlots, KeptPairs, RaisedKey};
use seeded_draw::Draw;
use store_base::DiskFault;

/// Places the pages of all levels above 0, level after level, as `place_level` does those of one.
///
/// After `DiskFault` all but the first byte of the disk may hold anything.
pub fn place_upper<D: Disk, W: Draw>(
    disk: &mut D,
    draw: &W,
    free: &mut FreeSlots,
    keys: &[RaisedKey],
) -> Result<(), DiskFault>
    requires in_range { (W.drawn draw.now).slots ≤ slots_limit }
    requires size { (D.state disk.old).size ≡ image_len (W.drawn draw.now).slots }
    requires slots { length free.old ≡ (W.drawn draw.now).slots }
    requires rising { IsPairs (key_pairs keys.now) }
    requires levels { AreRaised (W.drawn draw.now) keys.now }
    requires few { length keys.now < 4294967296 }
    ensures calls { AreCalls (D.state disk.old) (D.state disk.new) result }
    ensures slots { length free.new ≡ (W.drawn draw.now).slots }
    ensures free { (before : List model.Page)
        → AreFree (placed (W.drawn draw.now) before) free.old
        → OnOk result (AreFree (placed (W.drawn draw.now)
        (before ++ upper_pages (W.drawn draw.now) (key_pairs keys.now))) free.new) }
    ensures places { (start : D) (before : List model.Page)
        → length (before ++ upper_pages (W.drawn draw.now) (key_pairs keys.now))
        ≤ (W.drawn draw.now).slots
        → AreFree (placed (W.drawn draw.now) before) free.old
        → ArePlaced (W.drawn draw.now) before (D.state start) (D.state disk.old)
        → Places (W.drawn draw.now)
        (before ++ upper_pages (W.drawn draw.now) (key_pairs keys.now))
        (D.state start) (D.state disk.new) result }
{
    for level in 1..draw.height() {
        place_level(disk, draw, free, level, keys)?;
    }
    Ok(())
}

/// Places the pages that are left when the last pair came, where the pages of all levels are no more than the slots:
/// the last one of level 0, and those of the levels above.
///
/// After `DiskFault` all but the first byte of the disk may hold anything.
pub fn place_left<D: Disk, W: Draw>(
    disk: &mut D,
    draw: &W,
    free: &mut FreeSlots,
    kept: &KeptPairs,
) -> Result<(), DiskFault>
    requires in_range { (W.drawn draw.now).slots ≤ slots_limit }
    requires size { (D.state disk.old).size ≡ image_len (W.drawn draw.now).slots }
    requires slots { length free.old ≡ (W.drawn draw.now).slots }
    requires complete { (s : List Pair) × AreComplete (W.drawn draw.now) s kept.now }
    ensures calls { AreCalls (D.state disk.old) (D.state disk.new) result }
    ensures slots { length free.new ≡ (W.drawn draw.now).slots }
    ensures free { (s : List Pair) → AreComplete (W.drawn draw.now) s kept.now
        → AreFree (placed (W.drawn draw.now) (closed_pages (W.drawn draw.now) s 0)) free.old
        → OnOk result (AreFree (placed (W.drawn draw.now)
        (pages_of_pairs (W.drawn draw.now) s)) free.new) }
    ensures places { (start : D) (s : List Pair) → AreComplete (W.drawn draw.now) s kept.now
        → AreFree (placed (W.drawn draw.now) (closed_pages (W.drawn draw.now) s 0)) free.old
        → ArePlaced (W.drawn draw.now) (closed_pages (W.drawn draw.now) s 0)
        (D.state start) (D.state disk.old)
        → Places (W.drawn draw.now) (pages_of_pairs (W.drawn draw.now) s)
        (D.state start) (D.state disk.new) result }
{
    place_closed(disk, draw, free, kept.last())?;
    place_upper(disk, draw, free, kept.raised())
}
