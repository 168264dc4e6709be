//! The writes to the journal of an image: the entry of a slot, which is its shadow block and its mark, and single
//! bytes, such as the commit flag.
ghost use Rattle.std.specs.Prelude.{◌≡◌, ℕ, ◌+◌, ◌<◌, ◌≤◌, [], ◌∷◌, OnOk};
ghost use Rattle.store_model.specs.Parameters.{image_len, slots_limit, gate_at};
ghost use Rattle.disk_model.specs.DiskState.{DiskState, IsObservable, IsDurable};
ghost use Rattle.disk_model.specs.DiskCalls.{IsCall, Rose, overwrite};
ghost use Rattle.gate_journal.specs.Places.{IsApart, Reaches, Makes};
ghost use Rattle.gate_journal.specs.Changes.{HasEntry, OutsideEntry};

use disk_model::Disk;
use store_base::{DiskFault, gate_at, mark_at, shadow_at};
use store_model::Slot;

/// Writes the shadow block and the mark of a slot.
pub fn write_entry<D: Disk>(
    disk: &mut D,
    slots: u32,
    slot: u32,
    shadow: &Slot,
    mark: u8,
) -> Result<(), DiskFault>
    requires in_range { slots ≤ slots_limit }
    requires below { slot < slots }
    requires size { (D.state disk.old).size ≡ image_len slots }
    ensures call { IsCall (D.state disk.old) (D.state disk.new) result }
    ensures reaches { IsObservable (D.state disk.old)
        → Reaches (OutsideEntry slots slot) (HasEntry slots slot mark shadow.now) (D.state disk.old)
        (D.state disk.new) result }
    ensures makes { IsObservable (D.state disk.old)
        → Makes 2 0 (D.state disk.old) (D.state disk.new) result }
    ensures wrote { IsObservable (D.state disk.old)
        → Rose (D.state disk.old).writes (D.state disk.new).writes }
{
    disk.write_at(shadow_at(slots, slot), shadow)?;
    disk.write_at(mark_at(slot), &[mark])
}

/// Writes one byte, by itself, and makes it durable with all that is pending.
pub fn write_byte<D: Disk>(disk: &mut D, at: u64, byte: u8) -> Result<(), DiskFault>
    requires { at + 1 ≤ (D.state disk.old).size }
    ensures call { IsCall (D.state disk.old) (D.state disk.new) result }
    ensures reaches { IsObservable (D.state disk.old)
        → Reaches (IsApart at 1) (λ image. image
        ≡ overwrite (D.state disk.old).bytes at (byte ∷ [])) (D.state disk.old)
        (D.state disk.new) result }
    ensures durable { IsObservable (D.state disk.old) → OnOk result (IsDurable (D.state disk.new)) }
    ensures makes { IsObservable (D.state disk.old)
        → Makes 1 1 (D.state disk.old) (D.state disk.new) result }
    ensures wrote { IsObservable (D.state disk.old)
        → Rose (D.state disk.old).writes (D.state disk.new).writes }
{
    disk.write_at(at, &[byte])?;
    disk.sync()
}

/// Writes the commit flag, by itself, and makes it durable.
pub fn write_flag<D: Disk>(disk: &mut D, flag: u8) -> Result<(), DiskFault>
    requires { gate_at + 1 ≤ (D.state disk.old).size }
    ensures call { IsCall (D.state disk.old) (D.state disk.new) result }
    ensures reaches { IsObservable (D.state disk.old)
        → Reaches (IsApart gate_at 1)
        (λ image. image ≡ overwrite (D.state disk.old).bytes gate_at (flag ∷ []))
        (D.state disk.old) (D.state disk.new) result }
    ensures durable { IsObservable (D.state disk.old) → OnOk result (IsDurable (D.state disk.new)) }
    ensures makes { IsObservable (D.state disk.old)
        → Makes 1 1 (D.state disk.old) (D.state disk.new) result }
{
    write_byte(disk, gate_at(), flag)
}
