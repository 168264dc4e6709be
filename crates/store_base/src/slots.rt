//! The slots that the calls on the table work on, wherever their bytes lie.

ghost use Rattle.std.specs.Prelude.{◌<◌, ◌≤◌, ◌*◌, ◌-◌, length};
ghost use Rattle.store_model.specs.Parameters.{block_len};
ghost use Rattle.store_base.specs.SlotsState.{SlotsState, IsObservable, IsCounted, AreWhole, IsGet, IsGetSome, IsSet};

use crate::store_fault::Fault;
use store_model::{BLOCK, Slot};

/// How many bytes are read by one call where many blocks are read one behind the other: 16 blocks. A longer read gains
/// nothing.
pub const READ_LEN: usize = 16 * BLOCK;

/// Slots that can be read, numbered from 0.
///
/// Their number never changes, nor whether they tell their bytes, nor whether calls on them take memory. A call that
/// answers `Fault::Disk` raises the count of faults by one, up to the last value of a `u64`. No other call changes
/// it. Where calls take no memory, none answers `Fault::NoMemory`.
pub trait ReadSlots {
    /// What the slots mean at this moment.
    ghost state: { Self → SlotsState };

    /// What each call keeps of what lies below the slots, after faults too.
    ghost follows: { Self → Self → Type 0 };

    /// Reads slot `at` into the buffer. After a fault the buffer may hold anything, and the slots are as
    /// they were.
    fn get(&mut self, at: u32, into: &mut Slot) -> Result<(), Fault>
        requires { at < (state self.old).count }
        ensures call { IsGet (state self.old) (state self.new) at into.new result }
        ensures follows { follows self.old self.new };

    /// Reads slots one behind the other, from slot `at` on, into the first blocks of the buffer, and says how many: at
    /// least one, and at most as many as the buffer has room for. The buffer has room for one, and for none behind the
    /// last slot. After a fault it may hold anything, and the slots are as they were.
    fn get_some(&mut self, at: u32, into: &mut [u8]) -> Result<u32, Fault>
        requires room { block_len ≤ length into.old }
        requires within { length into.old ≤ block_len * ((state self.old).count - at) }
        ensures call { IsGetSome (state self.old) (state self.new) at into.new result }
        ensures follows { follows self.old self.new }
    {
        let mut slot = [0; BLOCK];
        self.get(at, &mut slot)?;
        into[..BLOCK].copy_from_slice(&slot);
        Ok(1)
    }

    /// Slots that tell their bytes are as many as `count` says.
    ghost counted: { (slots : Self) → IsObservable (state slots) → IsCounted (state slots) };

    /// Each slot has the bytes of a block.
    ghost whole: { (slots : Self) → IsObservable (state slots) → AreWhole (state slots).slots };

    /// Slots on which no call was made follow themselves.
    ghost follows_refl: { (slots : Self) → follows slots slots };

    /// What follows slots that follow others follows those too.
    ghost follows_trans: { (old mid new : Self) → follows old mid
        → follows mid new → follows old new };
}

/// Slots that can be read and written.
pub trait Slots: ReadSlots {
    /// Writes slot `at`. After a fault the slots are as they were.
    fn set(&mut self, at: u32, slot: &Slot) -> Result<(), Fault>
        requires { at < (Self.state self.old).count }
        ensures call { IsSet (Self.state self.old) (Self.state self.new) at slot.now result }
        ensures follows { Self.follows self.old self.new };
}
