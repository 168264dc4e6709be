//! Slots that are to be changed together.
ghost use Rattle.std.specs.Prelude.{◌≡◌, ◌<◌};
ghost use Rattle.gate_journal.specs.Changes.{Changes};

use store_model::Slot;

/// Slots of the table that are to be changed, each with its new bytes. A commit asks that their numbers rise
/// strictly and are below that of the table's slots.
pub trait SlotChanges {
    /// How many slots change, the number of each, and its new bytes.
    ghost changes: { Self → Changes };

    /// How many slots change.
    fn count(&self) -> u32
        ensures { result ≡ (changes self.now).count };

    /// The number of the slot of change `k`.
    fn number(&self, k: u32) -> u32
        requires { k < (changes self.now).count }
        ensures { result ≡ (changes self.now).slot k };

    /// The number of the slot of change `k`. Its new bytes are put into `bytes`.
    fn change(&self, k: u32, bytes: &mut Slot) -> u32
        requires { k < (changes self.now).count }
        ensures slot { result ≡ (changes self.now).slot k }
        ensures bytes { bytes.new ≡ (changes self.now).bytes k };
}
