//! What a slot tells in place, without a copy of it.

ghost use Rattle.std.specs.Prelude.{◌≡◌, ◌↔◌, ℕ, List, IsTrue};

use store_model::Slot;

/// What a slot tells by other bytes, so that it need not be copied: how the label in it compares to theirs, or
/// whether they are its own.
pub trait Told {
    /// What is told of a slot by other bytes.
    ghost of: { List ℕ → List ℕ → Self → Type 0 };

    /// Tells it.
    fn tell(slot: &Slot, wanted: &[u8]) -> Self
        ensures { of slot.now wanted.now result };
}

impl Told for bool {
    ghost of = { λ slot wanted is_same. IsTrue is_same ↔ (slot ≡ wanted) };

    fn tell(slot: &Slot, wanted: &[u8]) -> Self {
        slot.as_slice() == wanted
    }
}
