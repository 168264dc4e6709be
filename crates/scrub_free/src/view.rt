//! Slots as scrubbing would leave them, read without writing.

ghost use Rattle.std.specs.Prelude.{◌≡◌, ◌≤◌};
ghost use Rattle.store_model.specs.Images.{scrubbed_block};
ghost use Rattle.store_base.specs.SlotsState.{IsObservable};
ghost use Rattle.scrub_free.specs.FreeSlots.{is_unclean};
ghost use Rattle.scrub_free.specs.ScrubbedSlots.{AreClean, scrubbed_slots, scrubbed_counted, scrubbed_whole};

use crate::slots::is_unclean;
use store_base::{Fault, ReadSlots};
use store_model::{BLOCK, Slot};

/// Makes a slot zero where it is free, and says whether it was free and not zero.
fn scrub_bytes(slot: &mut Slot) -> bool
    ensures scrubbed { slot.new ≡ scrubbed_block slot.old }
    ensures found { result ≡ is_unclean slot.old }
{
    if !is_unclean(slot) {
        return false;
    }
    *slot = [0; BLOCK];
    true
}

/// Slots of which those read as zero whose byte 0 is 0. Its calls are those of the slots below.
///
/// It notes how many slots from the first on were read in order and found clean: in use, or zero throughout.
#[derive(Drop)]
pub struct ScrubbedView<S: ReadSlots> {
    slots: S,
    clean: u32,
    ghost within: { clean ≤ (S.state slots).count },
    ghost noted: { IsObservable (S.state slots) → AreClean (S.state slots).slots clean },
}

impl<S: ReadSlots> ScrubbedView<S> {
    /// The view on these slots.
    pub fn new(slots: S) -> ScrubbedView<S>
        ensures { result.slots ≡ slots }
    {
        ScrubbedView { slots, clean: 0 }
    }

    /// Hands the slots below back, and how many of them from the first on are known to be clean.
    pub fn into_slots(self) -> (S, u32)
        ensures slots { result.0 ≡ self.slots }
        ensures within { result.1 ≤ (S.state self.slots).count }
        ensures clean { IsObservable (S.state self.slots)
            → AreClean (S.state self.slots).slots result.1 }
    {
        let ScrubbedView { slots, clean } = self;
        (slots, clean)
    }
}

impl<S: ReadSlots> ReadSlots for ScrubbedView<S> {
    ghost state = { λ view. scrubbed_slots (S.state view.slots) };

    ghost follows = { λ old new. S.follows old.slots new.slots };

    ghost counted = { λ view observable. scrubbed_counted (S.state view.slots)
        (S.counted view.slots observable) };

    ghost whole = { λ view observable.
        scrubbed_whole (S.state view.slots).slots (S.whole view.slots observable) };

    ghost follows_refl = { λ view. S.follows_refl view.slots };

    ghost follows_trans = { λ old mid new. S.follows_trans old.slots mid.slots new.slots };

    fn get(&mut self, at: u32, into: &mut Slot) -> Result<(), Fault> {
        self.slots.get(at, into)?;
        if !scrub_bytes(into) && at == self.clean {
            self.clean = self.clean.saturating_add(1);
        }
        Ok(())
    }
}
