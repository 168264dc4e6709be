//! Slots, counted round from a first one.

ghost use Rattle.std.specs.Prelude.{◌≡◌, ◌<◌};
ghost use Rattle.store_model.specs.Placement.{probe};

/// All slots, from a first one on: behind the last slot comes slot 0, and the one before the first is the last to come.
/// A place is the number of a slot in it, from 0.
#[derive(Clone, Copy)]
pub(crate) struct Round {
    /// The slot at place 0.
    pub(crate) first: u32,
    /// How many slots there are.
    pub(crate) count: u32,
    pub(crate) ghost first_in_range: { first < count },
}

impl Round {
    ghost use Rattle.table_walk.specs.Rounds.{slot_at};

    /// The slot at a place.
    pub(crate) fn slot(&self, place: u32) -> u32
        requires { place < self.now.count }
        ensures value { result ≡ slot_at self.now place }
        ensures below { result < self.now.count }
    {
        let left = self.count - self.first;
        if place < left {
            self.first + place
        } else {
            place - left
        }
    }
}

/// How many slots of a probe sequence lie before slot `at`, where it starts at `start`.
pub(crate) fn way_between(start: u32, at: u32, count: u32) -> u32
    requires start { start < count }
    requires at { at < count }
    ensures value { probe count start result ≡ at }
    ensures below { result < count }
{
    if start <= at {
        at - start
    } else {
        count - (start - at)
    }
}
