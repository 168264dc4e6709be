//! The way round the slots.

ghost use Rattle.std.specs.Prelude.{◌≡◌, ◌+◌, ◌%◌, ◌<◌};

/// The slot behind this one, of so many slots: behind the last one comes the first.
pub fn next_slot(at: u32, slots: u32) -> u32
    requires { at < slots }
    ensures value { result ≡ (at + 1) % slots }
    ensures below { result < slots }
{
    if at + 1 == slots { 0 } else { at + 1 }
}
