//! What a fault of reading an image is to a person.

ghost use Rattle.std.specs.Prelude.{◌≡◌};
ghost use Rattle.box_calls.specs.Readings.{read_trouble};

use crate::trouble::Trouble;
use image_reads::ReadFault;

/// The trouble that a fault of reading is, where the data go to standard output.
pub fn unread(fault: ReadFault) -> Trouble
    ensures { result ≡ read_trouble fault }
{
    match fault {
        ReadFault::NotImage => Trouble::NotImage,
        ReadFault::Damaged => Trouble::Damaged,
        ReadFault::Disk => Trouble::Disk,
        ReadFault::NoMemory => Trouble::NoMemory,
        ReadFault::Changed => Trouble::Changed,
        ReadFault::Output => Trouble::Output,
    }
}
