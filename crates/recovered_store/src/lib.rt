//! A store that only reads, over the image that recovery would leave of a disk, which is never written. Start at
//! `attach_recovered`.
//!
//! So an image is opened without the right to write to it, also where a crash left a recovery pending. A command that
//! changes something fails on it. What the store stands on is `SlotsDisk`, the slots of a table as the disk of an image
//! that can only be read: it knows where the areas of an image lie, and never looks at what slots hold.
#![tactic(auto)]

mod attach;
mod below;
mod disk;
mod recovered;

pub use attach::attach_recovered;
pub use below::{DiskSlots, into_below};
pub use disk::SlotsDisk;
pub use recovered::{ViewFault, open_recovered, recovered_disk};
