//! A picture of the slots of an image, a character a slot.
//!
//! Start at `write_map`. It shows the bytes as they stand in the table area, and not what recovery would leave. Where
//! the commit flag or a mark is set, it shows the marks too: they say for which slots the journal has new bytes. The
//! disk is only read. No call takes memory: a slot is read at a time, and its character alone is kept, in room for
//! the most slots that an image has.
#![tactic(auto)]

mod contents;
mod fault;
mod laws;
mod map;
mod picture;
mod rows;
mod table;

pub use fault::MapFault;
pub use laws::an_image_has_one_picture;
pub use map::write_map;
