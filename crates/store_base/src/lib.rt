//! The types that all layers share. Start at `Params`, what an image is made with, and `Label`, the name of a page.
//! No type here knows a disk, a table or a tree.
//!
//! There are faults, byte strings and the entries of a directory; keys and the labels that name pages; the parameters
//! of an image, its header and where its areas lie; and the traits of the slots that a table is made of, with a free
//! slot's zeros. Only `Entries` and `AttrEntries` take memory.
#![tactic(auto)]

mod areas;
mod attr_entries;
mod entries;
mod fault;
mod header;
mod key;
mod label;
mod order;
mod params;
mod slots;
mod store_fault;
mod value;
mod zeros;

pub use areas::{areas_fill_the_image, gate_at, image_len, mark_at, shadow_at, table_at};
pub use attr_entries::AttrEntries;
pub use entries::Entries;
pub use fault::{DiskFault, NoMemory};
pub use header::{read_header, version_at, version_byte, write_header};
pub use key::Key;
pub use label::{Label, Lead};
pub use order::byte_order;
pub use params::{BadParams, Params};
pub use slots::{READ_LEN, ReadSlots, Slots};
pub use store_fault::Fault;
pub use store_model::{BLOCK, DrawKind, Refusal, Slot, Version};
pub use value::{Bytes, Value};
pub use zeros::{ZEROS, are_zero, is_zero};

/// What a call on a tree answers where no fault came: a value, or why the command is refused.
pub type Answer<T> = Result<T, Refusal>;

/// The most slots that a table has.
pub const MAX_SLOTS: u32 = 65_536;

/// The most levels that a list has.
pub const MAX_HEIGHT: u8 = 8;

/// The byte that an image begins with.
pub const FIRST_BYTE: u8 = 0x48;
