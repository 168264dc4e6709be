//! What people ask of an image that is only read: the bytes of one file, and the lines of a list. Start at `read_file`
//! and `list_image`.
//!
//! The image is opened as recovery would leave it, so no right to write to it is needed, also where a crash left a
//! recovery pending. The disk below is never written. Crates that read an image in another way name the causes of a
//! failed read as this one does (`ReadFault`). This crate must not know how a host is asked, nor where the bytes of a
//! file go.
#![tactic(auto)]

mod fault;
mod file;
mod found;
mod ls;
mod store;

pub use fault::{ReadFault, ended, store_fault, taker_fault, unopened};
pub use file::{FileRead, read_file};
pub use found::FileFound;
pub use ls::{Listed, list_image};
pub use store::below;
