//! The lines of what stands in an image, as a person lists them. Start at `write_entries` and `ListForm`.
//!
//! A taker keeps, of the steps of a dump, the entry that they tell of, and writes its line once it is complete. So the
//! lines come in the order of paths, and the entries are not kept. This crate must not know where the steps come from.
#![tactic(auto)]

mod entry;
mod form;
mod line;
mod lister;
mod writing;

pub use form::ListForm;
pub use writing::write_entries;
