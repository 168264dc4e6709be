//! Folders of the host, as trees: what a folder tells, and the steps of the dump of the tree that its answers
//! give. Start at `Folder` and `pack_folder`.
//!
//! `find_all` lists folder after folder, and `FolderStream` reads each file once, piece after piece, and asks each link
//! once where it leads. So no file and no target is held in memory, but the paths of all that stands in the folder are.
#![tactic(auto)]

mod attribute;
mod fault;
mod folder;
mod found;
mod memory;
mod packing;
mod pieces;
mod stream;
mod target;
mod walk;

pub use attribute::Attribute;
pub use fault::{FindFault, FolderFault};
pub use folder::Folder;
pub use found::{Found, FoundKind};
pub use memory::{MemEntry, MemFolder};
pub use packing::pack_folder;
pub use stream::FolderStream;
pub use target::{LinkTarget, NoTarget};
pub use walk::{MAX_FOUND, find_all};
