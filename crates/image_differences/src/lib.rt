//! How an image differs from another, and from a folder of the host, and what leads from an image to what a folder
//! holds. Start at `compare_images`, `compare_folder` and `plan_folder`.
//!
//! Each is one walk over two streams of steps, so that neither tree is held in memory. Images are opened as recovery
//! would leave them, and their disks are never written. This crate must not know how differences are shown, nor how a
//! host is asked.
#![tactic(auto)]

mod folders;
mod images;
mod planning;
mod timing;

pub use folders::{FolderCompareFault, FolderCompared, FolderReadFault, compare_folder};
pub use images::{ImageDifferences, ImagesCompared, ImagesFault, compare_images};
pub use planning::{FolderPlanFault, FolderPlanned, plan_folder};
pub use timing::Times;
