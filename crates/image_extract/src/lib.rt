//! The tree of an image, or the parts of it at some paths, made on the host. Start at `extract`.
//!
//! The image is opened as recovery would leave it, and its disk is only read: `image_reads` has what each reading of an
//! image shares. What stands at the paths is looked up before anything is made (`lookup`), and then the steps of the
//! tree's dump go to a builder (`making`). This crate must not know how the host is asked.
#![tactic(auto)]

mod fault;
mod laws;
mod lookup;
mod making;

pub use fault::ExtractFault;
pub use laws::{no_paths_and_the_root_ask_for_all, times_that_no_path_has_change_nothing};
pub use making::{Extracted, extract};
