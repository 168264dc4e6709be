//! How a name of a folder of the host travels as a name of a path, and the paths of both sides. Start at `escape` and
//! `host_path`.
#![tactic(auto)]

mod host_paths;
mod image_paths;
mod laws;
mod spelling;
mod telling;

pub use host_paths::{HostPathFault, has_host_text, host_path, host_text};
pub use image_paths::{ImagePathFault, image_path};
pub use laws::{escaped_names_are_names, names_have_their_own_spelling, short_spellings_are_paths};
pub use spelling::{MAX_NAME, escape};
pub use telling::unescape;
