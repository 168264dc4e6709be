//! The words of the command line behind the image's path, read by `clap`, and what they ask for. Start at `Words`.
#![tactic(auto)]

mod image_file;
pub mod laws;
mod line;
mod line_read;
mod pair;
mod request;
mod words;

pub use image_file::{Access, FileRequest, Wanted, wanted_file, wanted_len};
pub use line::{MAX_COMMANDS, command};
pub use pair::pair_words;
pub use request::Request;
pub use words::Words;
