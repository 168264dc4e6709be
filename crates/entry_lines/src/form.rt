//! What is listed of a path, and how.

use box_words::Spelling;

/// What is listed of a path, and how.
#[derive(Clone, Copy, Debug, PartialEq, Eq)]
pub struct ListForm {
    /// All below a folder is listed, with paths relative to it; else its children alone.
    pub is_below: bool,
    /// Before a name stand its kind, size and time, and behind that of a link where it leads.
    pub is_long: bool,
    /// A line ends by a zero byte; else by a line feed.
    pub is_zero: bool,
    /// Control bytes are shown as `\x1B`, as on a terminal.
    pub is_visible: bool,
    /// How names are spelled.
    pub spelling: Spelling,
}
