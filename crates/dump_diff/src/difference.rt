//! A difference between two trees.

use path_keys::{AttrName, Path};

/// Which of two trees has something.
#[derive(Clone, Copy, Debug, PartialEq, Eq)]
pub enum Side {
    /// The first alone.
    First,
    /// The second alone.
    Second,
    /// Both.
    Both,
}

/// How two trees differ at a path.
#[derive(Clone, Copy, Debug, PartialEq, Eq)]
pub enum Mark {
    /// The first tree has an entry there, and the second has none.
    Removed,
    /// The second tree has an entry there, and the first has none.
    Added,
    /// One tree has a directory there, and the other a file.
    Kind,
    /// Both have a file there, with other bytes. Their attributes may differ, too.
    Bytes,
    /// Both have a directory there, or both a file with the same bytes; their attributes differ.
    Attributes,
}

/// A path at which two trees differ.
#[derive(Clone, Copy, Debug)]
pub struct Difference {
    /// The path.
    pub path: Path,
    /// How they differ there.
    pub mark: Mark,
}

/// An attribute that differs, of a path at which both trees have a directory or both a file.
#[derive(Clone, Copy, Debug)]
pub struct AttributeDifference {
    /// The path.
    pub path: Path,
    /// The attribute's name.
    pub name: AttrName,
    /// Which tree has it; where both do, its bytes differ.
    pub side: Side,
}
