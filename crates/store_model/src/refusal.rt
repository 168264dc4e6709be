//! Why a command is refused.

/// The reason for which a line of a script is refused. A refused command changes nothing.
#[derive(Clone, Copy, Debug, PartialEq, Eq)]
pub enum Refusal {
    /// The line has more than 8,192 bytes.
    Long,
    /// The line is not in the grammar.
    Syntax,
    /// The field of a path would pass 120 bytes. In a rename this goes for each path and attribute of the moved
    /// subtree too, and where an attribute is set for the attribute too.
    Path,
    /// The root may not stand here.
    Root,
    /// The path's parent is neither the root nor a directory.
    Parent,
    /// There is a file or directory at the path already.
    Exists,
    /// There is nothing at the path.
    Missing,
    /// The target lies strictly below the source.
    Inside,
    /// A directory stands where a file is wanted, or the other way round.
    Kind,
    /// The place or length is greater than the file's length.
    Gap,
    /// The file would pass 16,777,216 bytes, a read asks for more than 4,096, or an attribute would pass 255.
    Big,
    /// The directory has a child.
    NotEmpty,
    /// The image has version 1 of the format, which has no attributes.
    Version,
    /// The path has no attribute of this name.
    NoAttr,
    /// The new tree's pages, `need`, are more than the table's `slots`.
    Full {
        /// The number of pages of the new tree.
        need: u32,
        /// The number of slots of the table.
        slots: u32,
    },
}
