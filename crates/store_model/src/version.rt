//! The versions of the format.

/// How the files of a tree stand in its pairs.
#[derive(Clone, Copy, Debug, PartialEq, Eq)]
pub enum Version {
    /// The first pair of a file has its length, and the pairs behind it have its bytes.
    One,
    /// The same of a file of more than 200 bytes. A shorter one has one pair, and its bytes stand in it.
    Two,
}
