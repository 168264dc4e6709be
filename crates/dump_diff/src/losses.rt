//! Which differences count where only the first tree has something.

ghost use Rattle.std.specs.Prelude.{◌≡◌};
ghost use Rattle.dump_diff.specs.Gains as gains;

use path_keys::AttrName;

/// Which of the differences count in which only the first tree has something: a path, or an attribute of a path that
/// stays of its kind.
#[derive(Clone, Copy, Debug, PartialEq, Eq)]
pub struct Losses {
    /// A path.
    pub paths: bool,
    /// The attribute `mode`.
    pub mode: bool,
    /// The attribute `mtime`.
    pub mtime: bool,
    /// The attribute `link`.
    pub link: bool,
    /// Any other attribute.
    pub others: bool,
}

impl Losses {
    /// Whether an attribute of this name counts.
    pub fn takes(&self, name: &AttrName) -> bool
        ensures { result ≡ gains.takes self.now name.now }
    {
        let name = name.as_bytes();
        if name == b"mode".as_slice() {
            self.mode
        } else if name == b"mtime".as_slice() {
            self.mtime
        } else if name == b"link".as_slice() {
            self.link
        } else {
            self.others
        }
    }
}
