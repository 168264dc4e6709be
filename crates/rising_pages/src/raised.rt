//! Keys that stand above level 0.

use store_base::Key;

/// A key that stands above level 0. The pages of all levels above follow from these keys alone.
#[derive(Clone, Copy, Debug)]
pub struct RaisedKey {
    /// The key.
    pub key: Key,
    /// The highest level on which it stands.
    pub level: u8,
}
