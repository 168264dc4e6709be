//! The entries of an index.

ghost use Rattle.std.specs.Prelude.{◌≡◌};
ghost use Rattle.table_walk.specs.Indexes.{entry_of, IsSortOf};

/// Where a page lies, under the digest of its label.
#[derive(Clone, Copy, Debug)]
pub struct Entry {
    /// The digest of the page's label.
    pub(crate) digest: u64,
    /// The slot of the page.
    pub(crate) slot: u32,
}

impl Entry {
    /// An entry that stands for no page, to fill an array with.
    pub const BLANK: Entry = Entry { digest: 0, slot: 0 };

    /// The entry of a page in slot `at` whose label has this digest.
    pub fn new(digest: u64, at: u32) -> Entry
        ensures { result ≡ entry_of digest at }
    {
        Entry { digest, slot: at }
    }
}

/// Sorts entries by their digests, as an index has them.
pub fn sort_entries(entries: &mut [Entry])
    ensures { IsSortOf entries.old entries.new }
{
    entries.sort_unstable_by_key(|entry| entry.digest);
}
