//! What the steps of a dump tell of an entry.

ghost use Rattle.std.specs.Prelude.{◌≡◌, None, Some, MatchOption};
ghost use Rattle.entry_lines.specs.Entries.{bare_facts, with_attribute, link_to};

use host_builder::{HostAttribute, attribute_in};
use path_keys::{AttrName, Path};
use store_base::Bytes;

/// What stands at a path.
#[derive(Clone, Copy, Debug, PartialEq, Eq)]
pub(crate) enum EntryKind {
    /// A folder.
    Folder,
    /// A file of so many bytes.
    File(u64),
}

/// What is told of an entry.
#[derive(Debug, Drop)]
pub(crate) struct EntryFacts {
    /// The path.
    pub path: Path,
    /// What stands there.
    pub kind: EntryKind,
    /// Whether an attribute says that it may be executed.
    pub is_executable: bool,
    /// The seconds since 1970 that an attribute says, if one does.
    pub seconds: Option<u64>,
    /// Where a link would lead that stands there, if an attribute says it.
    pub target: Option<Bytes>,
}

impl EntryFacts {
    /// The facts of a path that has no attribute.
    pub fn new(path: Path, kind: EntryKind) -> Self
        ensures { result ≡ bare_facts path kind }
    {
        EntryFacts {
            path,
            kind,
            is_executable: false,
            seconds: None,
            target: None,
        }
    }

    /// Notes an attribute that the path has.
    pub fn note(&mut self, name: &AttrName, bytes: &Bytes)
        ensures { self.new ≡ with_attribute self.old name.now bytes.now }
    {
        match attribute_in(name.as_bytes(), bytes.as_slice()) {
            Some(HostAttribute::Executes) => self.is_executable = true,
            Some(HostAttribute::Time(seconds)) => self.seconds = Some(seconds),
            Some(HostAttribute::Link) => self.target = Some(Bytes::new(bytes.as_slice())),
            None => {}
        }
    }

    /// Where the link leads that stands there, if one does: an empty file whose attribute says it.
    pub fn link(&self) -> Option<&Bytes>
        ensures { MatchOption result (link_to self.now ≡ None)
            (λ target. link_to self.now ≡ Some target.now) }
    {
        match self.kind {
            EntryKind::File(0) => self.target.as_ref(),
            _ => None,
        }
    }
}
