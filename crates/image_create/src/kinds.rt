//! How much was found.

ghost use Rattle.std.specs.Prelude.{◌≡◌, ◌∷◌, ◌++◌, [], List};
ghost use Rattle.host_folders.specs.declared.found.Found as declared;

use host_folders::{Found, FoundKind};

/// How many entries of each kind were found, and how many bytes the files had.
#[derive(Clone, Copy, Debug)]
pub(crate) struct Kinds {
    pub(crate) folders: u32,
    pub(crate) files: u32,
    pub(crate) links: u32,
    pub(crate) bytes: u64,
}

impl Kinds {
    ghost use Rattle.image_create.specs.Counts.{CountsKinds};

    /// Counts what was found. Each number stays at the last value of its type.
    pub(crate) fn of(found: &[Found]) -> Self
        ensures { CountsKinds found.now result }
    {
        let mut kinds = Kinds {
            folders: 0,
            files: 0,
            links: 0,
            bytes: 0,
        };
        for entry in found {
            kinds.add(entry.kind);
        }
        kinds
    }

    /// Counts one more.
    fn add(&mut self, kind: FoundKind)
        ensures { (found : List declared.Found) (entry : declared.Found) → entry.kind ≡ kind
            → CountsKinds found self.old → CountsKinds (found ++ entry ∷ []) self.new }
    {
        match kind {
            FoundKind::Folder => self.folders = self.folders.saturating_add(1),
            FoundKind::File(len) => {
                self.files = self.files.saturating_add(1);
                self.bytes = self.bytes.saturating_add(u64::from(len));
            }
            FoundKind::Link => self.links = self.links.saturating_add(1),
        }
    }
}
