//! Files and folders from anywhere on the host, as one folder.

ghost use Rattle.std.specs.Prelude.{◌≡◌, ◌≤◌, [], false, length, IfOk, IsTrue};
ghost use Rattle.host_builder.specs.HostAttributes.{is_target};

use crate::folder::{StdFolder, counted, has_room};
use crate::left_out::LeftOut;
use crate::report::{Reporter, Thing};
use host_folders::{Folder, FolderFault, Found, LinkTarget};
use path_keys::Path;
use store_base::NoMemory;

/// A file, a folder or a link of the host.
#[derive(Drop)]
struct Source {
    /// Its path in the folder that holds all.
    at: Path,
    /// Its path on the host.
    host: String,
}

/// Files, folders and links from anywhere on the host, as one folder, which holds each under a name; or one folder of
/// the host alone, as it is. What is reported is named by its path on the host. A link is not followed, unless its path
/// ends with a slash.
#[derive(Drop)]
pub struct Sources<R: Reporter> {
    /// What reads them: the source that it is at, of which the path there is the root.
    folder: StdFolder<R>,
    sources: Vec<Source>,
    /// How many calls failed.
    faults: u64,
}

/// The path up to its first name; the root for itself.
fn first_part(path: &Path) -> Path {
    let mut part = *path;
    for _ in 0..Path::MAX_LEN {
        match part.parent() {
            Some(parent) if !parent.is_root() => part = parent,
            _ => return part,
        }
    }
    part
}

/// The path after a move of `old` to `new`; nothing where it does not lie there, or would be too long.
fn moved(path: &Path, old: &Path, new: &Path) -> Option<Path> {
    if path == old {
        return Some(*new);
    }
    if path.is_inside(old) {
        path.replant(old, new)
    } else {
        None
    }
}

impl<R: Reporter + Drop> Sources<R> {
    /// A folder in which nothing stands yet. The other one reads what will.
    pub fn new(folder: StdFolder<R>) -> Self {
        let mut folder = folder;
        folder.name_by_host();
        Sources {
            sources: Vec::new(folder.alloc()),
            folder,
            faults: 0,
        }
    }

    /// Adds what stands at a path of the host. It will stand at a path of one name; or at the root, where it is a
    /// folder, and nothing else is added.
    /// `NoMemory`: it is not added.
    pub fn add(&mut self, at: Path, host: String) -> Result<(), NoMemory> {
        match self.sources.push(Source { at, host }) {
            Ok(()) => Ok(()),
            Err(_) => Err(NoMemory),
        }
    }

    /// Says that what stands at a path of the host is left out, since its name is too long, and counts it.
    pub fn leave_out(&mut self, host: &str) {
        self.folder.leave_out_long(&Thing::Host(host));
    }

    /// All was added. Answers the path of two sources, if some have one.
    pub fn begin(&mut self) -> Option<Path> {
        self.sources.sort_unstable_by_key(|source| source.at);
        for pair in self.sources.windows(2) {
            if let [first, second] = pair
                && first.at == second.at
            {
                return Some(first.at);
            }
        }
        None
    }

    /// How much was left out so far, as of a `StdFolder`.
    pub fn left_out(&self) -> u64 {
        self.folder.left_out()
    }

    /// Goes to the source of a path. Answers where that stands in it, and where it stands itself.
    fn go_to(&mut self, path: &Path) -> Result<(Path, Path), FolderFault> {
        let first = first_part(path);
        let index = self
            .sources
            .binary_search_by_key(&first, |source| source.at)
            .unwrap_or(0);
        let Some(source) = self.sources.get(index) else {
            return Err(FolderFault::Unreadable);
        };
        let Some(there) = moved(path, &source.at, &Path::root()) else {
            return Err(FolderFault::Unreadable);
        };
        if self.folder.enter(source.host.as_str()).is_err() {
            return Err(FolderFault::NoMemory);
        }
        Ok((there, source.at))
    }

    /// Adds what was found in a source that stands at a path.
    fn take(
        &mut self,
        part: &[Found],
        at: &Path,
        found: &mut Vec<Found>,
    ) -> Result<(), FolderFault> {
        for one in part {
            let Some(path) = moved(&one.path, &Path::root(), at) else {
                self.folder.leave_out(&one.path, LeftOut::TooLong);
                continue;
            };
            let here = Found { path, ..*one };
            if !has_room(&here) {
                self.folder.leave_out(&one.path, LeftOut::NoRoom);
            } else if found.push(here).is_err() {
                return Err(FolderFault::NoMemory);
            }
        }
        Ok(())
    }

    /// Adds what stands in the folder at a path of a source.
    fn list_in(&mut self, path: &Path, found: &mut Vec<Found>) -> Result<(), FolderFault> {
        let (there, at) = self.go_to(path)?;
        let mut part = Vec::new(self.folder.alloc());
        self.folder.list_folder(&there, &mut part)?;
        self.take(part.as_slice(), &at, found)
    }

    /// Adds the source that stands at a path, or what stands in it where that is the root.
    fn list_one(&mut self, at: &Path, found: &mut Vec<Found>) -> Result<(), FolderFault> {
        if at.is_root() {
            return self.list_in(at, found);
        }
        let (there, _) = self.go_to(at)?;
        let mut part = Vec::new(self.folder.alloc());
        self.folder.find(&there, &mut part)?;
        self.take(part.as_slice(), at, found)
    }

    /// Adds all sources.
    fn list_all(&mut self, found: &mut Vec<Found>) -> Result<(), FolderFault> {
        for index in 0..self.sources.len() {
            if let Some(at) = self.sources.get(index).map(|source| source.at) {
                self.list_one(&at, found)?;
            }
        }
        Ok(())
    }

    /// Adds what stands in a folder.
    fn list_here(&mut self, path: &Path, found: &mut Vec<Found>) -> Result<(), FolderFault> {
        if path.is_root() {
            self.list_all(found)
        } else {
            self.list_in(path, found)
        }
    }

    /// Opens a file.
    fn open_here(&mut self, path: &Path) -> Result<u32, FolderFault> {
        let (there, _) = self.go_to(path)?;
        self.folder.open_file(&there)
    }

    /// Where a link leads.
    fn ask_here(&mut self, path: &Path) -> Result<LinkTarget, FolderFault>
        ensures { IfOk result (λ target. IsTrue (is_target target)) }
    {
        let (there, _) = self.go_to(path)?;
        self.folder.ask(&there)
    }
}

impl<R: Reporter + Drop> Folder for Sources<R> {
    ghost state = { λ sources. record {
      is_observable = false;
      listed = [];
      read = [];
      targets = [];
      faults = sources.faults;
    } };

    fn list(&mut self, path: &Path, found: &mut Vec<Found>) -> Result<(), FolderFault> {
        let faults = self.faults;
        let answer = self.list_here(path, found);
        self.faults = counted(faults, &answer);
        answer
    }

    fn open(&mut self, path: &Path) -> Result<u32, FolderFault> {
        let faults = self.faults;
        let answer = self.open_here(path);
        self.faults = counted(faults, &answer);
        answer
    }

    fn read(&mut self, into: &mut [u8]) -> Result<usize, FolderFault> {
        let faults = self.faults;
        let answer = self.folder.read_on(into);
        self.faults = counted(faults, &answer);
        answer
    }

    fn target(&mut self, path: &Path) -> Result<LinkTarget, FolderFault> {
        let faults = self.faults;
        let answer = self.ask_here(path);
        self.faults = counted(faults, &answer);
        answer
    }
}
