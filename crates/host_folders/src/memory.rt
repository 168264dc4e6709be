//! A folder in memory, some of whose calls fail on purpose. It tells its answers.

ghost use Rattle.std.specs.Prelude.{◌≡◌, ◌↔◌, ◌⊎◌, ◌+◌, ◌^◌, ◌<◌, ◌≤◌, ◌++◌, [], None, option_map, Contains, IfOk};
ghost use Rattle.std.specs.Prelude.{IfErr, IsErr, IfSome, IsNone, Some, drop, IsTrue, OnErr, OnOk, length, min, max};
ghost use Rattle.std.specs.Prelude.{true};
ghost use Rattle.store_base.specs.Counts.{raised};
ghost use Rattle.host_folders.specs.Faults.{faults_after};
ghost use Rattle.host_folders.specs.FolderState.{IsListed, IsOpened, IsFileRead, IsAsked};
ghost use Rattle.host_folders.specs.FolderState as states;
ghost use Rattle.host_folders.specs.FoundEntries.{is_file, is_link};
ghost use Rattle.host_folders.specs.declared.fault.FolderFault.TheVariants as faults;
ghost use Rattle.host_folders.specs.Memory.{HasSameEntries, IsRefused, IsOpenAt, ReadsLeft, bytes_at, children_of};
ghost use Rattle.host_folders.specs.Memory.{file_bytes, folder_state, is_child, is_file_at, is_link_at, lacks_target};
ghost use Rattle.host_folders.specs.Memory.{left_of, length_told, link_bytes, told_of, IsLinkAt};

use crate::fault::FolderFault;
use crate::folder::Folder;
use crate::found::{Found, FoundKind};
use crate::target::LinkTarget;
use path_keys::Path;

/// What stands at a path of a folder in memory.
#[derive(Drop)]
pub struct MemEntry {
    /// What the folder tells of it. The parents of its path need not stand there too.
    pub found: Found,
    /// The bytes that a file gives when it is read, as many as it was found to have or not, and those of the target of
    /// a link; none for a folder.
    pub bytes: Vec<u8>,
}

/// A folder that was listed, and what it told.
#[derive(Drop)]
struct Listing {
    path: Path,
    found: Vec<Found>,
}

/// A file that was opened.
#[derive(Clone, Copy)]
struct Reading {
    path: Path,
    /// Which of the entries it is.
    entry: usize,
    /// How many of its bytes came.
    at: usize,
    /// Whether its last answer was that no more come.
    is_ended: bool,
}

/// A link that was asked where it leads.
#[derive(Clone, Copy)]
struct Asked {
    path: Path,
    /// Which of the entries it is.
    entry: usize,
}

/// A folder in memory. It tells its answers.
#[derive(Drop)]
pub struct MemFolder {
    entries: Vec<MemEntry>,
    piece: usize,
    /// How many bytes each file is told to have where it is not the truth.
    told: Option<u32>,
    failing: Vec<u64>,
    calls: u64,
    listed: Vec<Listing>,
    /// The files that were read before the one that is open.
    closed: Vec<Reading>,
    /// The file that is open.
    file: Option<Reading>,
    asked: Vec<Asked>,
    /// How many calls failed.
    faults: u64,
}

impl MemFolder {
    /// A folder that has these entries. A read gives at most `piece` bytes, though at least 1 where one is left. Its
    /// calls are numbered from 0, and those fail whose numbers stand in `failing`. Another call fails only where
    /// memory runs out, where what is opened is no file, where no file is open, or where what is asked is no link with
    /// a target.
    pub fn new(entries: Vec<MemEntry>, piece: usize, failing: Vec<u64>) -> Self
        ensures { folder_state result
            ≡ record { is_observable = true; listed = []; read = []; targets = []; faults = 0 } }
    {
        let alloc = *entries.allocator();
        MemFolder {
            entries,
            piece,
            told: None,
            failing,
            calls: 0,
            listed: Vec::new(alloc),
            closed: Vec::new(alloc),
            file: None,
            asked: Vec::new(alloc),
            faults: 0,
        }
    }

    /// From now on each file is told to have so many bytes when it is opened, however many it gives.
    pub fn tell(&mut self, bytes: u32)
        ensures { self.new ≡ record self.old { told = Some bytes } }
    {
        self.told = Some(bytes);
    }

    /// Counts a call that fails.
    fn refuse(&mut self) -> FolderFault
        ensures fault { result ≡ faults.Unreadable }
        ensures counted { self.new ≡ record self.old { faults = raised self.old.faults } }
    {
        self.faults = self.faults.saturating_add(1);
        FolderFault::Unreadable
    }

    /// Counts a call, and fails where it is to fail.
    fn count_call(&mut self) -> Result<(), FolderFault>
        ensures fails { IsErr result ↔ Contains self.old.failing.items self.old.calls }
        ensures fault { IfErr result (λ fault. fault ≡ faults.Unreadable) }
        ensures counted { self.new ≡ record self.old {
          calls = raised self.old.calls;
          faults = faults_after self.old.faults result;
        } }
    {
        let fails = self.failing.contains(&self.calls);
        self.calls = self.calls.saturating_add(1);
        if fails {
            return Err(self.refuse());
        }
        Ok(())
    }

    /// What stands right below a path.
    fn below(&self, path: &Path) -> Result<Vec<Found>, FolderFault>
        ensures found { IfOk result
            (λ found. found.items ≡ told_of self.now.entries.items path.now) }
        ensures fault { IfErr result (λ fault. fault ≡ faults.NoMemory) }
    {
        let mut found = Vec::new(*self.entries.allocator());
        for entry in &self.entries {
            if is_right_below(&entry.found.path, path) && found.push(entry.found).is_err() {
                return Err(FolderFault::NoMemory);
            }
        }
        Ok(found)
    }

    /// The bytes of an entry behind the first ones.
    fn left(&self, entry: usize, at: usize) -> &[u8]
        ensures value { result.now ≡ drop at (bytes_at self.now.entries.items entry) }
        ensures fits { at + length result.now < 2 ^ 64 }
    {
        match self.entries.get(entry) {
            Some(entry) if at <= entry.bytes.len() => &entry.bytes[at..],
            _ => &[],
        }
    }

    /// How many bytes an entry is told to have when it is opened.
    fn told_of_file(&self, entry: usize) -> u32
        ensures { result ≡ length_told self.now.told (bytes_at self.now.entries.items entry) }
    {
        match self.told {
            Some(told) => told,
            None => u32::try_from(self.left(entry, 0).len()).unwrap_or(u32::MAX),
        }
    }

    /// Which of the entries is the first file at a path.
    fn place_of_file(&self, path: &Path) -> Option<usize>
        ensures { option_map (bytes_at self.now.entries.items) result
            ≡ file_bytes self.now.entries.items path.now }
    {
        for (place, entry) in self.entries.iter().enumerate() {
            if is_file_at(entry, path) {
                return Some(place);
            }
        }
        None
    }

    /// Which of the entries is the first link at a path.
    fn place_of_link(&self, path: &Path) -> Option<usize>
        ensures { option_map (bytes_at self.now.entries.items) result
            ≡ link_bytes self.now.entries.items path.now }
    {
        for (place, entry) in self.entries.iter().enumerate() {
            if is_link_at(entry, path) {
                return Some(place);
            }
        }
        None
    }

    /// The target of the first link at a path, and which of the entries that is.
    fn link_at(&self, path: &Path) -> Option<(usize, LinkTarget)>
        ensures some { IfSome result (λ link. IsLinkAt self.now.entries.items path.now link.0 link.1) }
        ensures none { IsNone result ↔ IsTrue (lacks_target (link_bytes self.now.entries.items path.now)) }
    {
        let entry = self.place_of_link(path)?;
        let target = LinkTarget::parse(self.left(entry, 0)).ok()?;
        Some((entry, target))
    }
}

impl Folder for MemFolder {
    ghost state = { folder_state };

    /// Tells the entries whose parent the path is, in their order.
    fn list(&mut self, path: &Path, found: &mut Vec<Found>) -> Result<(), FolderFault>
        ensures contract { IsListed (folder_state self.old)
            (folder_state self.new) path.now found.old.items found.new.items result }
        ensures same { HasSameEntries self.old self.new }
        ensures fails { Contains self.old.failing.items self.old.calls → IsErr result }
        ensures fault { IfErr result (λ fault. fault ≡ faults.NoMemory
            ⊎ Contains self.old.failing.items self.old.calls) }
        ensures told { OnOk result
            (found.new.items ≡ found.old.items ++ children_of self.old path.now) }
    {
        self.count_call()?;
        let told = self.below(path)?;
        if found.extend_from_slice(&told).is_err() {
            return Err(FolderFault::NoMemory);
        }
        let listing = Listing {
            path: *path,
            found: told,
        };
        if self.listed.push(listing).is_err() {
            return Err(FolderFault::NoMemory);
        }
        Ok(())
    }

    /// Opens the first entry that is a file at the path, and tells how many bytes it has, up to 4,294,967,295, but for
    /// where it is to tell another number.
    /// `Unreadable`: the call is to fail, or there is none. After an error the file that was open stays open.
    fn open(&mut self, path: &Path) -> Result<u32, FolderFault>
        ensures contract { IsOpened (folder_state self.old)
            (folder_state self.new) path.now result }
        ensures same { HasSameEntries self.old self.new }
        ensures opened { IfOk result (IsOpenAt self.new path.now) }
        ensures unchanged { OnErr result (left_of self.new ≡ left_of self.old) }
        ensures fails { IsRefused self.old (file_bytes self.old.entries.items path.now ≡ None)
            → IsErr result }
        ensures fault { IfErr result (λ fault. fault ≡ faults.NoMemory
            ⊎ IsRefused self.old (file_bytes self.old.entries.items path.now ≡ None)) }
    {
        self.count_call()?;
        let Some(entry) = self.place_of_file(path) else {
            return Err(self.refuse());
        };
        if let Some(file) = self.file
            && self.closed.push(file).is_err()
        {
            return Err(FolderFault::NoMemory);
        }
        self.file = Some(Reading {
            path: *path,
            entry,
            at: 0,
            is_ended: false,
        });
        Ok(self.told_of_file(entry))
    }

    /// Reads as many bytes as the buffer has room for, as the file has left, and as a read gives at most.
    /// `Unreadable`: the call is to fail, or no file is open. After it the next read gives the same bytes.
    fn read(&mut self, into: &mut [u8]) -> Result<usize, FolderFault>
        ensures contract { IsFileRead (folder_state self.old)
            (folder_state self.new) into.new result }
        ensures same { HasSameEntries self.old self.new }
        ensures left { IfOk result (ReadsLeft self.old self.new into.new) }
        ensures unchanged { OnErr result (left_of self.new ≡ left_of self.old) }
        ensures fails { IsRefused self.old (left_of self.old ≡ None) ↔ IsErr result }
    {
        self.count_call()?;
        let Some(file) = self.file else {
            return Err(self.refuse());
        };
        let Reading {
            path,
            entry,
            at,
            is_ended: _,
        } = file;
        let left = self.left(entry, at);
        let count = into.len().min(self.piece.max(1)).min(left.len());
        into[..count].copy_from_slice(&left[..count]);
        self.file = Some(Reading {
            path,
            entry,
            at: at + count,
            is_ended: tells_end(count, into.len()),
        });
        Ok(count)
    }

    /// Answers where the first entry leads that is a link at the path.
    /// `Unreadable`: the call is to fail, or there is none, or its bytes are no target.
    fn target(&mut self, path: &Path) -> Result<LinkTarget, FolderFault>
        ensures contract { IsAsked (folder_state self.old) (folder_state self.new) path.now result }
        ensures same { HasSameEntries self.old self.new }
        ensures unchanged { left_of self.new ≡ left_of self.old }
        ensures told { IfOk result (λ target. link_bytes self.old.entries.items path.now ≡ Some target) }
        ensures fails { IsRefused self.old (IsTrue (lacks_target (link_bytes self.old.entries.items path.now)))
            → IsErr result }
        ensures fault { IfErr result (λ fault. fault ≡ faults.NoMemory
            ⊎ IsRefused self.old (IsTrue (lacks_target (link_bytes self.old.entries.items path.now)))) }
    {
        self.count_call()?;
        let Some((entry, target)) = self.link_at(path) else {
            return Err(self.refuse());
        };
        let asked = Asked { path: *path, entry };
        if self.asked.push(asked).is_err() {
            return Err(FolderFault::NoMemory);
        }
        Ok(target)
    }
}

/// Whether an entry is a file at a path.
fn is_file_at(entry: &MemEntry, path: &Path) -> bool
    ensures { result ≡ is_file_at path.now entry.now }
{
    entry.found.path == *path && is_file(entry.found.kind)
}

/// Whether an entry is a link at a path.
fn is_link_at(entry: &MemEntry, path: &Path) -> bool
    ensures { result ≡ is_link_at path.now entry.now }
{
    entry.found.path == *path && is_link(entry.found.kind)
}

/// Whether it is a file.
fn is_file(kind: FoundKind) -> bool
    ensures { result ≡ is_file kind }
{
    matches!(kind, FoundKind::File(_))
}

/// Whether it is a link.
fn is_link(kind: FoundKind) -> bool
    ensures { result ≡ is_link kind }
{
    matches!(kind, FoundKind::Link)
}

/// Whether a path lies right below the other.
fn is_right_below(path: &Path, folder: &Path) -> bool
    ensures { result ≡ is_child path.now folder.now }
{
    match path.parent() {
        Some(parent) => parent == *folder,
        None => false,
    }
}

/// Whether so many bytes for a buffer of this length tell that no more come.
fn tells_end(count: usize, room: usize) -> bool
    ensures { result ≡ states.tells_end count room }
{
    count < 1 && room > 0
}
