//! A folder of the host that is packed.

ghost use Rattle.std.specs.Prelude.{◌≡◌, ◌≤◌, [], false, length, IfOk, IsTrue};
ghost use Rattle.host_builder.specs.HostAttributes.{is_target};
ghost use Rattle.host_folders.specs.Faults.{faults_after};

use crate::left_out::LeftOut;
use crate::opened::open_plain;
use crate::own::FileId;
use crate::reading::Reading;
use crate::report::{Remark, Reporter, Thing};
use crate::target::read_target;
use host_builder::{Links, Wanted};
use host_folders::{Folder, FolderFault, Found, FoundKind, LinkTarget};
use host_names::{HostPathFault, host_text, image_path};
use path_keys::{AttrName, Path, attr_key};
use std::alloc::Global;
use std::fs::{self, DirEntry, Metadata, ReadDir};
use std::io::{self, Error, ErrorKind};
use std::os::unix::fs::MetadataExt;
use store_base::NoMemory;
use tree_pairs::FILE_LIMIT;

/// The bit of a file's mode that lets its owner execute it.
const OWNER_EXECUTES: u32 = 0o100;

/// A folder of the host, to be packed. What has no place in an image is left out, reported and
/// counted.
///
/// The folder may itself be a link to one; no other link is followed. Where links are wanted each other one is an entry
/// of its own, and else it is left out.
#[derive(Drop)]
pub struct StdFolder<R: Reporter> {
    rt: HostRuntime,
    /// The path of the folder on the host.
    folder: String,
    /// Whether what is reported is named by its path on the host, and not by that in the folder.
    names_host: bool,
    wanted: Wanted,
    /// Whether a time before 1970 is an obstacle. Else the entry has none.
    minds_old_times: bool,
    /// The files that the program itself works on.
    own: Vec<FileId>,
    reporter: R,
    left_out: u64,
    own_left_out: u64,
    links_left_out: u64,
    reading: Reading,
    /// The path in the image of the file that is read.
    open: Option<Path>,
    /// How many calls failed.
    faults: u64,
}

impl<R: Reporter + Drop> StdFolder<R> {
    /// The folder at a path of the host. Where `wanted` skips each file and folder is opened once when it is found, and
    /// left out where it cannot be. Links are read where they are made there. The files in `own` are left out wherever
    /// they stand: the image, and the file to which standard output leads.
    pub fn new(
        rt: HostRuntime,
        folder: String,
        wanted: Wanted,
        own: Vec<FileId>,
        reporter: R,
    ) -> Self {
        StdFolder {
            rt,
            folder,
            names_host: false,
            wanted,
            minds_old_times: true,
            own,
            reporter,
            left_out: 0,
            own_left_out: 0,
            links_left_out: 0,
            reading: Reading::new(),
            open: None,
            faults: 0,
        }
    }

    /// From now on a time before 1970, which no image can hold, is no obstacle: what has such a time has none.
    pub fn pass_over_old_times(&mut self) {
        self.minds_old_times = false;
    }

    /// Where memory comes from.
    pub(crate) fn alloc(&self) -> Global {
        self.rt.alloc()
    }

    /// From now on what is reported is named by its path on the host.
    pub(crate) fn name_by_host(&mut self) {
        self.names_host = true;
    }

    /// From now on it is the folder at another path of the host, or what else stands there: that has the root as path.
    /// `NoMemory`: nothing is to be asked of it until it is another one.
    pub(crate) fn enter(&mut self, host: &str) -> Result<(), NoMemory> {
        self.folder.clear();
        match self.folder.push_str(host) {
            Ok(()) => Ok(()),
            Err(_) => Err(NoMemory),
        }
    }

    /// How much was left out so far, a folder as one, but for the program's own files and for links that nobody wants.
    pub fn left_out(&self) -> u64 {
        self.left_out
    }

    /// How many of the program's own files were left out so far, one that has two names in the folder as two.
    pub fn own_left_out(&self) -> u64 {
        self.own_left_out
    }

    /// How many links were left out so far because they are wanted to be.
    pub fn links_left_out(&self) -> u64 {
        self.links_left_out
    }

    /// Reports what is said of what stands at a path.
    fn tell(&mut self, path: &Path, remark: Remark, error: Option<&Error>) {
        if self.names_host
            && let Ok(text) = host_text(self.rt.alloc(), self.folder.as_str(), path)
        {
            let thing = Thing::Host(text.as_str());
            return self.reporter.report(&thing, remark, error);
        }
        self.reporter.report(&Thing::Path(path), remark, error);
    }

    /// Reports what the system did not answer.
    fn report(&mut self, path: &Path, remark: Remark) {
        self.tell(path, remark, None);
    }

    /// Counts what is left out.
    fn count(&mut self) {
        self.left_out = self.left_out.saturating_add(1);
    }

    /// Says that what stands at a path is left out, and counts it.
    pub(crate) fn leave_out(&mut self, path: &Path, why: LeftOut) {
        self.report(path, Remark::NotPacked(why));
        match why {
            LeftOut::Own => self.own_left_out = self.own_left_out.saturating_add(1),
            LeftOut::Link if self.wanted.links == Links::LeftOut => {
                self.links_left_out = self.links_left_out.saturating_add(1);
            }
            _ => self.count(),
        }
    }

    /// Says that something is left out whose path would be too long, and counts it.
    pub(crate) fn leave_out_long(&mut self, thing: &Thing<'_>) {
        let remark = Remark::NotPacked(LeftOut::TooLong);
        self.reporter.report(thing, remark, None);
        self.count();
    }

    /// The same of a name in a folder.
    fn leave_out_name(&mut self, folder: &Path, entry: &DirEntry) {
        if self.names_host {
            self.leave_out_long(&Thing::Host(entry.path().as_str()));
        } else {
            self.leave_out_long(&Thing::Name(folder, entry.file_name()));
        }
    }

    /// The path on the host of a path in the folder.
    fn text(&mut self, path: &Path) -> Result<String, FolderFault> {
        match host_text(self.rt.alloc(), self.folder.as_str(), path) {
            Ok(text) => Ok(text),
            Err(HostPathFault::NoMemory) => Err(FolderFault::NoMemory),
            Err(HostPathFault::NoSpelling | HostPathFault::NotUtf8) => {
                self.report(path, Remark::NoHostPath);
                Err(FolderFault::Unreadable)
            }
        }
    }

    /// Lists a folder; what cannot be listed is left out, but for the folder that is packed itself.
    pub(crate) fn list_folder(
        &mut self,
        path: &Path,
        found: &mut Vec<Found>,
    ) -> Result<(), FolderFault> {
        let text = self.text(path)?;
        let names = match self.names(path, text.as_str()) {
            Ok(names) => names,
            Err(error) => return self.unlisted(path, &error),
        };
        for entry in names {
            match entry {
                Ok(entry) => self.add(path, &entry, found)?,
                Err(error) if error.kind() == ErrorKind::InvalidFilename => {
                    self.report(path, Remark::NotPacked(LeftOut::NotUtf8));
                    self.count();
                }
                Err(error) => self.unlisted(path, &error)?,
            }
        }
        Ok(())
    }

    /// The names in a folder. One that was found is by now no link to another one.
    fn names(&self, path: &Path, text: &str) -> io::Result<ReadDir> {
        if !path.is_root() && !fs::symlink_metadata(&self.rt, text)?.is_dir() {
            return Err(Error::from(ErrorKind::NotADirectory));
        }
        fs::read_dir(&self.rt, text)
    }

    /// What becomes of a folder that cannot be listed.
    fn unlisted(&mut self, path: &Path, error: &Error) -> Result<(), FolderFault> {
        if error.kind() == ErrorKind::OutOfMemory {
            return Err(FolderFault::NoMemory);
        }
        if path.is_root() {
            let thing = Thing::Host(self.folder.as_str());
            self.reporter
                .report(&thing, Remark::Unreadable, Some(error));
            return Err(FolderFault::Unreadable);
        }
        let remark = Remark::NotPacked(LeftOut::Unreadable);
        self.tell(path, remark, Some(error));
        self.count();
        Ok(())
    }

    /// Adds what stands at a path to what was found, or leaves it out. Where nothing can be known of it, it cannot be
    /// read.
    pub(crate) fn find(&mut self, path: &Path, found: &mut Vec<Found>) -> Result<(), FolderFault> {
        let text = self.text(path)?;
        match fs::symlink_metadata(&self.rt, text.as_str()) {
            Ok(metadata) => self.add_at(*path, text.as_str(), &metadata, found),
            Err(error) => Err(self.unread(path, &error)),
        }
    }

    /// Adds what stands at a name in a folder, or leaves it out.
    fn add(
        &mut self,
        folder: &Path,
        entry: &DirEntry,
        found: &mut Vec<Found>,
    ) -> Result<(), FolderFault> {
        let name = entry.file_name();
        let Ok(path) = image_path(folder, name.as_bytes()) else {
            self.leave_out_name(folder, entry);
            return Ok(());
        };
        let Ok(metadata) = entry.metadata() else {
            self.leave_out(&path, LeftOut::Unreadable);
            return Ok(());
        };
        self.add_at(path, entry.path().as_str(), &metadata, found)
    }

    /// Adds what stands at a path, with this one on the host, or leaves it out.
    fn add_at(
        &mut self,
        path: Path,
        text: &str,
        metadata: &Metadata,
        found: &mut Vec<Found>,
    ) -> Result<(), FolderFault> {
        if self.wanted.links == Links::Made && metadata.is_symlink() {
            return self.add_link(path, text, found);
        }
        match self.found_at(path, text, metadata) {
            Ok(one) => found.push(one).map_err(|_| FolderFault::NoMemory),
            Err(why) => {
                self.leave_out(&path, why);
                Ok(())
            }
        }
    }

    /// Adds a link, or leaves it out. Where it leads is asked again later, and not kept.
    fn add_link(
        &mut self,
        path: Path,
        text: &str,
        found: &mut Vec<Found>,
    ) -> Result<(), FolderFault> {
        match read_target(&self.rt, text) {
            Ok(Ok(_)) => {}
            Ok(Err(why)) => {
                self.leave_out(&path, LeftOut::Target(why));
                return Ok(());
            }
            Err(error) => return self.unlisted(&path, &error),
        }
        let one = Found {
            path,
            kind: FoundKind::Link,
            seconds: None,
            is_executable: false,
        };
        if !has_room(&one) {
            self.leave_out(&path, LeftOut::NoRoom);
            return Ok(());
        }
        found.push(one).map_err(|_| FolderFault::NoMemory)
    }

    /// What stands at a path, as it is packed: a folder or a file.
    fn found_at(&self, path: Path, text: &str, metadata: &Metadata) -> Result<Found, LeftOut> {
        if self.own.contains(&FileId::of(metadata)) {
            return Err(LeftOut::Own);
        }
        let found = Found {
            path,
            kind: kind_of(metadata)?,
            seconds: self.seconds_of(metadata)?,
            is_executable: self.wanted.mode && can_be_executed(metadata),
        };
        if !has_room(&found) {
            return Err(LeftOut::NoRoom);
        }
        if self.wanted.skips && !can_be_opened(&self.rt, found.kind, text) {
            return Err(LeftOut::Unreadable);
        }
        Ok(found)
    }

    /// The seconds since 1970 that are packed, if times are.
    fn seconds_of(&self, metadata: &Metadata) -> Result<Option<u64>, LeftOut> {
        if !self.wanted.mtime {
            return Ok(None);
        }
        match u64::try_from(metadata.mtime()) {
            Ok(seconds) => Ok(Some(seconds)),
            Err(_) if !self.minds_old_times => Ok(None),
            Err(_) => Err(LeftOut::TooOld),
        }
    }

    /// Opens the file at a path, in the place of the one that was open, and tells how many bytes it has, up to
    /// 4,294,967,295.
    pub(crate) fn open_file(&mut self, path: &Path) -> Result<u32, FolderFault> {
        self.open = None;
        let text = self.text(path)?;
        match self.reading.open(&self.rt, text.as_str()) {
            Ok(len) => {
                self.open = Some(*path);
                Ok(u32::try_from(len).unwrap_or(u32::MAX))
            }
            Err(error) => Err(self.unread(path, &error)),
        }
    }

    /// Reads the next bytes of the file that is open.
    pub(crate) fn read_on(&mut self, into: &mut [u8]) -> Result<usize, FolderFault>
        ensures { IfOk result (λ count. count ≤ length into.new) }
    {
        let Some(path) = self.open else {
            return Err(FolderFault::Unreadable);
        };
        match self.reading.read(into) {
            Ok(count) => Ok(count),
            Err(error) => Err(self.unread(&path, &error)),
        }
    }

    /// Where the link at a path leads.
    pub(crate) fn ask(&mut self, path: &Path) -> Result<LinkTarget, FolderFault>
        ensures { IfOk result (λ target. IsTrue (is_target target)) }
    {
        let text = self.text(path)?;
        match read_target(&self.rt, text.as_str()) {
            Ok(Ok(target)) => Ok(target),
            Ok(Err(why)) => {
                self.report(path, Remark::NotPacked(LeftOut::Target(why)));
                Err(FolderFault::Unreadable)
            }
            Err(error) if error.kind() == ErrorKind::InvalidInput => {
                self.report(path, Remark::NoLongerLink);
                Err(FolderFault::Unreadable)
            }
            Err(error) => Err(self.unread(path, &error)),
        }
    }

    /// Says that a file or a link cannot be read.
    fn unread(&mut self, path: &Path, error: &Error) -> FolderFault {
        if error.kind() == ErrorKind::OutOfMemory {
            return FolderFault::NoMemory;
        }
        self.tell(path, Remark::Unreadable, Some(error));
        FolderFault::Unreadable
    }
}

/// What stands there, if it can be packed.
fn kind_of(metadata: &Metadata) -> Result<FoundKind, LeftOut> {
    if metadata.is_dir() {
        return Ok(FoundKind::Folder);
    }
    if !metadata.is_file() {
        return Err(LeftOut::of_kind(metadata.file_type()));
    }
    match u32::try_from(metadata.len()) {
        Ok(len) if len <= FILE_LIMIT => Ok(FoundKind::File(len)),
        _ => Err(LeftOut::TooLarge),
    }
}

/// Whether it is a file that its owner may execute.
fn can_be_executed(metadata: &Metadata) -> bool {
    metadata.is_file() && metadata.mode() & OWNER_EXECUTES != 0
}

/// Whether each attribute of what was found has room in an image. At the root nothing stands but a source, which gets
/// another path.
pub(crate) fn has_room(found: &Found) -> bool {
    if found.path.is_root() {
        return true;
    }
    if found.kind == FoundKind::Link {
        let Some(name) = AttrName::parse(b"link") else {
            return false;
        };
        return attr_key(&found.path, &name).is_some();
    }
    for at in 0..usize::MAX {
        let Some(attribute) = found.attribute(at) else {
            return true;
        };
        if attr_key(&found.path, &attribute.name).is_none() {
            return false;
        }
    }
    false
}

/// Whether a file or a folder can be opened.
fn can_be_opened(rt: &HostRuntime, kind: FoundKind, text: &str) -> bool {
    match kind {
        FoundKind::Folder => fs::read_dir(rt, text).is_ok(),
        FoundKind::File(_) => open_plain(rt, text).is_ok(),
        FoundKind::Link => true,
    }
}

/// The count of failed calls after a call that gave this answer: want of memory is no failure.
pub(crate) fn counted<T>(faults: u64, answer: &Result<T, FolderFault>) -> u64
    ensures { result ≡ faults_after faults answer.now }
{
    match answer {
        Err(FolderFault::Unreadable) => faults.saturating_add(1),
        Ok(_) | Err(FolderFault::NoMemory) => faults,
    }
}

impl<R: Reporter + Drop> Folder for StdFolder<R> {
    ghost state = { λ folder. record {
      is_observable = false;
      listed = [];
      read = [];
      targets = [];
      faults = folder.faults;
    } };

    fn list(&mut self, path: &Path, found: &mut Vec<Found>) -> Result<(), FolderFault> {
        let faults = self.faults;
        let answer = self.list_folder(path, found);
        self.faults = counted(faults, &answer);
        answer
    }

    fn open(&mut self, path: &Path) -> Result<u32, FolderFault> {
        let faults = self.faults;
        let answer = self.open_file(path);
        self.faults = counted(faults, &answer);
        answer
    }

    fn read(&mut self, into: &mut [u8]) -> Result<usize, FolderFault> {
        let faults = self.faults;
        let answer = self.read_on(into);
        self.faults = counted(faults, &answer);
        answer
    }

    fn target(&mut self, path: &Path) -> Result<LinkTarget, FolderFault> {
        let faults = self.faults;
        let answer = self.ask(path);
        self.faults = counted(faults, &answer);
        answer
    }
}
