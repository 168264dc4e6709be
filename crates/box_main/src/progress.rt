//! What a person sees of long work: how many entries were found, or how many bytes were read or written.

ghost use Rattle.std.specs.Prelude.{◌≡◌};

use disk_model::Disk;
use host_folders::{Folder, FolderFault, Found, LinkTarget};
use path_keys::Path;
use std::io::{self, IsTerminal, Read};
use std::time::{Duration, Instant};
use store_base::DiskFault;

/// How many bytes are read or written at least until the clock is looked at.
const STEP: u64 = 1 << 20;

/// How many entries are found at least until then.
const ENTRIES: u64 = 256;

/// How many milliseconds pass at least until the line is written, and until it is written anew.
const PAUSE: u64 = 500;

/// What clears the line of a terminal from where it stands on.
pub const CLEAR: &str = "\x1b[K";

/// What has a terminal remember where it stands, and go back there.
const STAY: &str = "\x1b7";

const BACK: &str = "\x1b8";

/// Work that takes long.
#[derive(Clone, Copy, PartialEq, Eq)]
enum Work {
    /// Entries of a folder are found.
    Finding,
    /// Bytes are read.
    Reading,
    /// Bytes are written.
    Writing,
}

impl Work {
    /// How much is done at least until the clock is looked at.
    fn step(self) -> u64 {
        match self {
            Work::Finding => ENTRIES,
            Work::Reading | Work::Writing => STEP,
        }
    }

    /// What it is called.
    fn word(self) -> &'static str {
        match self {
            Work::Finding | Work::Reading => "reading",
            Work::Writing => "writing",
        }
    }
}

/// A text on standard error, where that is a terminal, which tells how much was done. The terminal stays where it was
/// before, so what is written meanwhile takes its place.
#[derive(Drop)]
struct Watch {
    rt: HostRuntime,
    /// What is counted.
    work: Work,
    /// How much of it was done.
    done: u64,
    /// How much there is; 0 where nobody knows.
    all: u64,
    /// About how many times each byte is read.
    times: u64,
    /// How much is done until the clock is looked at.
    until: u64,
    /// When the line was written last; nothing where none is to be.
    written: Option<Instant>,
    is_shown: bool,
}

impl Watch {
    /// Nothing was done yet.
    fn new(rt: HostRuntime, work: Work, all: u64, times: u64, is_quiet: bool) -> Self {
        let written = if !is_quiet && rt.stderr().is_terminal() {
            Instant::now(&rt).ok()
        } else {
            None
        };
        Watch {
            rt,
            work,
            done: 0,
            all,
            times,
            until: work.step(),
            written,
            is_shown: false,
        }
    }

    /// Takes the line away, for good.
    fn finish(&mut self) {
        self.written = None;
        if self.is_shown {
            self.is_shown = false;
            let _ = eprint!(self.rt; "{CLEAR}");
        }
    }

    /// Writes the line anew, where it is time.
    fn show(&mut self) {
        let Some(written) = self.written else {
            return;
        };
        let Ok(now) = Instant::now(&self.rt) else {
            return;
        };
        if now.saturating_duration_since(written) < Duration::from_millis(PAUSE) {
            return;
        }
        self.written = Some(now);
        self.is_shown = true;
        self.write();
    }

    /// Writes the line.
    fn write(&self) {
        let done = self.done / self.times.max(1);
        let word = self.work.word();
        if self.work == Work::Finding {
            let _ = eprint!(self.rt; "{STAY}{CLEAR}hbox: {word}, {done} entries{BACK}");
            return;
        }
        let (shown, all) = (done / 1_000_000, self.all / 1_000_000);
        if all == 0 {
            let _ = eprint!(self.rt; "{STAY}{CLEAR}hbox: {word}, {shown} MB{BACK}");
            return;
        }
        let share = (done / (self.all / 100).max(1)).min(99);
        let shown = shown.min(all);
        let _ = eprint!(self.rt; "{STAY}{CLEAR}hbox: {word} {share} %, {shown} of {all} MB{BACK}");
    }

    /// From now on writes are counted, of which nobody knows how many bytes they have.
    fn begin_writing(&mut self) {
        self.work = Work::Writing;
        self.done = 0;
        self.all = 0;
        self.times = 1;
        self.until = self.work.step();
    }

    /// Counts so much that was done, if it is of the work that is counted. What was read until then is written from the
    /// first write on.
    fn count(&mut self, work: Work, more: u64) {
        if work != self.work {
            if work == Work::Reading {
                return;
            }
            self.begin_writing();
        }
        self.done = self.done.saturating_add(more);
        if more < self.until {
            self.until -= more;
            return;
        }
        self.until = work.step();
        self.show();
    }
}

/// A disk that is watched by a person: a line tells how much was read or written, until `finish`.
#[derive(Drop)]
pub struct Watched<D: Disk> {
    disk: D,
    watch: Watch,
}

impl<D: Disk> Watched<D> {
    /// A disk of so many bytes, each of which will be read about so many times.
    pub fn new(rt: HostRuntime, disk: D, all: u64, times: u64, is_quiet: bool) -> Self {
        Watched {
            disk,
            watch: Watch::new(rt, Work::Reading, all, times, is_quiet),
        }
    }

    /// A disk of so many bytes, each of which will be written once.
    pub fn writing(rt: HostRuntime, disk: D, all: u64, is_quiet: bool) -> Self
        ensures { result.disk ≡ disk }
    {
        Watched {
            disk,
            watch: Watch::new(rt, Work::Writing, all, 1, is_quiet),
        }
    }

    /// Takes the line away.
    pub fn finish(&mut self) {
        self.watch.finish();
    }
}

impl<D: Disk> Disk for Watched<D> {
    ghost state = { λ watched. D.state watched.disk };

    ghost sound = { λ watched observable. D.sound watched.disk observable };

    fn len(&self) -> u64 {
        self.disk.len()
    }

    fn read_at(&mut self, at: u64, into: &mut [u8]) -> Result<(), DiskFault> {
        self.watch.count(Work::Reading, into.len() as u64);
        self.disk.read_at(at, into)
    }

    fn write_at(&mut self, at: u64, bytes: &[u8]) -> Result<(), DiskFault> {
        self.watch.count(Work::Writing, bytes.len() as u64);
        self.disk.write_at(at, bytes)
    }

    fn sync(&mut self) -> Result<(), DiskFault> {
        self.disk.sync()
    }
}

/// A reader that is watched by a person: a line tells how much was read, until `finish`.
#[derive(Drop)]
pub struct WatchedReader<T> {
    reader: T,
    watch: Watch,
}

impl<T> WatchedReader<T> {
    /// A reader, of which nobody knows how much it has.
    pub fn new(rt: HostRuntime, reader: T, is_quiet: bool) -> Self {
        WatchedReader {
            reader,
            watch: Watch::new(rt, Work::Reading, 0, 1, is_quiet),
        }
    }

    /// Takes the line away.
    pub fn finish(&mut self) {
        self.watch.finish();
    }
}

impl<T: Read> Read for WatchedReader<T> {
    fn read(&mut self, into: &mut [u8]) -> io::Result<usize> {
        self.watch.count(Work::Reading, into.len() as u64);
        self.reader.read(into)
    }
}

/// A folder that is watched by a person: a line tells how many entries were found in it, or how many bytes of its files
/// were read, until `finish`.
#[derive(Drop)]
pub struct WatchedFolder<F> {
    /// The folder.
    pub folder: F,
    rt: HostRuntime,
    watch: Watch,
    is_quiet: bool,
}

impl<F> WatchedFolder<F> {
    /// A folder, in which entries are found.
    pub fn new(rt: HostRuntime, folder: F, is_quiet: bool) -> Self {
        WatchedFolder {
            folder,
            rt,
            watch: Watch::new(rt, Work::Finding, 0, 1, is_quiet),
            is_quiet,
        }
    }

    /// From now on its files are read, which have about so many bytes in all.
    pub fn begin_reading(&mut self, all: u64) {
        self.watch = Watch::new(self.rt, Work::Reading, all, 1, self.is_quiet);
    }

    /// Takes the line away.
    pub fn finish(&mut self) {
        self.watch.finish();
    }
}

impl<F: Folder> Folder for WatchedFolder<F> {
    ghost state = { λ watched. F.state watched.folder };

    fn list(&mut self, path: &Path, found: &mut Vec<Found>) -> Result<(), FolderFault> {
        let before = found.len();
        let answer = self.folder.list(path, found);
        let more = found.len().saturating_sub(before);
        self.watch.count(Work::Finding, more as u64);
        answer
    }

    fn open(&mut self, path: &Path) -> Result<u32, FolderFault> {
        self.folder.open(path)
    }

    fn read(&mut self, into: &mut [u8]) -> Result<usize, FolderFault> {
        let answer = self.folder.read(into);
        if let Ok(count) = &answer {
            self.watch.count(Work::Reading, *count as u64);
        }
        answer
    }

    fn target(&mut self, path: &Path) -> Result<LinkTarget, FolderFault> {
        self.folder.target(path)
    }
}
