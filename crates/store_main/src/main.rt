//! The program `hstore IMAGE WORDS..`: opens the image's file, keeps other programs off it, and carries out the words
//! on it, with standard input as the script and standard output for the replies. It prints nothing else.
//!
//! The words `mirror OTHER` need two files: the image's, which is only read, and that at the path OTHER, which becomes
//! equal to it.
//!
//! This crate assumes that a file, its lock, standard input and standard output do what is asked of them. All else is
//! the library's.
#![tactic(auto)]

use disk_model::FileDisk;
use script_lines::{StdSink, StdSource};
use std::alloc::Global;
use std::fs::{self, File, Metadata};
use std::io::ErrorKind;
use std::os::fd::AsRawFd;
use std::os::unix::fs::MetadataExt;
use std::process::ExitCode;
use std::{env, io};
use store_base::NoMemory;
use store_top::{
    Access, FileRequest, Outcome, PairOutcome, Status, Wanted, Words, pair_words, top, top_pair,
    wanted_file,
};

/// The status where a file cannot be opened, made or locked, or what stands at a path is no file, or where two paths
/// lead to one file.
const NO_FILE: u8 = 12;

/// The descriptor of standard error, the last of the standard streams.
const LAST_STREAM: i32 = 2;

/// The path of the image, and the words behind it.
struct CommandLine {
    image: String,
    words: Words,
}

/// Why there is no command line.
enum BadCommandLine {
    /// There is no path of an image, or a word is not UTF-8 or cannot be read.
    Usage,
    /// Memory ran out.
    NoMemory,
}

impl From<NoMemory> for BadCommandLine {
    fn from(_: NoMemory) -> Self {
        BadCommandLine::NoMemory
    }
}

impl From<io::Error> for BadCommandLine {
    fn from(error: io::Error) -> Self {
        match error.kind() {
            ErrorKind::OutOfMemory => BadCommandLine::NoMemory,
            _ => BadCommandLine::Usage,
        }
    }
}

/// Reads the command line.
fn command_line(rt: &HostRuntime) -> Result<CommandLine, BadCommandLine> {
    let mut args = env::args(rt)?;
    let (_, Some(image)) = (args.next(), args.next()) else {
        return Err(BadCommandLine::Usage);
    };
    let mut words = Words::new(rt.alloc());
    for word in args {
        words.push(word.as_str())?;
    }
    Ok(CommandLine { image, words })
}

/// Keeps other programs off a file until it is closed: all of them, or those that write to it where it is only read. It
/// does not wait; where another program has the file, that is an error.
fn lock(file: &File, access: Access) -> io::Result<()> {
    match access {
        Access::Reading => file.try_lock_shared()?,
        Access::Writing => file.try_lock()?,
    }
    Ok(())
}

/// Whether two files are one, by whatever paths they were found.
fn are_one(first: &Metadata, second: &Metadata) -> bool {
    first.dev() == second.dev() && first.ino() == second.ino()
}

/// Opens a file, and locks it. What is no file is not opened, since that of a pipe would wait for its other end.
fn open_there(rt: &HostRuntime, path: &str, access: Access) -> io::Result<File> {
    if !fs::metadata(rt, path)?.is_file() {
        return Err(io::Error::from(ErrorKind::InvalidInput));
    }
    let file = match access {
        Access::Reading => File::open(rt, path),
        Access::Writing => File::options().read(true).write(true).open(rt, path),
    }?;
    lock(&file, access)?;
    Ok(file)
}

/// Whether a path still leads to a file that was opened there.
fn leads_to(rt: &HostRuntime, path: &str, file: &File) -> io::Result<bool> {
    Ok(are_one(&fs::metadata(rt, path)?, &file.metadata()?))
}

/// Opens a file, and locks it. Where another file took its place until it was locked, that one is opened.
fn open(rt: &HostRuntime, path: &str, access: Access) -> io::Result<File> {
    for _ in 0..u64::MAX {
        let file = open_there(rt, path, access)?;
        if leads_to(rt, path, &file)? {
            return Ok(file);
        }
    }
    Err(io::Error::from(ErrorKind::NotFound))
}

/// Opens a file for writing; where there is none, makes one of so many zeros.
fn open_or_make(rt: &HostRuntime, path: &str, len: u64) -> io::Result<File> {
    match open(rt, path, Access::Writing) {
        Err(error) if error.kind() == ErrorKind::NotFound => {
            let file = File::create_new(rt, path)?;
            lock(&file, Access::Writing)?;
            if !leads_to(rt, path, &file)? {
                return Err(error);
            }
            file.set_len(len)?;
            Ok(file)
        }
        opened => opened,
    }
}

/// Moves a file off the descriptors of the standard streams. Where one of these was closed, the file that is opened
/// next takes its number, and what is meant for the stream would land in the image.
fn off_streams(file: File) -> io::Result<File> {
    if file.as_raw_fd() > LAST_STREAM {
        Ok(file)
    } else {
        file.try_clone()
    }
}

/// The file as a disk of its length.
fn disk_of(file: File) -> io::Result<FileDisk> {
    let file = off_streams(file)?;
    let len = file.metadata()?.len();
    Ok(FileDisk::new(file, len))
}

/// Carries out the words on the disk, with the standard streams as the script and for the replies.
fn call_top(rt: &HostRuntime, words: &Words, disk: FileDisk) -> Status {
    let (source, sink) = (StdSource::new(rt.stdin()), StdSink::new(rt.stdout()));
    let Outcome { status, .. } = top(rt.alloc(), words, disk, source, sink);
    status
}

/// The status that the program ends with where the words are for one file, that of the image.
fn image_code(rt: &HostRuntime, image: &str, words: &Words) -> u8 {
    let FileRequest { wanted, access } = match wanted_file(words) {
        Ok(file) => file,
        Err(NoMemory) => return Status::NoMemory.code(),
    };
    let opened = match wanted {
        Wanted::Usage => return Status::Usage.code(),
        Wanted::Existing => open(rt, image, access),
        Wanted::Fresh(len) => open_or_make(rt, image, len),
    };
    match opened.and_then(disk_of) {
        Ok(disk) => call_top(rt, words, disk).code(),
        Err(_) => NO_FILE,
    }
}

/// The path of the other image, where the words ask for a mirror.
fn other_of(words: &Words) -> Option<&str> {
    if pair_words(words) {
        words.get(1)
    } else {
        None
    }
}

/// Opens the file of an image, only to be read, and that of the other one, which has to be there. Two paths to one file
/// are an error. The second lock is refused there already, but where the file's system gives a process both.
fn open_pair(rt: &HostRuntime, image: &str, other: &str) -> io::Result<(FileDisk, FileDisk)> {
    let from = open(rt, image, Access::Reading)?;
    let to = open(rt, other, Access::Writing)?;
    if are_one(&from.metadata()?, &to.metadata()?) {
        return Err(io::Error::from(ErrorKind::InvalidInput));
    }
    Ok((disk_of(from)?, disk_of(to)?))
}

/// The status that the program ends with where the other image is to become equal to the image.
fn mirror_code(rt: &HostRuntime, image: &str, other: &str) -> u8 {
    let Ok((from, to)) = open_pair(rt, image, other) else {
        return NO_FILE;
    };
    let sink = StdSink::new(rt.stdout());
    let PairOutcome { status, .. } = top_pair(rt.alloc(), from, to, sink);
    status.code()
}

/// The status that the program ends with.
fn exit_code(rt: &HostRuntime) -> u8 {
    let CommandLine { image, words } = match command_line(rt) {
        Ok(line) => line,
        Err(BadCommandLine::Usage) => return Status::Usage.code(),
        Err(BadCommandLine::NoMemory) => return Status::NoMemory.code(),
    };
    match other_of(&words) {
        Some(other) => mirror_code(rt, image.as_str(), other),
        None => image_code(rt, image.as_str(), &words),
    }
}

fn main(rt: HostRuntime) -> ExitCode {
    ExitCode::from(exit_code(&rt))
}
