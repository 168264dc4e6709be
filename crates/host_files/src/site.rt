//! A folder of the host in which a tree is made: what asks the system.

use crate::places::Places;
use crate::report::{Remark, Reporter, Thing};
use crate::writing::{Writing, set_time};
use dump_streams::TakerFault;
use host_builder::LeftOut;
use host_names::HostPathFault;
use path_keys::Path;
use std::fs::{self, File};
use std::io::{self, Error, ErrorKind};
use std::os::unix::fs::symlink;
use thiserror::Error as ErrorText;

/// Why there is no folder to make a tree in. The reporter was told so.
#[derive(Clone, Copy, Debug, PartialEq, Eq, ErrorText)]
pub enum NoFolder {
    /// Something stands there that is no empty folder. A link to an empty folder is none.
    #[error("no empty folder")]
    NotEmpty,
    /// It cannot be made or read.
    #[error("the folder cannot be made")]
    NotMade,
}

/// The folder, the file that is written, and what is reported of both.
#[derive(Drop)]
pub struct Site<R: Reporter> {
    rt: HostRuntime,
    places: Places<R>,
    /// Whether the folder itself was made.
    is_new: bool,
    /// Whether something was made in it.
    has_made: bool,
    /// Whether something stays that was to be taken away.
    has_left: bool,
    /// The file to which bytes are written.
    writing: Option<Writing>,
}

impl<R: Reporter + Drop> Site<R> {
    /// Begins with the folder at a path of the host: it is made, or it is there, empty and no link. After an error
    /// the reporter was told why.
    pub fn begin(rt: HostRuntime, folder: String, mut reporter: R) -> Result<Self, NoFolder> {
        match begin(&rt, folder.as_str()) {
            Ok(is_new) => Ok(Site {
                rt,
                places: Places::new(rt.alloc(), folder, reporter),
                is_new,
                has_made: false,
                has_left: false,
                writing: None,
            }),
            Err(error) => {
                let why = no_folder(&error);
                report_no_folder(&mut reporter, folder.as_str(), why, &error);
                Err(why)
            }
        }
    }

    /// Reports what failed.
    fn failed(&mut self, path: &Path, remark: Remark, error: &Error) -> TakerFault {
        if error.kind() == ErrorKind::OutOfMemory {
            return TakerFault::NoMemory;
        }
        let thing = Thing::Path(path);
        self.places.reporter().report(&thing, remark, Some(error));
        TakerFault::Failed
    }

    /// How a call ended, and what is reported where it failed.
    fn ended(
        &mut self,
        path: &Path,
        remark: Remark,
        done: io::Result<()>,
    ) -> Result<(), TakerFault> {
        match done {
            Ok(()) => Ok(()),
            Err(error) => Err(self.failed(path, remark, &error)),
        }
    }

    /// Where an entry is made.
    fn place(&mut self, path: &Path) -> Result<String, TakerFault> {
        match self.places.text(path) {
            Ok(text) => Ok(text),
            Err(HostPathFault::NoMemory) => Err(TakerFault::NoMemory),
            Err(fault) => {
                self.places.leave_out(path, fault);
                Err(TakerFault::Failed)
            }
        }
    }

    /// Makes a folder where nothing stands.
    pub fn make_folder(&mut self, path: &Path) -> Result<(), TakerFault> {
        let text = self.place(path)?;
        let done = fs::create_dir(&self.rt, text.as_str());
        self.has_made = self.has_made || done.is_ok();
        self.ended(path, Remark::NotMade, done)
    }

    /// Writes bytes to a file, which is made where nothing stands, if these are its first.
    pub fn write(&mut self, path: &Path, at: u32, bytes: &[u8]) -> Result<(), TakerFault> {
        if at > 0 {
            return self.go_on(path, at, bytes);
        }
        let text = self.place(path)?;
        match File::create_new(&self.rt, text.as_str()) {
            Ok(file) => self.begin_file(path, text.as_str(), file, bytes),
            Err(error) => Err(self.failed(path, Remark::NotMade, &error)),
        }
    }

    /// Writes the first bytes to a file that was just made. After an error it is taken away again.
    fn begin_file(
        &mut self,
        path: &Path,
        text: &str,
        file: File,
        bytes: &[u8],
    ) -> Result<(), TakerFault> {
        match begun(&self.rt, path, file, bytes) {
            Ok(writing) => {
                self.writing = Some(writing);
                self.has_made = true;
                Ok(())
            }
            Err(error) => {
                let _ = fs::remove_file(&self.rt, text);
                Err(self.failed(path, Remark::NotWritten, &error))
            }
        }
    }

    /// Writes bytes behind those of the file that is written.
    fn go_on(&mut self, path: &Path, at: u32, bytes: &[u8]) -> Result<(), TakerFault> {
        let done = match &mut self.writing {
            Some(writing) if writing.path() == path => writing.write(at, bytes),
            _ => Err(Error::from(ErrorKind::InvalidData)),
        };
        self.ended(path, Remark::NotWritten, done)
    }

    /// Ends the file to which bytes were written.
    pub fn end_file(&mut self) -> Result<(), TakerFault> {
        let Some(writing) = self.writing.take() else {
            return Ok(());
        };
        let path = *writing.path();
        let done = writing.finish();
        self.ended(&path, Remark::NotWritten, done)
    }

    /// Lets those execute the file that is written who may read it.
    pub fn let_execute(&mut self, path: &Path) -> Result<(), TakerFault> {
        let done = match &self.writing {
            Some(writing) if writing.path() == path => writing.let_execute(),
            _ => Err(Error::from(ErrorKind::InvalidData)),
        };
        self.ended(path, Remark::ModeNotSet, done)
    }

    /// Sets the time of the file that is written, or of a folder.
    pub fn set_time(&mut self, path: &Path, seconds: u64) -> Result<(), TakerFault> {
        if let Some(writing) = &mut self.writing
            && writing.path() == path
        {
            writing.set_seconds(seconds);
            return Ok(());
        }
        let text = self.place(path)?;
        let done = set_time_at(&self.rt, text.as_str(), seconds);
        self.ended(path, Remark::TimeNotSet, done)
    }

    /// Makes a link in the place of an empty file.
    pub fn make_link(&mut self, path: &Path, target: &[u8]) -> Result<(), TakerFault> {
        let text = self.place(path)?;
        let done = link_at(&self.rt, text.as_str(), target);
        self.ended(path, Remark::NotMade, done)
    }

    /// Takes a file or a link away; whether nothing stands there.
    pub fn remove_file(&mut self, path: &Path) -> bool {
        self.writing = None;
        match self.places.text(path) {
            Ok(text) => {
                let removed = fs::remove_file(&self.rt, text.as_str());
                self.is_gone(path, removed)
            }
            Err(_) => self.is_gone(path, Err(Error::from(ErrorKind::OutOfMemory))),
        }
    }

    /// Takes a folder away; whether nothing stands there.
    pub fn remove_folder(&mut self, path: &Path) -> bool {
        self.writing = None;
        match self.places.text(path) {
            Ok(text) => {
                let removed = fs::remove_dir(&self.rt, text.as_str());
                self.is_gone(path, removed)
            }
            Err(_) => self.is_gone(path, Err(Error::from(ErrorKind::OutOfMemory))),
        }
    }

    /// Whether what was made at a path is gone; reports it where it stays.
    fn is_gone(&mut self, path: &Path, removed: io::Result<()>) -> bool {
        match removed {
            Ok(()) => true,
            Err(error) if error.kind() == ErrorKind::NotFound => true,
            Err(error) => {
                let thing = Thing::Path(path);
                self.places
                    .reporter()
                    .report(&thing, Remark::Stays, Some(&error));
                self.has_left = true;
                false
            }
        }
    }

    /// Takes the folder itself away where it was made here, and reports what became of what was made; whether it is as
    /// it was before.
    pub fn remove_root(&mut self) -> bool {
        self.writing = None;
        let is_gone = self.take_folder_away();
        self.has_left = self.has_left || !is_gone;
        let remark = if !self.has_made && !self.is_new {
            Remark::NothingMade
        } else if self.has_left {
            Remark::NotAllTakenAway
        } else if self.is_new {
            Remark::TakenAway
        } else {
            Remark::TakenAwayInIt
        };
        self.places.report(remark, None);
        is_gone
    }

    /// Takes the folder itself away where it was made here; whether it is as it was before.
    fn take_folder_away(&mut self) -> bool {
        if !self.is_new {
            return true;
        }
        match fs::remove_dir(&self.rt, self.places.folder()) {
            Ok(()) => true,
            Err(error) => {
                self.places.report(Remark::Stays, Some(&error));
                false
            }
        }
    }

    /// Takes the folder away again where it was made here and nothing stands in it. Nothing is reported.
    pub fn abandon(&mut self) {
        self.writing = None;
        if self.is_new {
            let _ = fs::remove_dir(&self.rt, self.places.folder());
        }
    }

    /// Reports that an entry is left out; of those that have no path on the host, the one above all others.
    pub fn leave_out(&mut self, path: &Path, why: LeftOut) {
        match why {
            LeftOut::Link => {
                let thing = Thing::Path(path);
                self.places
                    .reporter()
                    .report(&thing, Remark::LinkLeftOut, None);
            }
            LeftOut::NoName => match self.places.text(path) {
                Ok(_) => self.places.leave_out(path, HostPathFault::NoSpelling),
                Err(fault) => self.places.leave_out(path, fault),
            },
        }
    }
}

/// Begins to write to a file that was just made.
fn begun(rt: &HostRuntime, path: &Path, file: File, bytes: &[u8]) -> io::Result<Writing> {
    let mut writing = Writing::new(rt.alloc(), path, file)?;
    writing.write(0, bytes)?;
    Ok(writing)
}

/// Makes a link in the place of an empty plain file. Nothing is followed.
fn link_at(rt: &HostRuntime, text: &str, target: &[u8]) -> io::Result<()> {
    let Ok(target) = str::from_utf8(target) else {
        return Err(Error::from(ErrorKind::InvalidData));
    };
    let found = fs::symlink_metadata(rt, text)?;
    if !found.is_file() || found.len() > 0 {
        return Err(Error::from(ErrorKind::AlreadyExists));
    }
    fs::remove_file(rt, text)?;
    symlink(rt, target, text)
}

/// Makes a folder, or finds it empty, and says whether it was made.
fn begin(rt: &HostRuntime, folder: &str) -> io::Result<bool> {
    match fs::create_dir(rt, folder) {
        Ok(()) => Ok(true),
        Err(error) if error.kind() == ErrorKind::AlreadyExists => {
            if is_empty_folder(rt, folder)? {
                Ok(false)
            } else {
                Err(error)
            }
        }
        Err(error) => Err(error),
    }
}

/// Whether an empty folder stands at a path. A link is none, also where `/` stands behind it.
fn is_empty_folder(rt: &HostRuntime, path: &str) -> io::Result<bool> {
    let bare = path.trim_end_matches('/');
    if !bare.is_empty() && !fs::symlink_metadata(rt, bare)?.is_dir() {
        return Ok(false);
    }
    Ok(fs::read_dir(rt, path)?.next().is_none())
}

/// Why there is no folder.
fn no_folder(error: &Error) -> NoFolder {
    match error.kind() {
        ErrorKind::AlreadyExists => NoFolder::NotEmpty,
        _ => NoFolder::NotMade,
    }
}

/// Reports why there is no folder.
fn report_no_folder<R: Reporter>(reporter: &mut R, folder: &str, why: NoFolder, error: &Error) {
    let thing = Thing::Host(folder);
    match why {
        NoFolder::NotEmpty => reporter.report(&thing, Remark::NotEmpty, None),
        NoFolder::NotMade => reporter.report(&thing, Remark::NotMade, Some(error)),
    }
}

/// Sets the time of the last change of a folder.
fn set_time_at(rt: &HostRuntime, text: &str, seconds: u64) -> io::Result<()> {
    set_time(&File::open(rt, text)?, seconds)
}
