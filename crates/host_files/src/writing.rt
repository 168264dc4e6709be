//! A file that is made.

use path_keys::Path;
use std::alloc::Global;
use std::fs::{File, Permissions};
use std::io::{BufWriter, Error, ErrorKind, Result, Write};
use std::os::unix::fs::{MetadataExt, PermissionsExt};
use std::time::{Duration, SystemTime, UNIX_EPOCH};

/// How many bytes of a file are written at once.
const BUFFER: usize = 65_536;

/// The bits of a mode that say who may do what.
const PERMISSIONS: u32 = 0o777;

/// The bits of a mode that say who may read.
const READ: u32 = 0o444;

/// A file that is made: what is written to it reaches the system in large pieces.
#[derive(Drop)]
pub struct Writing {
    /// Its path in the image.
    path: Path,
    writer: BufWriter<File>,
    /// How many bytes were written.
    len: u64,
    /// The seconds since 1970 that it gets as the time of its last change.
    seconds: Option<u64>,
}

impl Writing {
    /// Begins with a file that was just made, which has this path in the image.
    pub fn new(alloc: Global, path: &Path, file: File) -> Result<Writing> {
        Ok(Writing {
            path: *path,
            writer: BufWriter::with_capacity(alloc, BUFFER, file)?,
            len: 0,
            seconds: None,
        })
    }

    /// Its path in the image.
    pub fn path(&self) -> &Path {
        &self.path
    }

    /// Writes the bytes that begin at an offset, which is where the last ones ended.
    pub fn write(&mut self, at: u32, bytes: &[u8]) -> Result<()> {
        if u64::from(at) != self.len {
            return Err(Error::from(ErrorKind::InvalidData));
        }
        self.writer.write_all(bytes)?;
        self.len = self.len.saturating_add(bytes.len() as u64);
        Ok(())
    }

    /// Lets those execute it who may read it.
    pub fn let_execute(&self) -> Result<()> {
        let file = self.writer.get_ref();
        let mode = file.metadata()?.mode();
        let executes = (mode & READ) >> 2;
        file.set_permissions(Permissions::from_mode(mode & PERMISSIONS | executes))
    }

    /// Sets the seconds since 1970 that it gets once all is written.
    pub fn set_seconds(&mut self, seconds: u64) {
        self.seconds = Some(seconds);
    }

    /// Writes out what is still to be written, and sets the time.
    pub fn finish(mut self) -> Result<()> {
        self.writer.flush()?;
        match self.seconds {
            Some(seconds) => set_time(self.writer.get_ref(), seconds),
            None => Ok(()),
        }
    }
}

/// Sets the time of the last change of a file or a folder that is open.
pub fn set_time(file: &File, seconds: u64) -> Result<()> {
    match time_of(seconds) {
        Some(time) => file.set_modified(time),
        None => Err(Error::from(ErrorKind::InvalidInput)),
    }
}

/// The time so many seconds after the beginning of 1970.
fn time_of(seconds: u64) -> Option<SystemTime> {
    UNIX_EPOCH.checked_add(Duration::from_secs(seconds))
}
