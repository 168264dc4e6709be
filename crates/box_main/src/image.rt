//! Images that are opened: to be read, or to be changed.

use crate::new_image::clear_leftover;
use crate::progress::Watched;
use crate::trouble::{Thing, cause, tell, unopened};
use box_words::{Common, Status};
use disk_model::FileDisk;
use host_files::FileId;
use std::fs::{self, File, Metadata, TryLockError};
use std::io::Error;
use std::thread::sleep;
use std::time::{Duration, Instant};

/// How many milliseconds pass between two tries to lock a file.
const PAUSE: u64 = 50;

/// What to do where an image could not be opened, to be read.
const TO_READ: &str = "give the path of an image file that you may read";

/// And to be changed.
const TO_CHANGE: &str = "give the path of an image file that you may read and write";

/// An image that is open.
#[derive(Drop)]
pub struct Image {
    /// Its bytes.
    pub disk: Watched<FileDisk>,
    /// Which file it is.
    pub file: FileId,
}

/// What a file is locked for.
#[derive(Clone, Copy)]
pub enum Access {
    /// It is read: programs that write are kept off it.
    Reading,
    /// It is written: all other programs are kept off it.
    Writing,
}

impl Access {
    /// What to do where an image could not be opened.
    fn advice(self) -> &'static str {
        match self {
            Access::Reading => TO_READ,
            Access::Writing => TO_CHANGE,
        }
    }
}

/// Says why an image could not be opened.
fn unopened_since(rt: HostRuntime, image: &str, access: Access, error: &Error) -> Status {
    unopened(rt, image, cause(error), access.advice())
}

/// Says that another program has an image.
pub fn locked(rt: HostRuntime, image: &str) -> Status {
    let wrong = "another program is using it";
    let advice = "try again later, or wait with --wait";
    tell(rt, Status::Locked, &Thing::File(image), wrong, advice)
}

/// Whether so many seconds passed since a moment. Where the clock cannot be read they did.
fn is_over(rt: HostRuntime, begun: &Instant, seconds: u32) -> bool {
    match Instant::now(&rt) {
        Ok(now) => {
            now.saturating_duration_since(*begun) >= Duration::from_secs(u64::from(seconds))
        }
        Err(_) => true,
    }
}

/// Locks a file, if no other program has it.
fn try_lock(file: &File, access: Access) -> Result<(), TryLockError> {
    match access {
        Access::Reading => file.try_lock_shared(),
        Access::Writing => file.try_lock(),
    }
}

/// Keeps other programs off a file, and waits for it up to so many seconds.
pub fn lock(
    rt: HostRuntime,
    image: &str,
    file: &File,
    access: Access,
    seconds: u32,
) -> Result<(), Status> {
    let begun = Instant::now(&rt).ok();
    for _ in 0..u64::MAX {
        match try_lock(file, access) {
            Ok(()) => return Ok(()),
            Err(TryLockError::Error(error)) => {
                return Err(unopened_since(rt, image, access, &error));
            }
            Err(TryLockError::WouldBlock) => {}
        }
        match &begun {
            Some(begun) if !is_over(rt, begun, seconds) => {
                sleep(&rt, Duration::from_millis(PAUSE));
            }
            _ => return Err(locked(rt, image)),
        }
    }
    Err(locked(rt, image))
}

/// What is wrong with what stands at the path of an image, if it is no plain file. It is not opened then, since that of
/// a pipe would wait for its other end.
fn wrong_kind(found: &Metadata) -> Option<&'static str> {
    if found.is_dir() {
        return Some("it is a folder");
    }
    if found.is_file() {
        None
    } else {
        Some("it is not a plain file")
    }
}

/// Looks whether the path of an image leads to a folder. Then it says what to do.
pub fn look_at_image(rt: HostRuntime, image: &str, advice: &str) -> Result<(), Status> {
    if fs::metadata(&rt, image).is_ok_and(|found| found.is_dir()) {
        return Err(unopened(rt, image, "it is a folder", advice));
    }
    Ok(())
}

/// Opens the file of an image, to be read, or to be read and written.
fn open_file(rt: HostRuntime, image: &str, access: Access) -> Result<File, Status> {
    match fs::metadata(&rt, image) {
        Ok(found) => {
            if let Some(wrong) = wrong_kind(&found) {
                return Err(unopened(rt, image, wrong, access.advice()));
            }
        }
        Err(error) => return Err(unopened_since(rt, image, access, &error)),
    }
    let opened = match access {
        Access::Reading => File::open(&rt, image),
        Access::Writing => File::options().read(true).write(true).open(&rt, image),
    };
    opened.map_err(|error| unopened_since(rt, image, access, &error))
}

/// What is known of the file at a path, and of one that was opened there.
fn found_at(rt: HostRuntime, image: &str, file: &File) -> Result<(Metadata, Metadata), Error> {
    Ok((fs::metadata(&rt, image)?, file.metadata()?))
}

/// Opens the file of an image, and keeps other programs off it. Where another file took its place until then, that one
/// is opened.
fn open_locked(
    rt: HostRuntime,
    image: &str,
    access: Access,
    seconds: u32,
) -> Result<(File, Metadata), Status> {
    for _ in 0..u64::MAX {
        let file = open_file(rt, image, access)?;
        lock(rt, image, &file, access, seconds)?;
        match found_at(rt, image, &file) {
            Ok((there, opened)) if FileId::of(&there) == FileId::of(&opened) => {
                return Ok((file, opened));
            }
            Ok(_) => {}
            Err(error) => return Err(unopened_since(rt, image, access, &error)),
        }
    }
    Err(locked(rt, image))
}

/// Opens an image, and keeps other programs off it: those that write where it is only read, and else all. Its bytes
/// will be read about so many times, which tells a person how far the work is.
fn open_for(
    rt: HostRuntime,
    image: &str,
    common: &Common,
    access: Access,
    times: u64,
) -> Result<Image, Status> {
    let (file, found) = open_locked(rt, image, access, common.wait.unwrap_or(0))?;
    let len = found.len();
    let disk = FileDisk::new(file, len);
    Ok(Image {
        disk: Watched::new(rt, disk, len, times, common.quiet),
        file: FileId::of(&found),
    })
}

/// Opens an image, which is only read.
pub fn open(rt: HostRuntime, image: &str, common: &Common, times: u64) -> Result<Image, Status> {
    open_for(rt, image, common, Access::Reading, times)
}

/// Opens an image, which is changed, and takes away what earlier calls left beside it. Its bytes will be read about so
/// many times.
pub fn open_to_change(
    rt: HostRuntime,
    image: &str,
    common: &Common,
    times: u64,
) -> Result<Image, Status> {
    let opened = open_for(rt, image, common, Access::Writing, times)?;
    clear_leftover(rt, image, &opened.file)?;
    Ok(opened)
}
