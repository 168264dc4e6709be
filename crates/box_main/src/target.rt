//! The file that `get` writes.

use crate::trouble::{Thing, cause, no_memory, tell};
use box_words::Status;
use host_files::FileId;
use std::fs::{self, File, Metadata};
use std::io::{Error, ErrorKind};

/// What a new file is called while it is not complete: this, and its name.
const BEFORE: &str = ".hbox-new-";

/// How many bytes a name has at most that fits behind that. A longer one does not stand there.
const MOST: usize = 200;

/// What to do where a file cannot be written.
const ADVICE: &str = "give another FILE, or none to print the bytes";

/// A file that is written.
#[derive(Drop)]
pub struct Written {
    /// It is open for writing.
    pub file: File,
    /// The place that it gets once it is complete; nothing where it stands there already.
    pub place: Option<NewPlace>,
}

/// The names of a new file.
#[derive(Drop)]
pub struct NewPlace {
    /// The name while it is not complete.
    half: String,
    /// The name that it gets.
    whole: String,
}

/// Says why a file cannot be written.
fn unopened(rt: HostRuntime, name: &str, wrong: &str) -> Status {
    crate::trouble::unopened(rt, name, wrong, ADVICE)
}

/// The name of a new file that is not complete, beside the one that it gets.
fn half_name(rt: HostRuntime, whole: &str) -> Option<String> {
    let (folder, between, name) = match whole.rsplit_once("/") {
        Some((folder, name)) => (folder, "/", name),
        None => ("", "", whole),
    };
    let name = if name.len() > MOST { "" } else { name };
    format!(in rt.alloc(); "{folder}{between}{BEFORE}{name}").ok()
}

/// Takes away what a call left that was ended before its file was complete: a plain file that nobody has locked.
/// Answers whether it is gone.
fn take_away_leftover(rt: HostRuntime, half: &str) -> bool {
    let is_plain = fs::symlink_metadata(&rt, half).is_ok_and(|found| found.is_file());
    if !is_plain {
        return false;
    }
    let Ok(file) = File::open(&rt, half) else {
        return false;
    };
    file.try_lock().is_ok() && fs::remove_file(&rt, half).is_ok()
}

/// Makes a new file, in the place of a leftover if one is there, and keeps others off it.
fn make_half(rt: HostRuntime, half: &str) -> Result<File, Error> {
    let made = match File::create_new(&rt, half) {
        Err(error) if error.kind() == ErrorKind::AlreadyExists && take_away_leftover(rt, half) => {
            File::create_new(&rt, half)
        }
        made => made,
    };
    let file = made?;
    let _ = file.try_lock();
    Ok(file)
}

/// Why a new file was not made, in words.
fn unmade(error: &Error) -> &'static str {
    match error.kind() {
        ErrorKind::NotFound => "its folder is missing",
        ErrorKind::AlreadyExists => "another program is writing it",
        _ => cause(error),
    }
}

/// Makes a new file that gets this name once it is complete, and then takes the place of a file of which this was
/// found.
fn make_new(
    rt: HostRuntime,
    name: &str,
    whole: String,
    found: Option<&Metadata>,
) -> Result<Written, Status> {
    let Some(half) = half_name(rt, whole.as_str()) else {
        return Err(no_memory(rt, &Thing::File(name)));
    };
    let file = match make_half(rt, half.as_str()) {
        Ok(file) => file,
        Err(error) => return Err(unopened(rt, name, unmade(&error))),
    };
    if let Some(found) = found {
        let _ = file.set_permissions(found.permissions());
    }
    Ok(Written {
        file,
        place: Some(NewPlace { half, whole }),
    })
}

/// Opens what is written into as it stands, such as a device.
fn open_as_is(rt: HostRuntime, name: &str) -> Result<Written, Status> {
    match File::options().write(true).open(&rt, name) {
        Ok(file) => Ok(Written { file, place: None }),
        Err(error) => Err(unopened(rt, name, cause(&error))),
    }
}

/// Makes a new file in the place of the plain file that a path leads to.
fn replace(rt: HostRuntime, name: &str, found: &Metadata) -> Result<Written, Status> {
    let whole = match fs::canonicalize(&rt, name) {
        Ok(whole) => whole,
        Err(error) => return Err(unopened(rt, name, cause(&error))),
    };
    match String::from_str(rt.alloc(), whole.as_str()) {
        Ok(whole) => make_new(rt, name, whole, Some(found)),
        Err(_) => Err(no_memory(rt, &Thing::File(name))),
    }
}

/// Makes a new file where nothing stands.
fn make_absent(rt: HostRuntime, name: &str) -> Result<Written, Status> {
    if fs::symlink_metadata(&rt, name).is_ok() {
        return Err(unopened(rt, name, "it is a symbolic link that leads nowhere"));
    }
    match String::from_str(rt.alloc(), name) {
        Ok(whole) => make_new(rt, name, whole, None),
        Err(_) => Err(no_memory(rt, &Thing::File(name))),
    }
}

/// Opens the file that is written: a new one where a plain file stands or nothing, and else what stands there. The
/// image is none.
pub fn open_target(rt: HostRuntime, name: &str, image: &FileId) -> Result<Written, Status> {
    match fs::metadata(&rt, name) {
        Ok(found) if FileId::of(&found) == *image => {
            let (wrong, advice) = ("it is the image itself", "give another FILE");
            Err(tell(rt, Status::Path, &Thing::File(name), wrong, advice))
        }
        Ok(found) if found.is_dir() => Err(unopened(rt, name, "it is a folder")),
        Ok(found) if found.is_file() => replace(rt, name, &found),
        Ok(_) => open_as_is(rt, name),
        Err(error) if error.kind() == ErrorKind::NotFound => make_absent(rt, name),
        Err(error) => Err(unopened(rt, name, cause(&error))),
    }
}

impl Written {
    /// Gives a complete file its name, or takes it away where it is not. Answers how the call ends.
    pub fn finish(self, rt: HostRuntime, name: &str, status: Status) -> Status {
        let Written { file, place } = self;
        let Some(NewPlace { half, whole }) = place else {
            return status;
        };
        let named = match status {
            Status::Done => name_complete(rt, &file, half.as_str(), whole.as_str()),
            _ => Err(None),
        };
        match named {
            Ok(()) => status,
            Err(why) => {
                let _ = fs::remove_file(&rt, half.as_str());
                why.map_or(status, |why| unnamed(rt, name, why))
            }
        }
    }
}

/// Says that a complete file did not get its name.
fn unnamed(rt: HostRuntime, name: &str, why: &str) -> Status {
    let advice = "look whether the disk is full, or give another FILE";
    tell(rt, Status::Host, &Thing::File(name), why, advice)
}

/// Gives a file its name, once its bytes are on the disk.
fn name_complete(
    rt: HostRuntime,
    file: &File,
    half: &str,
    whole: &str,
) -> Result<(), Option<&'static str>> {
    if let Err(error) = file.sync_all() {
        return Err(Some(cause(&error)));
    }
    match fs::rename(&rt, half, whole) {
        Ok(()) => Ok(()),
        Err(error) => Err(Some(cause(&error))),
    }
}
