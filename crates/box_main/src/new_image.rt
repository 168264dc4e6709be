//! The file of an image that is made. It gets its name once the image is complete.

ghost use Rattle.std.specs.Prelude.{◌≡◌, IfOk};
ghost use Rattle.store_model.specs.Parameters.{image_len};
ghost use Rattle.disk_model.specs.FileDisk.{file_state};

use crate::image::{Access, lock, locked};
use crate::pieces::{copy_image, make_zero};
use crate::progress::Watched;
use crate::trouble::{Thing, cause, no_memory, tell, unopened};
use box_words::{Common, Status};
use disk_model::FileDisk;
use host_files::FileId;
use std::fs::{self, File, Metadata, TryLockError};
use std::io::{Error, ErrorKind};
use std::os::unix::fs::MetadataExt;
use store_base::{Params, image_len};

/// What stands behind the name of an image that is not complete. A point stands before it.
const BEHIND: &str = ".hbox-new";

/// How many bytes a name has at most that fits between. A longer one does not stand there.
const MOST: usize = 245;

/// What to do where no image can be made.
const ADVICE: &str = "give an IMAGE in a folder that you may write to";

/// What to do where something else has the name of an image that is not complete.
const IN_THE_WAY: &str = "remove it, or give another IMAGE";

/// The file of an image that is not complete. All other programs are kept off it.
#[derive(Drop)]
pub struct NewImage {
    file: File,
    /// Which file it is.
    id: FileId,
    names: Names,
}

/// Where a new image stands.
#[derive(Drop)]
struct Names {
    /// The folder, with a slash behind it; the empty text for the folder in which the program works.
    folder: String,
    /// The path while the image is not complete.
    half: String,
}

/// Says that an image cannot be made.
fn unmade(rt: HostRuntime, image: &str, error: &Error) -> Status {
    let wrong = match error.kind() {
        ErrorKind::NotFound => "its folder is missing",
        ErrorKind::AlreadyExists => return locked(rt, image),
        _ => cause(error),
    };
    unopened(rt, image, wrong, ADVICE)
}

/// Says that something stands where an image is to be made.
fn stands(rt: HostRuntime, image: &str) -> Status {
    let (wrong, advice) = (
        "something is there already",
        "give the path of a new file; hbox create replaces nothing",
    );
    tell(rt, Status::Path, &Thing::File(image), wrong, advice)
}

/// Says that an image could not be written.
fn unwritten(rt: HostRuntime, image: &str, error: &Error) -> Status {
    let advice = "make room on its disk, and try again";
    tell(rt, Status::Disk, &Thing::File(image), cause(error), advice)
}

/// Says that something else has the name of an image that is not complete.
fn in_the_way(rt: HostRuntime, half: &str, wrong: &str) -> Status {
    unopened(rt, half, wrong, IN_THE_WAY)
}

/// The names of a new image.
fn names_of(rt: HostRuntime, image: &str) -> Result<Names, Status> {
    let (folder, slash, name) = match image.rsplit_once("/") {
        Some((folder, name)) => (folder, "/", name),
        None => ("", "", image),
    };
    if name.is_empty() {
        return Err(unopened(rt, image, "it is not the path of a file", ADVICE));
    }
    let name = if name.len() > MOST { "" } else { name };
    let alloc = rt.alloc();
    let half = format!(in alloc; "{folder}{slash}.{name}{BEHIND}");
    let folder = format!(in alloc; "{folder}{slash}");
    match (folder, half) {
        (Ok(folder), Ok(half)) => Ok(Names { folder, half }),
        _ => Err(no_memory(rt, &Thing::File(image))),
    }
}

/// Whether this file stands at a path, and not behind a link.
fn stands_at(rt: HostRuntime, path: &str, id: &FileId) -> bool {
    fs::symlink_metadata(&rt, path).is_ok_and(|found| FileId::of(&found) == *id)
}

/// Which file a plain file is that an earlier call left at the name of an image that is not complete; nothing where
/// none is there.
pub fn leftover_of(rt: HostRuntime, image: &str) -> Result<Option<FileId>, Status> {
    let names = names_of(rt, image)?;
    match fs::symlink_metadata(&rt, names.half.as_str()) {
        Ok(found) if found.is_file() => Ok(Some(FileId::of(&found))),
        _ => Ok(None),
    }
}

/// Takes away the second name of an image that a call left which was ended before it took that away itself. This file
/// is the image.
fn drop_second_name(rt: HostRuntime, half: &str, image: &FileId) {
    if stands_at(rt, half, image) {
        let _ = fs::remove_file(&rt, half);
    }
}

/// Looks whether an image may be made at a path: nothing stands there, and no link that leads nowhere. Else it says so.
pub fn look_for(rt: HostRuntime, image: &str) -> Result<(), Status> {
    match fs::symlink_metadata(&rt, image) {
        Ok(found) if found.is_file() => {
            let names = names_of(rt, image)?;
            drop_second_name(rt, names.half.as_str(), &FileId::of(&found));
            Err(stands(rt, image))
        }
        Ok(_) => Err(stands(rt, image)),
        Err(error) if error.kind() == ErrorKind::NotFound => Ok(()),
        Err(error) => Err(unmade(rt, image, &error)),
    }
}

/// Opens what an earlier call left, a plain file, to be read and written; nothing where it is gone. What is no file is
/// not opened, since that of a pipe would wait for its other end, and a link is not followed. Another file there by
/// then is one of a call that runs.
fn open_leftover(rt: HostRuntime, image: &str, half: &str) -> Result<Option<File>, Status> {
    let found = match fs::symlink_metadata(&rt, half) {
        Ok(found) => found,
        Err(error) if error.kind() == ErrorKind::NotFound => return Ok(None),
        Err(error) => return Err(in_the_way(rt, half, cause(&error))),
    };
    if !found.is_file() {
        return Err(in_the_way(rt, half, "it is not a plain file"));
    }
    let file = match File::options().read(true).write(true).open(&rt, half) {
        Ok(file) => file,
        Err(error) if error.kind() == ErrorKind::NotFound => return Ok(None),
        Err(error) => return Err(in_the_way(rt, half, cause(&error))),
    };
    match file.metadata() {
        Ok(opened) if FileId::of(&opened) == FileId::of(&found) => Ok(Some(file)),
        Ok(_) => Err(locked(rt, image)),
        Err(error) => Err(in_the_way(rt, half, cause(&error))),
    }
}

/// Takes away what an earlier call left, which is locked by now. It is made zero first, but where it has a second name,
/// since it is a complete image then.
fn clear(rt: HostRuntime, half: &str, file: &File) -> Result<(), Status> {
    let found = match file.metadata() {
        Ok(found) => found,
        Err(error) => return Err(in_the_way(rt, half, cause(&error))),
    };
    if !stands_at(rt, half, &FileId::of(&found)) {
        return Ok(());
    }
    if found.nlink() < 2
        && let Err(error) = make_zero(file)
    {
        return Err(in_the_way(rt, half, cause(&error)));
    }
    match fs::remove_file(&rt, half) {
        Ok(()) => Ok(()),
        Err(error) => Err(in_the_way(rt, half, cause(&error))),
    }
}

/// Takes away what an earlier call left. Where another program has it, it waits for that up to so many seconds.
fn take_away_leftover(
    rt: HostRuntime,
    image: &str,
    half: &str,
    seconds: u32,
) -> Result<(), Status> {
    match open_leftover(rt, image, half)? {
        Some(file) => {
            lock(rt, image, &file, Access::Writing, seconds)?;
            clear(rt, half, &file)
        }
        None => Ok(()),
    }
}

/// Takes away what an earlier call left beside an image, which is this file: a plain file that nobody has locked.
pub fn clear_leftover(rt: HostRuntime, image: &str, file: &FileId) -> Result<(), Status> {
    let names = names_of(rt, image)?;
    let half = names.half.as_str();
    drop_second_name(rt, half, file);
    if !fs::symlink_metadata(&rt, half).is_ok_and(|found| found.is_file()) {
        return Ok(());
    }
    match open_leftover(rt, image, half)? {
        Some(left) if left.try_lock().is_ok() => clear(rt, half, &left),
        _ => Ok(()),
    }
}

/// Makes the file of an image, in the place of what an earlier call left.
fn make_half(rt: HostRuntime, image: &str, half: &str, seconds: u32) -> Result<File, Status> {
    match File::create_new(&rt, half) {
        Err(error) if error.kind() == ErrorKind::AlreadyExists => {
            take_away_leftover(rt, image, half, seconds)?;
        }
        Ok(file) => return Ok(file),
        Err(error) => return Err(unmade(rt, image, &error)),
    }
    match File::create_new(&rt, half) {
        Ok(file) => Ok(file),
        Err(error) => Err(unmade(rt, image, &error)),
    }
}

/// Keeps other programs off the new file of an image. Another call may have taken it for what an earlier one left.
fn hold(rt: HostRuntime, image: &str, names: Names, file: File) -> Result<NewImage, Status> {
    let half = names.half.as_str();
    match file.try_lock() {
        Ok(()) => {}
        Err(TryLockError::WouldBlock) => return Err(locked(rt, image)),
        Err(TryLockError::Error(error)) => {
            let _ = fs::remove_file(&rt, half);
            return Err(unmade(rt, image, &error));
        }
    }
    match file.metadata() {
        Ok(found) if stands_at(rt, half, &FileId::of(&found)) => Ok(NewImage {
            file,
            id: FileId::of(&found),
            names,
        }),
        _ => Err(locked(rt, image)),
    }
}

/// Begins the file of an image where nothing stands.
pub fn begin(rt: HostRuntime, image: &str, common: &Common) -> Result<NewImage, Status> {
    let names = names_of(rt, image)?;
    let seconds = common.wait.unwrap_or(0);
    let file = make_half(rt, image, names.half.as_str(), seconds)?;
    let new = hold(rt, image, names, file)?;
    match look_for(rt, image) {
        Ok(()) => Ok(new),
        Err(status) => Err(new.finish(rt, image, status)),
    }
}

/// Makes what was done in a folder durable. One that may not be opened, or whose system does not do that, is left to
/// the system. Answers whether that failed.
fn is_sync_lost(rt: HostRuntime, folder: &str) -> bool {
    let name = if folder.is_empty() { "." } else { folder };
    let Ok(folder) = File::open(&rt, name) else {
        return false;
    };
    match folder.sync_all() {
        Ok(()) => false,
        Err(error) => !matches!(
            error.kind(),
            ErrorKind::InvalidInput | ErrorKind::Unsupported
        ),
    }
}

impl NewImage {
    /// Which file it is.
    pub fn id(&self) -> FileId {
        self.id
    }

    /// The file as the disk of an image under these parameters, of its length, all zeros. A person sees how much of it
    /// is written.
    pub fn disk(
        &self,
        rt: HostRuntime,
        image: &str,
        params: &Params,
        common: &Common,
    ) -> Result<Watched<FileDisk>, Status>
        ensures size { IfOk result (λ disk. (file_state disk.disk).size ≡ image_len params.now.slots) }
    {
        let len = image_len(params.slots());
        if let Err(error) = self.file.set_len(len) {
            return Err(unwritten(rt, image, &error));
        }
        match self.file.try_clone() {
            Ok(file) => {
                let disk = FileDisk::new(file, len);
                Ok(Watched::writing(rt, disk, len, common.quiet))
            }
            Err(error) => Err(unwritten(rt, image, &error)),
        }
    }

    /// Makes the file zero and takes it away, as far as the system lets it.
    fn discard(&self, rt: HostRuntime) {
        let half = self.names.half.as_str();
        let _ = make_zero(&self.file);
        if stands_at(rt, half, &self.id) {
            let _ = fs::remove_file(&rt, half);
        }
    }

    /// Copies a complete image into a new file, where the system gives a file no second name.
    fn copy_to(&self, rt: HostRuntime, image: &str) -> Result<(), Status> {
        let file = match File::create_new(&rt, image) {
            Ok(file) => file,
            Err(error) if error.kind() == ErrorKind::AlreadyExists => {
                return Err(stands(rt, image));
            }
            Err(error) => return Err(unmade(rt, image, &error)),
        };
        let _ = file.try_lock();
        if let Err(error) = copy_image(&self.file, &file) {
            let _ = make_zero(&file);
            let _ = fs::remove_file(&rt, image);
            return Err(unwritten(rt, image, &error));
        }
        self.discard(rt);
        Ok(())
    }

    /// Gives a complete image its name, which nothing has.
    fn name(&self, rt: HostRuntime, image: &str) -> Result<(), Status> {
        if let Err(error) = self.file.sync_all() {
            return Err(unwritten(rt, image, &error));
        }
        match fs::hard_link(&rt, self.names.half.as_str(), image) {
            Ok(()) => {
                let _ = fs::remove_file(&rt, self.names.half.as_str());
            }
            Err(error) if error.kind() == ErrorKind::AlreadyExists => {
                return Err(stands(rt, image));
            }
            Err(_) => self.copy_to(rt, image)?,
        }
        if is_sync_lost(rt, self.names.folder.as_str()) {
            let _ = fs::remove_file(&rt, image);
            let (wrong, advice) = ("its folder could not be written", "try another disk");
            return Err(tell(rt, Status::Disk, &Thing::File(image), wrong, advice));
        }
        Ok(())
    }

    /// Gives a complete image its name. Where a call ended otherwise, or the name is taken, the file is made zero and
    /// goes. Answers how the call ends.
    pub fn finish(self, rt: HostRuntime, image: &str, status: Status) -> Status {
        let named = match status {
            Status::Done | Status::Differs => self.name(rt, image),
            _ => Err(status),
        };
        match named {
            Ok(()) => status,
            Err(status) => {
                self.discard(rt);
                status
            }
        }
    }
}
