//! What is said of folders of the host.

use crate::output::say;
use crate::trouble::cause;
use box_calls::{Place, say as say_message};
use box_words::{Common, Message, Spelling, Taken, shown, terminal_text};
use host_files::{LeftOut, Remark, Reporter, Thing};
use host_folders::NoTarget;
use path_keys::Path;
use std::io::{Error, ErrorKind};

/// Says what could not be read, made or compared of a folder, in three parts.
#[derive(Drop)]
pub struct Reports<'a> {
    rt: HostRuntime,
    /// The image, as it was given.
    image: &'a str,
    /// The folder, as it was given.
    folder: &'a str,
    spelling: Spelling,
    /// Whether what cannot be packed or made is left out.
    skips: bool,
    /// Whether a line is said for each link that is left out.
    is_verbose: bool,
}

impl<'a> Reports<'a> {
    /// What is said of the folder of a call.
    pub fn new(rt: HostRuntime, place: &Place<'a>, taken: Taken, common: &Common) -> Self {
        Reports {
            rt,
            image: place.image,
            folder: place.file,
            spelling: place.spelling,
            skips: taken.skip,
            is_verbose: common.verbose,
        }
    }

    /// A path as a message has it; nothing where memory ran out.
    fn text_of(&self, path: &Path) -> Option<String> {
        let bytes = shown(self.rt.alloc(), path, self.spelling).ok()?;
        terminal_text(self.rt.alloc(), bytes.as_slice()).ok()
    }

    /// A name in a folder, as a message has it; nothing where memory ran out.
    fn name_in(&self, folder: &Path, name: &str) -> Option<String> {
        if folder.is_root() {
            return format!(in self.rt.alloc(); "/{name}").ok();
        }
        let folder = self.text_of(folder)?;
        format!(in self.rt.alloc(); "{folder}/{name}").ok()
    }

    /// Says what is wrong with something in a folder or an image.
    fn say_of(
        &self,
        larger: &str,
        thing: &str,
        remark: Remark,
        error: Option<&Error>,
    ) -> Option<()> {
        let wrong = match error {
            Some(error) => {
                format!(in self.rt.alloc(); "{}: {}", wrong_of(remark), cause(error)).ok()?
            }
            None => String::from_str(self.rt.alloc(), wrong_of(remark)).ok()?,
        };
        let message = Message {
            things: &[larger, thing],
            wrong: wrong.as_str(),
            advice: advice_of(remark, self.skips, error),
        };
        say_message(self.rt.alloc(), &message, &mut say(self.rt));
        Some(())
    }

    /// Says what is reported; nothing where memory ran out.
    fn tell(&self, thing: &Thing<'_>, remark: Remark, error: Option<&Error>) -> Option<()> {
        let larger = match remark {
            Remark::NoSpelling | Remark::NotUtf8 => self.image,
            _ => self.folder,
        };
        match thing {
            Thing::Host(name) => self.say_of("", name, remark, error),
            Thing::Path(path) => {
                let path = self.text_of(path)?;
                self.say_of(larger, path.as_str(), remark, error)
            }
            Thing::Name(folder, name) => {
                let path = self.name_in(folder, name)?;
                self.say_of(larger, path.as_str(), remark, error)
            }
        }
    }

    /// Whether something is said of what is reported: nothing is of a link that nobody wants, and of a folder in which
    /// nothing was made.
    fn is_said(&self, remark: Remark) -> bool {
        match remark {
            Remark::NotPacked(LeftOut::Link) | Remark::LinkLeftOut => self.is_verbose,
            Remark::NothingMade => false,
            _ => true,
        }
    }
}

impl Reporter for Reports<'_> {
    fn report(&mut self, thing: &Thing<'_>, remark: Remark, error: Option<&Error>) {
        if self.is_said(remark) && self.tell(thing, remark, error).is_none() {
            let message = Message {
                things: &[self.folder],
                wrong: "memory ran out",
                advice: "end other programs, and try again",
            };
            say_message(self.rt.alloc(), &message, &mut say(self.rt));
        }
    }
}

/// Why something has no place in an image.
fn unpacked_since(why: LeftOut) -> &'static str {
    match why {
        LeftOut::Link => "it is a symbolic link, and --no-links leaves it out",
        LeftOut::Target(NoTarget::Empty) => "no image can hold a link with an empty target",
        LeftOut::Target(NoTarget::TooLong) => {
            "no image can hold a link with a target of more than 255 bytes"
        }
        LeftOut::Target(NoTarget::ZeroByte) => {
            "no image can hold a link with a zero byte in its target"
        }
        LeftOut::Target(NoTarget::NotUtf8) => {
            "no image can hold a link with a target that is not UTF-8"
        }
        LeftOut::Pipe => "no image can hold a pipe",
        LeftOut::Socket => "no image can hold a socket",
        LeftOut::Device => "no image can hold a device",
        LeftOut::TooLarge => "no image can hold a file of more than 16777216 bytes",
        LeftOut::TooLong => "no image can hold so long a path",
        LeftOut::NotUtf8 => "no image can hold a name in it that is not UTF-8",
        LeftOut::TooOld => "no image can hold a time before 1970",
        LeftOut::NoRoom => "no image can hold so long a path with a mode, a time or a link",
        LeftOut::Unreadable => "it cannot be read",
        LeftOut::Own => "it is the image, or the file that is printed to",
    }
}

/// What is wrong.
fn wrong_of(remark: Remark) -> &'static str {
    match remark {
        Remark::NotPacked(why) => unpacked_since(why),
        Remark::Unreadable => "it cannot be read",
        Remark::NoHostPath => "it has no path on the host",
        Remark::NoLongerLink => "it is no longer a symbolic link",
        Remark::NoSpelling => "this system cannot have the name",
        Remark::NotUtf8 => "the name is not UTF-8, so no file can be made with it",
        Remark::NoMemory => "memory ran out",
        Remark::LinkLeftOut => "it is a symbolic link, and --no-links leaves it out",
        Remark::NotEmpty => "it is not empty, or not a folder",
        Remark::NotMade => "it cannot be made",
        Remark::NotWritten => "it cannot be written",
        Remark::ModeNotSet => "it cannot be made executable",
        Remark::TimeNotSet => "its time cannot be set",
        Remark::Stays => "it cannot be taken away again",
        Remark::NothingMade => "nothing was made in it",
        Remark::NotAllTakenAway => "not all that was made could be taken away again",
        Remark::TakenAway | Remark::TakenAwayInIt => "what was made is taken away again",
    }
}

/// What to do.
fn advice_of(remark: Remark, skips: bool, error: Option<&Error>) -> &'static str {
    match remark {
        Remark::NotPacked(LeftOut::Own | LeftOut::Link) | Remark::LinkLeftOut => "it is left out",
        Remark::NotPacked(_) if skips => "it is left out",
        Remark::NoSpelling | Remark::NotUtf8 if skips => "it is left out, with all below it",
        Remark::NotPacked(LeftOut::TooOld) => "--no-mtime ignores times, and --skip leaves it out",
        Remark::NotPacked(_) => "--skip leaves it out",
        Remark::NoSpelling | Remark::NotUtf8 => {
            "--skip leaves it out; hbox get --escaped prints a file"
        }
        Remark::NoHostPath | Remark::NoLongerLink =>
            "try again while no program changes the folder",
        Remark::NoMemory => "end other programs, and try again",
        Remark::NotEmpty => {
            "give a DIR that is absent or an empty folder; if a stopped extract made it, remove it first"
        }
        Remark::NotAllTakenAway => "remove what is left",
        Remark::Stays => "remove it yourself",
        Remark::TakenAway | Remark::TakenAwayInIt | Remark::NothingMade => {
            "see the messages above"
        }
        Remark::ModeNotSet => "--no-mode makes no file executable",
        Remark::TimeNotSet => "--no-mtime sets no times",
        Remark::Unreadable | Remark::NotMade | Remark::NotWritten => advice_after(error),
    }
}

/// What to do after the system answered so.
fn advice_after(error: Option<&Error>) -> &'static str {
    let Some(error) = error else {
        return "try again";
    };
    match error.kind() {
        ErrorKind::NotFound => "create its parent folder first",
        ErrorKind::UnexpectedEof => "try again while no program changes the folder",
        ErrorKind::PermissionDenied => "look whether you may read and write there",
        ErrorKind::StorageFull | ErrorKind::QuotaExceeded => "make room on the disk, and try again",
        ErrorKind::AlreadyExists => "give a DIR on a disk that tells such names apart",
        ErrorKind::InvalidFilename => "give a DIR on a disk that has such names",
        _ => "look whether the disk works, or give another DIR",
    }
}
