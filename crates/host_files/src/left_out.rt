//! Why something of a folder is not packed.

use host_folders::NoTarget;
use std::fs::FileType;
use std::os::unix::fs::FileTypeExt;

/// Why something of a folder is not packed.
#[derive(Clone, Copy, Debug, PartialEq, Eq)]
pub enum LeftOut {
    /// It is a symbolic link, and links are not packed.
    Link,
    /// It is a symbolic link, and no image can hold where it leads.
    Target(NoTarget),
    /// It is a pipe with a name.
    Pipe,
    /// It is a socket.
    Socket,
    /// It is a device, or something that the system knows besides.
    Device,
    /// It is a file of more than 16,777,216 bytes.
    TooLarge,
    /// Its path in the image would have more than 120 bytes.
    TooLong,
    /// Its name is no UTF-8.
    NotUtf8,
    /// It was changed before 1970, and times are packed.
    TooOld,
    /// Its path and the name of an attribute that is packed have more than 118 bytes.
    NoRoom,
    /// It cannot be read.
    Unreadable,
    /// The program itself works on it.
    Own,
}

impl LeftOut {
    /// Why that which is neither a folder nor a plain file is left out.
    pub fn of_kind(kind: FileType) -> LeftOut {
        if kind.is_symlink() {
            LeftOut::Link
        } else if kind.is_fifo() {
            LeftOut::Pipe
        } else if kind.is_socket() {
            LeftOut::Socket
        } else {
            LeftOut::Device
        }
    }
}
