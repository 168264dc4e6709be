//! Plain files that are opened to be read.

ghost use Rattle.std.specs.Prelude.{◌≤◌, length, IfOk};

use std::fs::{self, File};
use std::io::{Error, ErrorKind, Read, Result};
use std::os::unix::fs::MetadataExt;

/// Opens a plain file, and nothing else, and tells how many bytes it has. What is no file is not opened, since a pipe
/// would wait for its other end. A link is not followed. If the path leads to another file by then, that is an error.
pub fn open_plain(rt: &HostRuntime, path: &str) -> Result<(File, u64)> {
    let found = fs::symlink_metadata(rt, path)?;
    if !found.is_file() {
        return Err(Error::from(ErrorKind::InvalidInput));
    }
    let file = File::open(rt, path)?;
    let opened = file.metadata()?;
    if !opened.is_file() || opened.dev() != found.dev() || opened.ino() != found.ino() {
        return Err(Error::from(ErrorKind::InvalidInput));
    }
    Ok((file, opened.len()))
}

/// Reads once, and again where a read was interrupted.
pub fn read_some<R: Read>(reader: &mut R, into: &mut [u8]) -> Result<usize>
    ensures { IfOk result (λ count. count ≤ length into.new) }
{
    for _ in 0..u64::MAX {
        match reader.read(into) {
            Err(error) if error.kind() == ErrorKind::Interrupted => {}
            answer => return answer,
        }
    }
    Err(Error::from(ErrorKind::Interrupted))
}
