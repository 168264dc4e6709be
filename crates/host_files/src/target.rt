//! Links of the host that are read.

ghost use Rattle.std.specs.Prelude.{IfOk, IsTrue};
ghost use Rattle.host_builder.specs.HostAttributes.{is_target};

use host_folders::{LinkTarget, NoTarget};
use std::fs;
use std::io::{self, ErrorKind};

/// Where the link at a path of the host leads, or why an image cannot hold that. The link is not followed.
pub fn read_target(rt: &HostRuntime, path: &str) -> io::Result<Result<LinkTarget, NoTarget>>
    ensures { IfOk result (λ read. IfOk read (λ target. IsTrue (is_target target))) }
{
    match fs::read_link(rt, path) {
        Ok(text) => Ok(LinkTarget::parse(text.as_str().as_bytes())),
        Err(error) if error.kind() == ErrorKind::InvalidFilename => Ok(Err(NoTarget::NotUtf8)),
        Err(error) => Err(error),
    }
}
