//! What the tests of several modules make.

use host_files::{Remark, Reporter, Thing};
use host_folders::{Found, FoundKind, MemEntry};
use std::alloc::Global;
use std::io::Error;
use std::process::Abort;
use tests_tools::path_of;

/// What was found at a path, with no attribute.
pub fn found(text: &str, kind: FoundKind) -> Found {
    Found {
        path: path_of(text),
        kind,
        is_executable: false,
        seconds: None,
    }
}

/// Adds what was found to the entries of a folder in memory; a file has these bytes, and a link leads there.
pub fn add(
    rt: &impl Abort,
    alloc: Global,
    entries: &mut Vec<MemEntry>,
    found: Found,
    bytes: &[u8],
) {
    let bytes = bytes.to_vec(alloc).expect(rt, "memory");
    entries.push(MemEntry { found, bytes }).expect(rt, "memory");
}

/// Reports nothing.
#[derive(Drop)]
pub struct Silent;

impl Reporter for Silent {
    fn report(&mut self, _: &Thing<'_>, _: Remark, _: Option<&Error>) {}
}
