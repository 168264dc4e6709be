//! What the tests share: a folder in memory, and the image of the empty tree.

use disk_model::MemDisk;
use gate_journal::Journal;
use host_folders::{Found, FoundKind, MemEntry, MemFolder};
use std::alloc::Global;
use std::process::Abort;
use store_base::{Params, image_len};
use tests_tools::{path_of, zero_disk};

/// The bytes of the long file, of which no two of its blocks have the same.
pub fn long_bytes() -> [u8; 2100] {
    let mut bytes = [0; 2100];
    for (at, byte) in bytes.iter_mut().enumerate() {
        *byte = (at % 251) as u8;
    }
    bytes
}

/// The image of the empty tree.
pub fn formatted(rt: &impl Abort, alloc: Global, params: &Params) -> MemDisk {
    let mut disk = zero_disk(alloc, image_len(params.slots())).expect(rt, "memory");
    Journal::format(&mut disk, params).expect(rt, "an image");
    disk
}

/// Adds what stands at a path. A file has these bytes, and a link leads there.
fn add(
    rt: &impl Abort,
    alloc: Global,
    entries: &mut Vec<MemEntry>,
    path: &str,
    kind: FoundKind,
    bytes: &[u8],
) {
    let is_marked = path == "/d/fU";
    let found = Found {
        path: path_of(path),
        kind,
        is_executable: is_marked,
        seconds: is_marked.then_some(7),
    };
    let bytes = bytes.to_vec(alloc).expect(rt, "memory");
    entries.push(MemEntry { found, bytes }).expect(rt, "memory");
}

/// The folder of the tests, whose long file was found with so many bytes. It lists its entries in this order, or the
/// last one first, and these calls of it fail. A read gives a thousand bytes at most.
pub fn folder_of(
    rt: &impl Abort,
    alloc: Global,
    len: u32,
    is_turned: bool,
    failing: u64,
) -> MemFolder {
    let mut entries = Vec::new(alloc);
    add(rt, alloc, &mut entries, "/d", FoundKind::Folder, b"");
    add(rt, alloc, &mut entries, "/d/fU", FoundKind::File(2), b"hi");
    add(rt, alloc, &mut entries, "/l", FoundKind::Link, b"d/fU");
    add(
        rt,
        alloc,
        &mut entries,
        "/mU",
        FoundKind::File(len),
        &long_bytes(),
    );
    add(rt, alloc, &mut entries, "/z", FoundKind::File(0), b"");
    if is_turned {
        entries.reverse();
    }
    MemFolder::new(entries, 1_000, [failing].to_vec(alloc).expect(rt, "memory"))
}
