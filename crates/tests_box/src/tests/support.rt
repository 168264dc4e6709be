//! What the tests share: images and a folder in memory, and what a call on them is told.

ghost use Rattle.std.specs.Prelude.{◌≤◌, vec_len};

use box_calls::{Packed, Place};
use box_words::{Spelling, Taken, Times};
use disk_model::MemDisk;
use dump_streams::GatheredSink;
use gate_journal::Journal;
use host_folders::{Found, FoundKind, MAX_FOUND, MemEntry, MemFolder, find_all};
use script_lines::MemSink;
use std::alloc::Global;
use std::process::Abort;
use store_base::{DrawKind, Params, image_len};
use store_core::Store;
use store_model::Version;
use tests_tools::{command_of, path_of, sink_of};

/// The slots of an image, and its bytes: 2 blocks, one of marks, and two for each slot.
pub const SLOTS: u32 = 64;

const LEN: usize = 131 * 4096;

/// The room of a disk's record, in bytes.
const ROOM: usize = 1_048_576;

/// The tree of most tests: a folder, a file of two bytes in it, and a link to the file.
pub static TREE: &str = "make /d\nwrite /d/a.txt 0 6869\nwrite /l 0 -\nset /l link 642f612e747874";

/// An image of the empty tree, of so many slots, with this draw and seed.
pub fn image_with(rt: &impl Abort, alloc: Global, slots: u32, draw: DrawKind, seed: u8) -> MemDisk {
    let params = Params::new(slots, 2, draw, [seed; 32]).expect(rt, "parameters");
    let zeros = vec![in alloc; 0; image_len(slots) as usize].expect(rt, "memory");
    let mut disk = MemDisk::new(alloc, &zeros, ROOM).expect(rt, "memory");
    Journal::format(&mut disk, &params.with_version(Version::Two)).expect(rt, "an image");
    disk
}

/// The image with this seed that these commands leave, one in a line.
pub fn image_of(rt: &impl Abort, alloc: Global, seed: u8, script: &str) -> MemDisk {
    let disk = image_with(rt, alloc, SLOTS, DrawKind::Sha256, seed);
    let mut store = Store::attach(alloc, disk).ok().expect(rt, "a store");
    for line in script.lines() {
        let _ = store.apply(&command_of(line)).expect(rt, "a reply");
    }
    store.into_disk()
}

/// A file of zeros.
pub fn zeros_of(rt: &impl Abort, alloc: Global) -> MemDisk {
    let zeros = vec![in alloc; 0; LEN].expect(rt, "memory");
    MemDisk::new(alloc, &zeros, ROOM).expect(rt, "memory")
}

/// Where the calls are made: on `x.img` and `there`.
pub fn place_in<'a>(alloc: Global, sums_up: bool) -> Place<'a> {
    Place {
        alloc,
        image: "x.img",
        file: "there",
        spelling: Spelling::Host,
        sums_up,
    }
}

/// A sink for what is said.
pub fn say_of(rt: &impl Abort, alloc: Global) -> MemSink {
    sink_of(alloc, &[]).expect(rt, "memory")
}

/// A sink for data, of which this put fails.
pub fn out_of(rt: &impl Abort, alloc: Global, failing: u64) -> GatheredSink<MemSink> {
    let sink = sink_of(alloc, &[failing]).expect(rt, "memory");
    GatheredSink::new(alloc, sink).ok().expect(rt, "memory")
}

/// Adds what stands at a path.
fn add(
    rt: &impl Abort,
    alloc: Global,
    entries: &mut Vec<MemEntry>,
    path: &str,
    kind: FoundKind,
    bytes: &str,
) {
    let found = Found {
        path: path_of(path),
        kind,
        is_executable: false,
        seconds: None,
    };
    let bytes = bytes.as_bytes().to_vec(alloc).expect(rt, "memory");
    entries.push(MemEntry { found, bytes }).expect(rt, "memory");
}

/// The folder of the tree, with these two bytes in its file. This call of it fails: behind the lists of the root and of
/// `/d` the file is opened, read, and read once more for its end, and the link is asked.
pub fn folder_of(rt: &impl Abort, alloc: Global, bytes: &str, failing: u64) -> MemFolder {
    let mut entries = Vec::new(alloc);
    add(rt, alloc, &mut entries, "/d", FoundKind::Folder, "");
    let file = FoundKind::File(2);
    add(rt, alloc, &mut entries, "/d/a.txt", file, bytes);
    add(rt, alloc, &mut entries, "/l", FoundKind::Link, "d/a.txt");
    MemFolder::new(entries, 4096, [failing].to_vec(alloc).expect(rt, "memory"))
}

/// The folder as a call takes it, where so many obstacles were met, which are skipped or not.
pub fn packed_of(
    rt: &impl Abort,
    alloc: Global,
    folder: MemFolder,
    obstacles: u64,
    skip: bool,
) -> Packed<MemFolder>
    ensures { vec_len result.found ≤ MAX_FOUND }
{
    let mut folder = folder;
    let found = find_all(alloc, &mut folder).ok().expect(rt, "a folder");
    Packed {
        folder,
        found,
        left_out: obstacles,
        taken: Taken {
            skip,
            no_mode: false,
            no_links: false,
            times: Times::AsImage,
        },
    }
}
