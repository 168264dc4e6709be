//! What the tests share: images in memory, which a store made.

use disk_model::{Disk, FailingDisk, MemDisk};
use gate_journal::Journal;
use std::alloc::Global;
use std::process::Abort;
use store_base::{DrawKind, Params, image_len};
use store_core::Store;
use store_model::Version;
use tests_tools::{NEVER, command_of, disk_of, zero_disk};

/// A store over a disk that may fail.
pub type FailingStore = Store<FailingDisk<MemDisk>>;

/// The parameters of an image of version 2 with so many slots, two levels, and a seed of zeros.
pub fn params_of(rt: &impl Abort, slots: u32) -> Params {
    let params = Params::new(slots, 2, DrawKind::Ruler, [0; 32]).expect(rt, "parameters");
    params.with_version(Version::Two)
}

/// The image of the empty tree.
pub fn formatted(rt: &impl Abort, alloc: Global, params: &Params) -> MemDisk {
    let mut disk = zero_disk(alloc, image_len(params.slots())).expect(rt, "memory");
    Journal::format(&mut disk, params).expect(rt, "an image");
    disk
}

/// The image that these commands leave, one in a line.
pub fn image_of(rt: &impl Abort, alloc: Global, params: &Params, script: &str) -> MemDisk {
    let disk = formatted(rt, alloc, params);
    let mut store = Store::attach(alloc, disk).ok().expect(rt, "a store");
    for line in script.lines() {
        let _ = store.apply(&command_of(line)).expect(rt, "a reply");
    }
    store.into_disk()
}

/// A disk with the bytes of this one, of which this call fails.
pub fn failing_disk(
    rt: &impl Abort,
    alloc: Global,
    image: &MemDisk,
    call: u64,
) -> FailingDisk<MemDisk> {
    disk_of(alloc, image.bytes(), &[call], None).expect(rt, "memory")
}

/// A disk with the bytes of this one, of which no call fails.
pub fn calm_disk(rt: &impl Abort, alloc: Global, image: &MemDisk) -> FailingDisk<MemDisk> {
    failing_disk(rt, alloc, image, NEVER)
}

/// Writes bytes to a disk that has a place for them.
pub fn put(rt: &impl Abort, disk: &mut MemDisk, at: u64, bytes: &[u8]) {
    let len = disk.len();
    assert!(rt; bytes.len() as u64 <= len && at <= len - bytes.len() as u64);
    disk.write_at(at, bytes).expect(rt, "room");
}
