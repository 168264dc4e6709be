//! An image of four slots, with a commit that a crash broke off after its flag, is read as recovery would leave it. The
//! places were worked out by hand: gate block 4,096, marks 8,192, shadow 12,288, table 28,672.

use super::support::{formatted, put};
use disk_model::{Disk, MemDisk};
use gate_journal::{Journal, View};
use recovered_store::{SlotsDisk, ViewFault, open_recovered};
use std::alloc::Global;
use std::process::Abort;
use store_base::{DrawKind, Params, image_len};
use store_model::BLOCK;
use tests_tools::zero_disk;

/// Reads the bytes of a disk that has a place for them.
fn get<D: Disk>(rt: &impl Abort, disk: &mut D, at: u64, into: &mut [u8]) {
    let len = disk.len();
    assert!(rt; into.len() as u64 <= len && at <= len - into.len() as u64);
    disk.read_at(at, into).expect(rt, "a read");
}

/// A formatted image with a commit that was broken off: slot 1 is marked, and slot 2 has a shadow but no mark.
fn broken_off(rt: &impl Abort, alloc: Global) -> MemDisk {
    let params = Params::new(4, 1, DrawKind::Ruler, [7; 32]).expect(rt, "parameters");
    let mut disk = formatted(rt, alloc, &params);
    put(rt, &mut disk, 32_768, &[1; BLOCK]);
    put(rt, &mut disk, 36_864, &[2; BLOCK]);
    put(rt, &mut disk, 16_384, &[3; BLOCK]);
    put(rt, &mut disk, 20_480, &[4; BLOCK]);
    put(rt, &mut disk, 8_193, &[1]);
    put(rt, &mut disk, 4_096, &[1]);
    disk
}

/// The recovered image of a disk that has one.
fn opened(rt: &impl Abort, disk: MemDisk) -> SlotsDisk<View<MemDisk>> {
    open_recovered(disk).ok().expect(rt, "an image")
}

/// Looks whether a read of so many bytes at a place of the disk gives those that stand there.
fn expect_part<D: Disk>(rt: &impl Abort, disk: &mut D, bytes: &[u8], at: u64, len: usize) {
    let mut room = [0; 9000];
    assert!(rt; len <= room.len() && at <= bytes.len() as u64);
    assert!(rt; len <= bytes.len() - at as usize);
    get(rt, disk, at, &mut room[..len]);
    assert!(rt; room[..len] == bytes[at as usize..at as usize + len]);
}

#[test]
fn what_recovery_would_leave_is_read(rt: HostRuntime) {
    let mut recovered = broken_off(&rt, rt.alloc());
    let params = Params::new(4, 1, DrawKind::Ruler, [7; 32]).expect(&rt, "parameters");
    assert!(&rt; recovered.len() == image_len(params.slots()));
    Journal::recover(&mut recovered, &params).expect(&rt, "a recovery");
    let wanted = Vec::from_slice(rt.alloc(), recovered.bytes()).expect(&rt, "memory");
    assert!(&rt; wanted.get(32_768) == Some(&3) && wanted.get(36_864) == Some(&2));
    let mut view = opened(&rt, broken_off(&rt, rt.alloc()));
    for (at, len) in [
        (0, 9000),
        (4_090, 12),
        (4_096, 1),
        (8_192, 4),
        (16_382, 4_100),
        (28_667, 8_200),
        (32_768, 8_192),
        (32_768, 4_097),
        (36_863, 2),
        (45_055, 1),
        (7, 0),
    ] {
        expect_part(&rt, &mut view, &wanted, at, len);
    }
}

#[test]
fn a_write_is_a_fault(rt: HostRuntime) {
    let mut view = opened(&rt, broken_off(&rt, rt.alloc()));
    assert!(&rt; view.len() >= 1 && view.write_at(0, b"x").is_err());
    assert!(&rt; view.sync().is_ok());
    let mut first = [0];
    get(&rt, &mut view, 0, &mut first);
    let disk = view.into_slots().into_disk();
    let untouched = broken_off(&rt, rt.alloc());
    assert!(&rt; first == [b'H'] && disk.bytes() == untouched.bytes());
    assert!(&rt; disk.write_count() == untouched.write_count());
    assert!(&rt; disk.sync_count() == untouched.sync_count());
}

#[test]
fn zeros_are_no_image(rt: HostRuntime) {
    match open_recovered(zero_disk(rt.alloc(), 4_096).expect(&rt, "memory")) {
        Err((fault, _)) => assert!(&rt; fault == ViewFault::NotImage),
        Ok(_) => assert!(&rt; false),
    }
}
