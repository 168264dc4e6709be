//! An image of one slot that holds `/a`, with its commit broken off by a crash after the flag. The places were worked
//! out by hand: gate block 4,096, marks 8,192, shadow 12,288, table 16,384.

use super::support::{formatted, put};
use disk_model::MemDisk;
use image_summary::{Summary, SummaryFault, sum_up};
use path_keys::Path;
use recovered_store::attach_recovered;
use script_lines::Command;
use std::alloc::Global;
use std::process::Abort;
use store_base::{DrawKind, Params};
use store_core::{ApplyFault, AttachFault, Store};
use store_model::BLOCK;
use tests_tools::zero_disk;

/// The bytes of the image.
const LEN: usize = 20_480;

/// The image of the empty tree.
fn empty(rt: &impl Abort, alloc: Global) -> MemDisk {
    let params = Params::new(1, 1, DrawKind::Ruler, [7; 32]).expect(rt, "parameters");
    formatted(rt, alloc, &params)
}

/// A command that makes a folder at this path.
fn make(rt: &impl Abort, path: &str) -> Command {
    Command::Make(Path::parse(path.as_bytes()).expect(rt, "a path"))
}

/// The page of the tree that has the folder `/a`.
fn page(rt: &impl Abort, alloc: Global) -> [u8; BLOCK] {
    let mut store = Store::attach(alloc, empty(rt, alloc))
        .ok()
        .expect(rt, "a store");
    store.apply(&make(rt, "/a")).expect(rt, "a reply");
    let disk = store.into_disk();
    let mut page = [0; BLOCK];
    assert!(rt; disk.bytes().len() == LEN);
    page.copy_from_slice(&disk.bytes()[16_384..16_384 + BLOCK]);
    page
}

/// The image of the empty tree, in which the commit of `/a` was broken off.
fn broken_off(rt: &impl Abort, alloc: Global) -> MemDisk {
    let mut disk = empty(rt, alloc);
    put(rt, &mut disk, 12_288, &page(rt, alloc));
    put(rt, &mut disk, 8_192, &[1]);
    put(rt, &mut disk, 4_096, &[1]);
    disk
}

#[test]
fn a_pending_commit_is_read(rt: HostRuntime) {
    let disk = broken_off(&rt, rt.alloc());
    let mut store = attach_recovered(rt.alloc(), disk)
        .ok()
        .expect(&rt, "a store");
    assert!(&rt; store.used() == 1);
    let fault = store.apply(&make(&rt, "/b")).err();
    assert!(&rt; fault == Some(ApplyFault::Disk));
    let disk = store.into_disk().into_slots().into_disk();
    let untouched = broken_off(&rt, rt.alloc());
    assert!(&rt; disk.bytes() == untouched.bytes());
    assert!(&rt; disk.write_count() == untouched.write_count());
    assert!(&rt; disk.sync_count() == untouched.sync_count());
}

/// Why a disk was not made a store; nothing where it was.
fn fault_of(alloc: Global, disk: MemDisk) -> Option<AttachFault> {
    match attach_recovered(alloc, disk) {
        Ok(store) => {
            let _ = store.into_disk();
            None
        }
        Err((fault, _)) => Some(fault),
    }
}

#[test]
fn what_is_no_image_is_refused(rt: HostRuntime) {
    let zeros = zero_disk(rt.alloc(), 20_480).expect(&rt, "memory");
    assert!(&rt; fault_of(rt.alloc(), zeros) == Some(AttachFault::NotImage));
    let mut damaged = empty(&rt, rt.alloc());
    put(&rt, &mut damaged, 16_384, &[1]);
    assert!(&rt; fault_of(rt.alloc(), damaged) == Some(AttachFault::Damaged));
}

/// What a disk is summed up to.
fn summary_of(disk: MemDisk) -> Result<Summary, SummaryFault> {
    let (_, found) = sum_up(disk);
    found
}

#[test]
fn an_image_is_summed_up(rt: HostRuntime) {
    let plain = summary_of(empty(&rt, rt.alloc()))
        .ok()
        .expect(&rt, "a summary");
    assert!(&rt; !plain.is_pending);
    assert!(&rt; plain.contents.used == 0);
    let pending = summary_of(broken_off(&rt, rt.alloc()))
        .ok()
        .expect(&rt, "a summary");
    assert!(&rt; pending.is_pending);
    assert!(&rt; pending.contents.used == 1);
    assert!(&rt; pending.contents.counts.dirs == 1);
    assert!(&rt; pending.digest != plain.digest);
    let zeros = zero_disk(rt.alloc(), 20_480).expect(&rt, "memory");
    assert!(&rt; summary_of(zeros).err() == Some(SummaryFault::NotImage));
}
