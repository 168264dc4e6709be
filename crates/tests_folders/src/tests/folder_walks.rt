//! A folder in memory is gone through, worked out by hand.

use super::support::{add, found};
use host_folders::{FindFault, Found, FoundKind, MemEntry, MemFolder, find_all};
use std::alloc::Global;
use std::process::Abort;
use tests_tools::path_of;

/// Adds an entry at each of these paths.
fn add_all(
    rt: &impl Abort,
    alloc: Global,
    entries: &mut Vec<MemEntry>,
    paths: &str,
    kind: FoundKind,
) {
    for text in paths.split('|') {
        add(rt, alloc, entries, found(text, kind), b"");
    }
}

/// What is found in folders `b` and `b/d`, an empty folder `e`, files, and a link `c`, in no order, where this call
/// fails. A file `b-x` stands behind what is in `b`. The file `a` is told twice.
fn found_in(rt: &impl Abort, alloc: Global, failing: u64) -> Result<Vec<Found>, FindFault> {
    let mut entries = Vec::new(alloc);
    add_all(rt, alloc, &mut entries, "/e|/b/d|/b", FoundKind::Folder);
    add_all(
        rt,
        alloc,
        &mut entries,
        "/a|/b/d/f|/b-x|/b/c|/a",
        FoundKind::File(3),
    );
    add_all(rt, alloc, &mut entries, "/c", FoundKind::Link);
    let failing = [failing].to_vec(alloc).expect(rt, "memory");
    find_all(alloc, &mut MemFolder::new(entries, 2, failing))
}

/// Whether these paths were found, in this order.
fn are_found(found: &[Found], paths: &str) -> bool {
    for (one, text) in found.iter().zip(paths.split('|')) {
        if one.path != path_of(text) {
            return false;
        }
    }
    true
}

#[test]
fn all_is_found_in_the_order_of_paths(rt: HostRuntime) {
    // Four folders are listed: a fifth call, which would fail, is not made.
    let found = found_in(&rt, rt.alloc(), 4).expect(&rt, "a folder");
    assert!(rt; found.len() == 8 && are_found(&found, "/a|/b|/b/c|/b/d|/b/d/f|/b-x|/c|/e"));
}

#[test]
fn a_folder_that_cannot_be_listed_is_told(rt: HostRuntime) {
    for failing in 0..4u64 {
        let fault = found_in(&rt, rt.alloc(), failing).err();
        assert!(rt; fault == Some(FindFault::Unreadable), "call {failing}");
    }
}
