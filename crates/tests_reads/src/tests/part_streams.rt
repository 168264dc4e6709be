//! The steps of what is at a path of a store, and of what is below it.

use super::support::{FailingStore, calm_disk, image_of, params_of};
use disk_model::MemDisk;
use dump_streams::write_dump;
use std::alloc::Global;
use std::process::Abort;
use std::slice;
use store_core::Store;
use store_stream::{PartsStream, RootedStream};
use tests_tools::{path_of, sink_of};

/// A tree with a folder in a folder, and what stands before and behind them.
const SCRIPT: &str =
    "make /a\nset /a k 01\nmake /a/b\nset /a/b k 02\nwrite /a/b/f 0 4142\nmake /a/b/g\nmake /a/bb\n\
    make /c\n";

/// The store of an image.
fn store_of(rt: &impl Abort, alloc: Global, image: &MemDisk) -> FailingStore {
    let disk = calm_disk(rt, alloc, image);
    Store::attach(alloc, disk).ok().expect(rt, "a store")
}

/// Looks whether the dump of the part of an image at a path has these lines.
fn expect_part(rt: &impl Abort, alloc: Global, image: &MemDisk, path: &str, lines: &str) {
    let at = path_of(path);
    let mut stream = PartsStream::new(store_of(rt, alloc, image), slice::from_ref(&at));
    let (sink, ended) = write_dump(&mut stream, sink_of(alloc, &[]).expect(rt, "memory"));
    let _ = stream.into_store().into_disk();
    assert!(rt;
        ended.is_ok() && sink.written() == lines.as_bytes(),
        "{path}"
    );
}

/// Looks whether the dump of what is below a path, with it for the root, has these lines.
fn expect_below(rt: &impl Abort, alloc: Global, image: &MemDisk, path: &str, lines: &str) {
    let at = path_of(path);
    let stream = PartsStream::new(store_of(rt, alloc, image), slice::from_ref(&at));
    let mut rooted = RootedStream::new(stream, at);
    let (sink, ended) = write_dump(&mut rooted, sink_of(alloc, &[]).expect(rt, "memory"));
    let _ = rooted.into_stream().into_store().into_disk();
    assert!(rt;
        ended.is_ok() && sink.written() == lines.as_bytes(),
        "{path}"
    );
}

#[test]
fn a_folder_with_its_parents(rt: HostRuntime) {
    let image = image_of(&rt, rt.alloc(), &params_of(&rt, 16), SCRIPT);
    let part = "make /a\nmake /a/b\nset /a/b k 02\nwrite /a/b/f 0 4142\nmake /a/b/g\n";
    expect_part(&rt, rt.alloc(), &image, "/a/b", part);
    expect_part(
        &rt,
        rt.alloc(),
        &image,
        "/a/b/f",
        "make /a\nmake /a/b\nwrite /a/b/f 0 4142\n",
    );
    expect_part(&rt, rt.alloc(), &image, "/c", "make /c\n");
    // What stands nowhere.
    expect_part(&rt, rt.alloc(), &image, "/b", "");
}

#[test]
fn a_folder_for_the_root(rt: HostRuntime) {
    let image = image_of(&rt, rt.alloc(), &params_of(&rt, 16), SCRIPT);
    expect_below(
        &rt,
        rt.alloc(),
        &image,
        "/a/b",
        "write /f 0 4142\nmake /g\n",
    );
    expect_below(&rt, rt.alloc(), &image, "/a/b/f", "");
    expect_below(&rt, rt.alloc(), &image, "/c", "");
}
