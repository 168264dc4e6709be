//! Calls of a disk and of a sink that fail while the picture of an image is written, which was worked out by hand.

use slot_map::{MapFault, write_map};
use std::alloc::Global;
use std::process::Abort;
use tests_tools::{NEVER, disk_of, sink_of};

/// An image that docs/FORMAT.md works out, `/Ua` and `/UU` on four slots of height 2: the bytes that are not zero, each
/// run of them behind its place. Its commit flag is set besides.
static MARKED: [(usize, &[u8]); 11] = [
    (0, b"HSTORE01\x00\x00\x00\x04\x02\x00\x01"),
    (4_096, b"\x01"),
    (28_672, b"\x01\x00\x01Ua"),
    (28_803, b"\x01Ua"),
    (28_928, b"\x00\x01\x01"),
    (32_768, b"\x01\x01"),
    (32_899, b"\x02UU"),
    (33_024, b"Ua"),
    (40_960, b"\x01\x00\x01UU"),
    (41_091, b"\x01UU"),
    (41_216, b"\x00\x01\x01"),
];

/// Its length.
const MARKED_LEN: usize = 45_056;

/// Its picture, which takes six puts.
const PICTURE: &[u8] = b"hstore image, version 1, 4 slots, 3 used, height 2, ruler\n\
    gate 01: a commit is under way\n\
    000000  01.0\n\
    marks: they count, since the gate is set\n\
    000000  ....\n\
    version .\n";

/// Writes bytes at a place.
fn put(image: &mut [u8], at: usize, bytes: &[u8]) {
    for (place, byte) in image.iter_mut().skip(at).zip(bytes) {
        *place = *byte;
    }
}

/// The bytes of the image.
fn image_of(rt: &impl Abort, alloc: Global) -> Vec<u8> {
    let mut image = vec![in alloc; 0; MARKED_LEN].expect(rt, "memory");
    for (at, bytes) in &MARKED {
        put(&mut image, *at, bytes);
    }
    image
}

/// How the picture is written where this call of the disk fails, and this put, and whether nothing was written, and
/// all.
fn written(
    rt: &impl Abort,
    alloc: Global,
    image: &[u8],
    call: u64,
    failing: u64,
) -> (Result<(), MapFault>, bool, bool) {
    let mut disk = disk_of(alloc, image, &[call], None).expect(rt, "memory");
    let mut sink = sink_of(alloc, &[failing]).expect(rt, "memory");
    let ended = write_map(&mut disk, &mut sink);
    let written = sink.written();
    assert!(rt;
        PICTURE.starts_with(written),
        "call {call} or put {failing}"
    );
    (ended, written.is_empty(), written == PICTURE)
}

// The header, the flag and the mark of the version are read for the parameters, and then the flag, the marks and four
// slots.
#[test]
fn each_read_that_fails_is_told(rt: HostRuntime) {
    let image = image_of(&rt, rt.alloc());
    for call in 0..9u64 {
        let came = written(&rt, rt.alloc(), &image, call, NEVER);
        assert!(rt; came == (Err(MapFault::Disk), true, false), "{call}");
    }
    assert!(rt; written(&rt, rt.alloc(), &image, 9, NEVER) == (Ok(()), false, true));
}

#[test]
fn each_put_that_fails_is_told(rt: HostRuntime) {
    let image = image_of(&rt, rt.alloc());
    for failing in 0..6u64 {
        let came = written(&rt, rt.alloc(), &image, NEVER, failing);
        assert!(rt;
            came == (Err(MapFault::Sink), failing == 0, false),
            "{failing}"
        );
    }
    assert!(rt; written(&rt, rt.alloc(), &image, NEVER, 6) == (Ok(()), false, true));
}
