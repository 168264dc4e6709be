//! Pairs of listings written by hand, with their differences and the very script from one to the other; and streams and
//! a sink that fail.

use dump_diff::{
    AdditionTaker, CompareFault, Differences, compare, write_differences, write_removals,
};
use dump_streams::{DrainFault, StreamFault, TakerFault, drain};
use script_lines::{MemSink, SinkFault};
use std::alloc::Global;
use std::process::Abort;
use tests_tools::{NEVER, fields, listing_of, sink_of};

/// How many bytes a source gives at a time.
const PIECE: usize = 10;

/// Folders, files and attributes.
static FIRST: &[u8] =
    b"make /a\nset /a k 01\nset /a l 02\nwrite /a/b 0 61\nwrite /c 0 6263\nmake /d\nwrite /d/e 0 -\n";

/// The differences of two listings.
fn found_in(rt: &impl Abort, alloc: Global, first: &[u8], second: &[u8]) -> Differences {
    let mut first = listing_of(alloc, first, PIECE, NEVER).expect(rt, "memory");
    let mut second = listing_of(alloc, second, PIECE, NEVER).expect(rt, "memory");
    compare(alloc, &mut first, &mut second)
        .ok()
        .expect(rt, "two listings")
}

/// Whether the differences are told by these lines.
fn are_told(rt: &impl Abort, alloc: Global, found: &Differences, lines: &[u8]) -> bool {
    let mut sink = sink_of(alloc, &[]).expect(rt, "memory");
    let is_told = write_differences(found, &mut sink).is_ok();
    is_told & (sink.written() == lines) & (found.is_empty() == lines.is_empty())
}

/// A sink to which the removals are written.
fn removed(rt: &impl Abort, alloc: Global, found: &Differences) -> MemSink {
    let mut sink = sink_of(alloc, &[]).expect(rt, "memory");
    write_removals(found, &mut sink).ok().expect(rt, "a sink");
    sink
}

/// Whether this is the script that leads to the second listing.
fn is_script(
    rt: &impl Abort,
    alloc: Global,
    found: Differences,
    second: &[u8],
    script: &[u8],
) -> bool {
    let sink = removed(rt, alloc, &found);
    let mut taker = AdditionTaker::new(found, sink);
    let drained = drain(
        &mut listing_of(alloc, second, PIECE, NEVER).expect(rt, "memory"),
        &mut taker,
    );
    drained.is_ok() & (taker.into_sink().written() == script)
}

/// Whether the listings differ as these lines say, and this script leads from the first to the second.
fn differ_so(
    rt: &impl Abort,
    alloc: Global,
    first: &[u8],
    second: &[u8],
    lines: &[u8],
    script: &[u8],
) -> bool {
    let found = found_in(rt, alloc, first, second);
    are_told(rt, alloc, &found, lines) && is_script(rt, alloc, found, second, script)
}

/// Rows parted by `#`: two listings, the lines that tell their differences, and the script from one to the other. An
/// entry goes and another one comes, a path has another kind, and attributes differ.
const PAIRS: &str = "make /a\nwrite /a-b 0 61\n|\
    make /a\nwrite /a/b 0 61\n|\
    A /a/b\nD /a-b\n|\
    prune /a-b\nwrite /a/b 0 61\n#\
    make /a\nset /a k 01\nmake /a/b\nwrite /a/b/c 0 61\n|\
    write /a 0 62\nset /a k 01\n|\
    M /a\nD /a/b\nD /a/b/c\n|\
    prune /a\nwrite /a 0 62\nset /a k 01\n#\
    make /a\nset /a k 01\nset /a l 02\nset /a m 03\n|\
    make /a\nset /a k 01\nset /a l 04\nset /a n 05\n|\
    M /a\n|\
    unset /a l\nunset /a m\nset /a l 04\nset /a n 05\n#\
    write /a 0 61\nset /a k 01\nset /a l 01\n|\
    write /a 0 62\nset /a k 02\nset /a l 01\n|\
    M /a\n|\
    cut /a 0\nunset /a k\nwrite /a 0 62\nset /a k 02\n";

/// Looks whether two listings differ so as a row says.
fn expect_row(rt: &impl Abort, alloc: Global, row: &str) {
    let [first, second, lines, script, ..] = fields(row);
    let is_so = differ_so(
        rt,
        alloc,
        first.as_bytes(),
        second.as_bytes(),
        lines.as_bytes(),
        script.as_bytes(),
    );
    assert!(rt; is_so, "{row}");
}

#[test]
fn listings_differ_so(rt: HostRuntime) {
    for row in PAIRS.split('#') {
        expect_row(&rt, rt.alloc(), row);
    }
}

/// How the comparison of two listings ends whose sources fail at these takes.
fn fault_of(rt: &impl Abort, alloc: Global, first: u64, second: u64) -> Option<CompareFault> {
    let mut one = listing_of(alloc, FIRST, PIECE, first).expect(rt, "memory");
    let mut other = listing_of(alloc, FIRST, PIECE, second).expect(rt, "memory");
    compare(alloc, &mut one, &mut other).err()
}

#[test]
fn a_stream_fails_midway(rt: HostRuntime) {
    let first = fault_of(&rt, rt.alloc(), 4, NEVER);
    assert!(rt; first == Some(CompareFault::First(StreamFault::Unreadable)));
    let second = fault_of(&rt, rt.alloc(), NEVER, 4);
    assert!(rt; second == Some(CompareFault::Second(StreamFault::Unreadable)));
}

/// Whether the differences are not told, nor removals written, where the second put fails.
fn fail_to_be_written(rt: &impl Abort, alloc: Global, found: &Differences) -> bool {
    let told = write_differences(found, &mut sink_of(alloc, &[1]).expect(rt, "memory"));
    let removed = write_removals(found, &mut sink_of(alloc, &[1]).expect(rt, "memory"));
    (told == Err(SinkFault)) & (removed == Err(SinkFault))
}

/// How additions end where the first put fails.
fn additions_end(rt: &impl Abort, alloc: Global, found: Differences) -> Result<(), DrainFault> {
    let mut taker = AdditionTaker::new(found, sink_of(alloc, &[0]).expect(rt, "memory"));
    let mut stream = listing_of(alloc, b"make /z\n", PIECE, NEVER).expect(rt, "memory");
    drain(&mut stream, &mut taker)
}

#[test]
fn a_sink_fails(rt: HostRuntime) {
    let found = found_in(&rt, rt.alloc(), FIRST, b"make /z\n");
    assert!(rt; fail_to_be_written(&rt, rt.alloc(), &found));
    let ended = additions_end(&rt, rt.alloc(), found);
    assert!(rt; ended == Err(DrainFault::Taker(TakerFault::Failed)));
}
