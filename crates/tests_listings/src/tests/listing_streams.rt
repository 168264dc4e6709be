//! Listings written by hand, in pieces of several sizes, good and bad, and sources and sinks that fail.

use dump_streams::{
    DrainFault, DumpStep, DumpStream, GatheredSink, LineTaker, ListingSource, ListingStream,
    NoTaker, StreamFault, TakerFault, drain,
};
use script_lines::{MemSink, MemSource, Sink, Source};
use std::alloc::Global;
use std::process::Abort;
use tests_tools::{NEVER, listing_of, long_listing, number, sink_of};

/// A listing with attributes, as `dump` writes it.
static LISTING: &[u8] =
    b"make /a\nset /a k 616263\nset /a l -\nwrite /a/b 0 00ff\nset /a/b k 01\nwrite /c 0 -\n";

/// The same with what a listing may have besides.
static LOOSE: &[u8] =
    b"\nmake /a\nset /a k 616263\nset /a l -\n\n\nwrite /a/b 0 00Ff\nset /a/b k 01\nwrite /c 0 -";

/// Whether the steps of the text are those of a dump, which is written so.
fn is_written(rt: &impl Abort, alloc: Global, text: &[u8], piece: usize, written: &[u8]) -> bool {
    let mut stream = listing_of(alloc, text, piece, NEVER).expect(rt, "memory");
    let mut taker = LineTaker::new(sink_of(alloc, &[]).expect(rt, "memory"));
    let drained = drain(&mut stream, &mut taker);
    drained == Ok(()) && taker.into_sink().written() == written
}

/// The number of the line that is refused, told after the lines behind it were read; 0 where none is.
fn refused_line(rt: &impl Abort, alloc: Global, text: &[u8]) -> u64 {
    let mut stream = listing_of(alloc, text, 5, NEVER).expect(rt, "memory");
    let drained = drain(&mut stream, &mut NoTaker);
    let is_refused = drained == Err(DrainFault::Stream(StreamFault::NoDump));
    if is_refused && stream.read_to_end() == Ok(()) {
        stream.line()
    } else {
        0
    }
}

/// How many bytes a source gives first, in one run after another.
static PIECES: [usize; 3] = [1, 7, 4096];

#[test]
fn listings_in_pieces_are_written_again(rt: HostRuntime) {
    for piece in &PIECES {
        assert!(rt; is_written(&rt, rt.alloc(), LOOSE, *piece, LISTING));
    }
    let long = long_listing(rt.alloc()).expect(&rt, "memory");
    assert!(rt; is_written(&rt, rt.alloc(), &long, 1000, &long));
}

/// Texts that are no listing, parted by `#`, each behind the number of the line that is refused.
const NO_DUMPS: &str = "2|make /a\nmake /a/..\n#\
    2|make /a\nmake /a\n#\
    2|make /a\n\nwrite /a 0 61\n#\
    2|write /a 0 61\nmake /a/b\n#\
    2|write /a 0 61\nwrite /a 1 61\n#\
    2|make /b\nmake /a\nmake /c\n#\
    1|make /a/b\n#\
    3|make /a\nset /a k 01\nset /a k 02\n#\
    2|make /a\nremove /a\n#\
    2|make /a\nbroken off";

/// Looks whether the line of that number is refused.
fn expect_refused(rt: &impl Abort, alloc: Global, row: &str) {
    let (wanted, text) = row.split_once('|').expect(rt, "two fields");
    let line = refused_line(rt, alloc, text.as_bytes());
    assert!(rt; number(wanted) == line, "line {line} of {row}");
}

#[test]
fn lines_that_no_dump_has_are_refused(rt: HostRuntime) {
    for row in NO_DUMPS.split('#') {
        expect_refused(&rt, rt.alloc(), row);
    }
}

/// What a stream answers next.
fn next_of<S: DumpStream>(stream: &mut S) -> Result<bool, StreamFault> {
    stream.next(&mut DumpStep::new())
}

/// How many bytes a source gives next, of a hundred at most.
fn taken_of<R: Source>(source: &mut R) -> Option<usize> {
    let mut buffer = [0; 100];
    source.take(&mut buffer).ok()
}

#[test]
fn a_source_that_fails_ends_the_stream(rt: HostRuntime) {
    let mut stream = listing_of(rt.alloc(), LISTING, 10, 1).expect(&rt, "memory");
    assert!(rt; next_of(&mut stream) == Ok(true));
    assert!(rt; next_of(&mut stream) == Err(StreamFault::Unreadable));
    assert!(rt; next_of(&mut stream) == Err(StreamFault::Unreadable));
    assert!(rt; stream.line() == 1);
    assert!(rt; taken_of(&mut stream.into_source()) == Some(10));
}

#[test]
fn a_taker_that_fails_ends_the_draining(rt: HostRuntime) {
    let mut stream = listing_of(rt.alloc(), LISTING, 4096, NEVER).expect(&rt, "memory");
    let mut taker = LineTaker::new(sink_of(rt.alloc(), &[2]).expect(&rt, "memory"));
    let drained = drain(&mut stream, &mut taker);
    assert!(rt; drained == Err(DrainFault::Taker(TakerFault::Failed)));
    assert!(rt; taker.into_sink().written() == b"make /a\nset /a k 616263\n".as_slice());
}

/// A sink that gathers, above one whose put of that number fails.
fn gathered_of(rt: &impl Abort, alloc: Global, failing: u64) -> GatheredSink<MemSink> {
    GatheredSink::new(alloc, sink_of(alloc, &[failing]).expect(rt, "memory"))
        .ok()
        .expect(rt, "memory")
}

/// Whether these bytes are put.
fn puts(sink: &mut GatheredSink<MemSink>, bytes: &[u8]) -> bool {
    sink.put(bytes).is_ok()
}

/// Whether so many bytes are put.
fn puts_many(
    rt: &impl Abort,
    alloc: Global,
    sink: &mut GatheredSink<MemSink>,
    count: usize,
) -> bool {
    let bytes = vec![in alloc; b'b'; count].expect(rt, "memory");
    puts(sink, &bytes)
}

/// Whether what is held is put.
fn flushes(sink: &mut GatheredSink<MemSink>) -> bool {
    sink.flush().is_ok()
}

/// Whether the sink wrote so many bytes, and they begin and end with these.
fn has_written(sink: &MemSink, len: usize, begin: &[u8], end: &[u8]) -> bool {
    let written = sink.written();
    (written.len() == len) & written.starts_with(begin) & written.ends_with(end)
}

#[test]
fn bytes_are_gathered_into_one_put(rt: HostRuntime) {
    // A second put would fail.
    let mut sink = gathered_of(&rt, rt.alloc(), 1);
    assert!(rt; puts(&mut sink, b"ab") & puts(&mut sink, b"") & puts(&mut sink, b"c"));
    assert!(rt; flushes(&mut sink) & flushes(&mut sink));
    assert!(rt; has_written(&sink.into_sink(), 3, b"abc", b""));
}

#[test]
fn bytes_past_the_room_keep_their_order(rt: HostRuntime) {
    let alloc = rt.alloc();
    let mut sink = gathered_of(&rt, alloc, NEVER);
    assert!(rt; puts(&mut sink, b"a") & puts_many(&rt, alloc, &mut sink, 65536));
    assert!(rt; puts(&mut sink, b"c") & puts_many(&rt, alloc, &mut sink, 65537));
    // Nothing is held of so many bytes.
    assert!(rt; has_written(&sink.into_sink(), 131_075, b"ab", b"bb"));
}

#[test]
fn after_a_fault_nothing_is_put(rt: HostRuntime) {
    let mut sink = gathered_of(&rt, rt.alloc(), 0);
    assert!(rt; puts(&mut sink, b"a"));
    assert!(rt; !flushes(&mut sink));
    assert!(rt; !puts(&mut sink, b"b"));
    assert!(rt; !flushes(&mut sink));
    assert!(rt; has_written(&sink.into_sink(), 0, b"", b""));
}

/// The source that gives the lines of the listing that a text is.
fn lines_of(
    rt: &impl Abort,
    alloc: Global,
    text: &[u8],
) -> ListingSource<ListingStream<MemSource>> {
    ListingSource::new(
        alloc,
        listing_of(alloc, text, 3, NEVER).expect(rt, "memory"),
    )
    .ok()
    .expect(rt, "memory")
}

#[test]
fn the_fault_of_a_stream_is_kept(rt: HostRuntime) {
    let mut source = lines_of(&rt, rt.alloc(), b"make /a\nmake /a\nmake /b\n");
    assert!(rt; taken_of(&mut source) == Some(8));
    assert!(rt; taken_of(&mut source).is_none());
    assert!(rt; taken_of(&mut source).is_none());
    assert!(rt; source.fault() == Some(StreamFault::NoDump));
}
