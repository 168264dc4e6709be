//! A reply of many lines, and streams of std that fail in the middle.

use script_lines::{
    Line, LineReader, MAX_SCRIPT, Reply, Sink, Source, StdSink, StdSource, write_reply,
};
use std::alloc::Global;
use std::io;
use std::io::{Read, Write};
use std::process::Abort;
use store_base::Entries;
use tests_tools::sink_of;

/// The reader's next answer: a line, or words in capitals for another one.
fn answer_of<R: Source>(reader: &mut LineReader<R>) -> &str {
    if !reader.is_live() {
        return "NONE";
    }
    match reader.next_line() {
        Ok(Line::Text) => str::from_utf8(reader.text()).unwrap_or("NO TEXT"),
        Ok(_) => "END",
        Err(_) => "FAULT",
    }
}

/// A reader whose first read is interrupted, whose second gives a line, and whose others fail; and a writer
/// that takes one byte at a time, whose first write is interrupted.
#[derive(Drop)]
struct Uneven {
    calls: u8,
    written: [u8; 4],
    len: usize,
    flushed: usize,
}

impl Uneven {
    fn new() -> Self {
        Uneven {
            calls: 0,
            written: [0; 4],
            len: 0,
            flushed: 0,
        }
    }

    /// The number of this call, from 0.
    fn next_call(&mut self) -> u8 {
        let call = self.calls;
        self.calls = call.saturating_add(1);
        call
    }
}

impl Read for Uneven {
    fn read(&mut self, buf: &mut [u8]) -> io::Result<usize> {
        match self.next_call() {
            0 => Err(io::Error::from(io::ErrorKind::Interrupted)),
            1 if buf.len() > 1 => {
                buf[0] = b'a';
                buf[1] = b'\n';
                Ok(2)
            }
            _ => Err(io::Error::from(io::ErrorKind::Other)),
        }
    }
}

impl Write for Uneven {
    fn write(&mut self, buf: &[u8]) -> io::Result<usize> {
        if self.next_call() == 0 {
            return Err(io::Error::from(io::ErrorKind::Interrupted));
        }
        if buf.is_empty() || self.len >= self.written.len() {
            return Ok(0);
        }
        self.written[self.len] = buf[0];
        self.len += 1;
        Ok(1)
    }

    fn flush(&mut self) -> io::Result<()> {
        self.flushed = self.len;
        Ok(())
    }
}

/// Reads the first three answers of a reader of lines over this one, and gives it back.
fn read_three(rt: &impl Abort, alloc: Global, reader: Uneven) -> Uneven {
    let lines = LineReader::with_limit(alloc, StdSource::new(reader), MAX_SCRIPT);
    let mut lines = lines.ok().expect(rt, "memory");
    for answer in ["a", "FAULT", "NONE"] {
        assert!(rt; answer_of(&mut lines) == answer, "{answer}");
    }
    lines.into_source().into_inner()
}

#[test]
fn readers_of_std_are_adapted(rt: HostRuntime) {
    assert!(rt; read_three(&rt, rt.alloc(), Uneven::new()).calls == 3);
}

#[test]
fn writers_of_std_are_adapted(rt: HostRuntime) {
    let mut sink = StdSink::new(Uneven::new());
    assert!(rt; sink.put(b"abc").is_ok() && sink.put(b"de").is_err());
    let writer = sink.into_inner();
    assert!(rt; writer.written == *b"abcd" && writer.flushed == 3);
}

/// A listing of 200 children, which has lines of 134 bytes.
fn long_listing(rt: &impl Abort, alloc: Global) -> Reply {
    let mut entries = Entries::new(alloc);
    for _ in 0..200 {
        entries
            .push(&[b'n'; 120], Some(4_294_967_295))
            .expect(rt, "memory");
    }
    Reply::Listing(entries)
}

/// Whether the reply is written to a sink that fails at this put, and how many bytes it has then.
fn written(rt: &impl Abort, alloc: Global, reply: &Reply, failing: u64) -> (bool, usize) {
    let mut sink = sink_of(alloc, &[failing]).expect(rt, "memory");
    (write_reply(&mut sink, reply).is_ok(), sink.written().len())
}

/// Looks whether the listing takes four puts: each but the last has as many lines as there is room for, 63.
fn takes_four_puts(rt: &impl Abort, alloc: Global, listing: &Reply) {
    assert!(rt; written(rt, alloc, listing, 4) == (true, 200 * 134 + 4));
    assert!(rt; written(rt, alloc, listing, 1) == (false, 63 * 134));
}

#[test]
fn a_long_listing_takes_several_puts(rt: HostRuntime) {
    takes_four_puts(&rt, rt.alloc(), &long_listing(&rt, rt.alloc()));
}
