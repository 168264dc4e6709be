//! What the tests share: a machine in memory, on which the program is called.
//!
//! The first field of a table's row is its name, which stands once in its table; what the others are is said above the
//! table. A failure names the row.
//!
//! What a call comes to stays in the machine, so that nothing is handed out that owns memory.

use disk_model::{FailingDisk, MemDisk, StopChoice};
use std::alloc::Global;
use std::process::Abort;
use store_top::{Wanted, Words, top, top_pair, wanted_file};
use tests_tools::{NEVER, disk_of, number, sink_of, source_of};

/// A seed of zeros, which the word `zeros` stands for.
const ZEROS: &str = "0000000000000000000000000000000000000000000000000000000000000000";

/// More calls of a disk than any call here makes.
pub const MOST_CALLS: u64 = 400;

/// The ways in which a call of the disk fails: by itself, or with all behind it. Then a crash comes, which makes this
/// of bytes that are not durable.
pub static STOPS: [Option<StopChoice>; 4] = [
    None,
    Some(StopChoice::Old),
    Some(StopChoice::New),
    Some(StopChoice::Fill(0x7F)),
];

/// What a call meets outside: which call of the disk fails, and how, and which one of the image that is mirrored; how
/// many bytes the first take gives; and the take and the put that fail.
#[derive(Clone, Copy)]
pub struct Outside {
    pub first: u64,
    pub call: u64,
    pub crash: Option<StopChoice>,
    pub piece: u64,
    pub take: u64,
    pub put: u64,
}

/// Nothing fails.
pub const CALM: Outside = Outside {
    first: NEVER,
    call: NEVER,
    crash: None,
    piece: NEVER,
    take: NEVER,
    put: NEVER,
};

/// This call of the disk fails, in this way.
pub fn stopped_at(call: u64, crash: Option<StopChoice>) -> Outside {
    Outside {
        call,
        crash,
        ..CALM
    }
}

/// How the last call ended: its status, what it says that was done, the writes and syncs that were made of its disk,
/// and the bytes that were read.
#[derive(Clone, Copy)]
pub struct Ended {
    pub status: u8,
    pub done: u64,
    pub calls: [u64; 2],
    pub fetched: u64,
}

/// An image in memory, and how the last call on it ended.
#[derive(Drop)]
pub struct Machine {
    alloc: Global,
    /// The image that the word `mirror` mirrors onto this one.
    first: Vec<u8>,
    /// The bytes of the image: those that the disk reads, or those that a crash left.
    pub image: Vec<u8>,
    /// What was written to the sink.
    pub written: Vec<u8>,
    pub ended: Ended,
}

/// The words of a text, parted by blanks.
fn words_of(rt: &impl Abort, alloc: Global, text: &str) -> Words {
    let mut words = Words::new(alloc);
    for word in text.split_whitespace() {
        let word = if word == "zeros" { ZEROS } else { word };
        words.push(word).expect(rt, "memory");
    }
    words
}

/// A copy of the bytes.
fn bytes_of(rt: &impl Abort, alloc: Global, bytes: &[u8]) -> Vec<u8> {
    bytes.to_vec(alloc).expect(rt, "memory")
}

/// A disk with these bytes, of which this call fails in this way.
pub fn failing_disk(
    rt: &impl Abort,
    alloc: Global,
    bytes: &[u8],
    call: u64,
    crash: Option<StopChoice>,
) -> FailingDisk<MemDisk> {
    disk_of(alloc, bytes, &[call], crash.map(|_| call)).expect(rt, "memory")
}

impl Machine {
    /// A machine whose image has no byte.
    pub fn new(alloc: Global) -> Machine {
        Machine {
            alloc,
            first: Vec::new(alloc),
            image: Vec::new(alloc),
            written: Vec::new(alloc),
            ended: Ended {
                status: 0,
                done: 0,
                calls: [0; 2],
                fetched: 0,
            },
        }
    }

    /// A copy of the bytes of the image.
    pub fn copy(&self, rt: &impl Abort) -> Vec<u8> {
        bytes_of(rt, self.alloc, &self.image)
    }

    /// A copy of what the last call wrote.
    pub fn copy_written(&self, rt: &impl Abort) -> Vec<u8> {
        bytes_of(rt, self.alloc, &self.written)
    }

    /// Has a copy of its image as the first one, to be mirrored.
    pub fn keep_first(&mut self, rt: &impl Abort) {
        self.first = self.copy(rt);
    }

    /// Has these bytes as its image.
    pub fn load(&mut self, rt: &impl Abort, bytes: &[u8]) {
        self.image = bytes_of(rt, self.alloc, bytes);
    }

    /// Keeps what the disk reads, or what a crash leaves of it.
    fn keep(&mut self, rt: &impl Abort, disk: MemDisk, crash: Option<StopChoice>) {
        self.ended.calls = [disk.write_count(), disk.sync_count()];
        self.ended.fetched = disk.fetched();
        match crash {
            Some(choice) => self.load(rt, disk.stopped(choice).bytes()),
            None => self.load(rt, disk.bytes()),
        }
    }

    /// A call on one image.
    fn call_alone(&mut self, rt: &impl Abort, words: &str, input: &str, outside: &Outside) {
        let alloc = self.alloc;
        let disk = failing_disk(rt, alloc, &self.image, outside.call, outside.crash);
        let pieces = [outside.piece as usize];
        let source = source_of(alloc, input.as_bytes(), &pieces, &[outside.take]);
        let source = source.expect(rt, "memory");
        let sink = sink_of(alloc, &[outside.put]).expect(rt, "memory");
        let left = top(alloc, &words_of(rt, alloc, words), disk, source, sink);
        self.ended.status = left.status.code();
        self.ended.done = left.done;
        self.written = bytes_of(rt, alloc, left.sink.written());
        self.keep(rt, left.disk.into_disk(), outside.crash);
    }

    /// A mirror of the first image onto this one. Looks whether the first one was only read.
    fn mirror(&mut self, rt: &impl Abort, outside: &Outside) {
        let alloc = self.alloc;
        let from = failing_disk(rt, alloc, &self.first, outside.first, None);
        let to = failing_disk(rt, alloc, &self.image, outside.call, outside.crash);
        let sink = sink_of(alloc, &[outside.put]).expect(rt, "memory");
        let left = top_pair(alloc, from, to, sink);
        self.ended.status = left.status.code();
        self.ended.done = left.done;
        self.written = bytes_of(rt, alloc, left.sink.written());
        self.keep(rt, left.to.into_disk(), outside.crash);
        let from = left.from.into_disk();
        let calls = [from.write_count(), from.sync_count()];
        assert!(rt; calls == [0; 2], "calls of the first disk");
    }

    /// A call with these words and this input, where the outside is so.
    pub fn call_in(&mut self, rt: &impl Abort, words: &str, input: &str, outside: &Outside) {
        if words == "mirror" {
            self.mirror(rt, outside);
        } else {
            self.call_alone(rt, words, input, outside);
        }
    }

    /// A call where nothing fails.
    pub fn call(&mut self, rt: &impl Abort, words: &str, input: &str) {
        self.call_in(rt, words, input, &CALM);
    }

    /// Makes the image that the script leaves on that of the empty tree, which these words make.
    pub fn make(&mut self, rt: &impl Abort, format: &str, script: &str) {
        let request = wanted_file(&words_of(rt, self.alloc, format)).expect(rt, "memory");
        let len = match request.wanted {
            Wanted::Fresh(len) => len,
            _ => 0,
        };
        self.image = vec![in self.alloc; 0; len as usize].expect(rt, "memory");
        self.call(rt, format, "");
        self.call(rt, "run", script);
    }

    /// Writes bytes over: `PLACE:BYTE`, or `PLACE+COUNT:BYTE` for one byte in so many places, parted by blanks.
    pub fn spoil(&mut self, rt: &impl Abort, bytes: &str) {
        for word in bytes.split_whitespace() {
            let (places, byte) = word.split_once(':').expect(rt, "a byte");
            let (first, count) = places.split_once('+').unwrap_or((places, "1"));
            let byte = byte.parse::<u8>().expect(rt, "a byte");
            let places = self.image.iter_mut().skip(number(first) as usize);
            for place in places.take(number(count) as usize) {
                *place = byte;
            }
        }
    }

    /// Looks whether this is the image.
    pub fn expect_image(&self, rt: &impl Abort, wanted: &[u8], what: &str, row: &str) {
        assert!(rt;
            self.image.as_slice() == wanted,
            "the image of {what}, {row}"
        );
    }
}
