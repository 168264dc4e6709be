//! What the tests share: images of one slot, one level, the draw `ruler` and a seed of zeros, what a call is given, and
//! how it ends.
//!
//! Such an image has five blocks: header, gate, marks, the shadow and the slot. It is written as its bytes other than
//! zero, each with its place, behind the text that it begins with; an empty text is a disk of zeros. That of the tree
//! with the one directory `/a` has in its slot, which begins at 16,384: 1 for a page, at 131 that it has one cell, at
//! 132 the name, at 257 that the value has one byte, at 258 that it is a directory.
//!
//! How a call ends is its status, what it counts as done, the writes and the syncs, then what it wrote to its sink, and
//! the image behind it.

use disk_model::{FailingDisk, MemDisk};
use script_lines::{MemSink, MemSource};
use std::alloc::Global;
use std::process::Abort;
use store_base::NoMemory;
use store_claims::{Crash, Disk, Ended, Machine, Making};
use store_top::Words;

/// The image of the empty tree.
pub const EMPTY: &str = "11:1 12:1 14:1";

/// The image with the directory `/a`.
pub const A: &str = "11:1 12:1 14:1 16384:1 16515:1 16516:97 16641:1 16642:1";

/// The image with the directories `/a` and `/b`.
pub const A_AND_B: &str =
    "11:1 12:1 14:1 16384:1 16515:2 16516:97 16641:1 16642:1 16898:98 17023:1 17024:1";

/// An image of that length whose slot counts no cell.
pub const BROKEN: &str = "11:1 12:1 14:1 16384:1 16516:97 16641:1 16642:1";

/// The words that make an image of version 1.
pub const FORMAT: &str =
    "format 1 1 ruler 0000000000000000000000000000000000000000000000000000000000000000";

/// The number of no call that is made.
pub const NEVER: u64 = u64::MAX;

/// The room of a disk's record and of a sink.
const ROOM: usize = 1_048_576;

/// The pieces in which a source gives its script.
static PIECES: [usize; 2] = [8, 3];

/// More calls of the disk than a run of one command makes, or one commit or load.
const MOST_CALLS: u64 = 60;

/// How many writes and syncs such a call makes: two syncs to open the image, and seven writes and five syncs for its
/// one slot. While one of them fails the call is not done.
const LEAST_CALLS: u64 = 14;

/// How a call is to end: its status, what it counts, its writes and its syncs; what is written; and the image.
pub type Wanted<'a> = ([u64; 4], &'a str, &'a str);

/// The bytes of the image that is written so.
pub fn image_of(rt: &impl Abort, alloc: Global, places: &str) -> Vec<u8> {
    let mut bytes = vec![in alloc; 0; 20_480].expect(rt, "memory");
    if !places.is_empty() {
        for (found, byte) in bytes.iter_mut().zip(b"HSTORE01") {
            *found = *byte;
        }
    }
    for place in places.split_whitespace() {
        let (at, byte) = place.split_once(':').expect(rt, "a place and a byte");
        let at = at.parse::<usize>().expect(rt, "a place");
        if let Some(found) = bytes.get_mut(at) {
            *found = byte.parse::<u8>().expect(rt, "a byte");
        }
    }
    bytes
}

/// A disk in memory with this image.
pub fn memory_of(rt: &impl Abort, alloc: Global, places: &str) -> MemDisk {
    MemDisk::new(alloc, &image_of(rt, alloc, places), ROOM).expect(rt, "memory")
}

/// A source that gives the script, first in a piece of 8 bytes and then in one of 3; its take of this number fails.
fn source_of(rt: &impl Abort, alloc: Global, script: &str, fails: u64) -> MemSource {
    let pieces = PIECES.to_vec(alloc).expect(rt, "memory");
    let bytes = script.as_bytes().to_vec(alloc).expect(rt, "memory");
    MemSource::new(bytes, pieces, [fails].to_vec(alloc).expect(rt, "memory"))
}

/// A sink whose put of this number fails.
fn sink_failing(rt: &impl Abort, alloc: Global, fails: u64) -> MemSink {
    let fails = [fails].to_vec(alloc).expect(rt, "memory");
    MemSink::new(alloc, ROOM, fails).expect(rt, "memory")
}

/// A sink whose puts do not fail.
pub fn sink_of(rt: &impl Abort, alloc: Global) -> MemSink {
    sink_failing(rt, alloc, NEVER)
}

/// A machine with this image and this script. Its disk fails from a call on; a take of its source and a put of its sink
/// fail: these are their numbers.
pub fn failing(rt: &impl Abort, alloc: Global, given: [&str; 2], fails: [u64; 3]) -> Machine {
    let memory = memory_of(rt, alloc, given[0]);
    Machine {
        disk: FailingDisk::new(memory, Vec::new(alloc), Some(fails[0])),
        source: source_of(rt, alloc, given[1], fails[1]),
        sink: sink_failing(rt, alloc, fails[2]),
    }
}

/// A machine with this image and this script, of which no call fails.
pub fn machine_of(rt: &impl Abort, alloc: Global, given: [&str; 2]) -> Machine {
    failing(rt, alloc, given, [NEVER, NEVER, NEVER])
}

/// An image that is to be made by these scripts, parted by `#`.
pub fn making_of(rt: &impl Abort, alloc: Global, scripts: &str) -> Making {
    let mut sources = Vec::new(alloc);
    for script in scripts.split('#') {
        sources
            .push(source_of(rt, alloc, script, NEVER))
            .expect(rt, "memory");
    }
    let Machine { disk, sink, .. } = machine_of(rt, alloc, ["", ""]);
    Making {
        disk,
        scripts: sources,
        sink,
    }
}

/// The words of a text.
pub fn words_of(rt: &impl Abort, alloc: Global, text: &str) -> Words {
    let mut words = Words::new(alloc);
    for word in text.split_whitespace() {
        words.push(word).expect(rt, "memory");
    }
    words
}

/// Whether these are the numbers.
pub fn are(found: [u64; 4], wanted: &[u64; 4]) -> bool {
    (found[0] == wanted[0])
        & (found[1] == wanted[1])
        & (found[2] == wanted[2])
        & (found[3] == wanted[3])
}

/// Looks whether a call ended so.
pub fn expect_end(rt: &impl Abort, alloc: Global, ended: Ended, wanted: &Wanted<'_>) {
    let disk = ended.disk.into_disk();
    let status = u64::from(ended.status.code());
    let found = [status, ended.done, disk.write_count(), disk.sync_count()];
    let is_written = ended.sink.written() == wanted.1.as_bytes();
    let is_image = disk.bytes() == image_of(rt, alloc, wanted.2).as_slice();
    assert!(rt;
        are(found, &wanted.0) & is_written & is_image,
        "the end of {}",
        wanted.1
    );
}

/// What is given where a crash comes: the image and the script before, what is written where all was acknowledged, and
/// the image then.
pub type Crashing<'a> = [&'a str; 4];

/// Looks whether a call that fails from this call of the disk on, and a run on this image that it leaves, come to the
/// whole or to nothing, and to the whole where it was acknowledged. Tells what the disk reads behind the first call,
/// and whether it ended with 0.
fn crash_at<F: Fn(Global, MemDisk, u64, MemSource, MemSink, &[u8]) -> Result<Crash, NoMemory>>(
    rt: &impl Abort,
    alloc: Global,
    sentence: &F,
    given: Crashing<'_>,
    from: u64,
    left: &[u8],
) -> (Vec<u8>, bool)
    requires { F.IsAlwaysCallable sentence.now }
{
    let disk = memory_of(rt, alloc, given[0]);
    let source = source_of(rt, alloc, given[1], NEVER);
    let crash = sentence(alloc, disk, from, source, sink_of(rt, alloc), left);
    let Crash { first, next } = crash.expect(rt, "memory");
    let is_done = first.status.code() == 0;
    let is_acknowledged = is_done | (first.sink.written() == given[2].as_bytes());
    let found = next.disk.into_disk();
    let is_none = found.bytes() == image_of(rt, alloc, given[0]).as_slice();
    let is_whole = found.bytes() == image_of(rt, alloc, given[3]).as_slice();
    let is_right = (is_none & !is_acknowledged) | is_whole;
    assert!(rt;
        is_right & (next.status.code() == 0),
        "a crash at call {from}"
    );
    let read = first.disk.into_disk();
    (read.bytes().to_vec(alloc).expect(rt, "memory"), is_done)
}

/// Looks at a crash at each call of the disk, twice: it leaves the image that all would leave, or what the disk reads.
pub fn expect_crashes<
    F: Fn(Global, MemDisk, u64, MemSource, MemSink, &[u8]) -> Result<Crash, NoMemory>,
>(rt: &impl Abort, alloc: Global, sentence: &F, given: Crashing<'_>)
    requires { F.IsAlwaysCallable sentence.now }
{
    let whole = image_of(rt, alloc, given[3]);
    for from in 0..MOST_CALLS {
        let (left, is_done) = crash_at(rt, alloc, sentence, given, from, &whole);
        let (same, is_done_again) = crash_at(rt, alloc, sentence, given, from, &left);
        assert!(rt;
            (same == left) & (is_done_again == is_done),
            "the same call"
        );
        if is_done {
            assert!(rt;
                from >= LEAST_CALLS,
                "a call whose call {from} fails is done"
            );
            return;
        }
    }
    assert!(rt; false, "the end");
}
