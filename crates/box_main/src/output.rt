//! The standard streams on which something is written.

use crate::progress::CLEAR;
use crate::trouble::{Thing, no_memory, tell};
use box_words::Status;
use dump_streams::GatheredSink;
use host_files::FileId;
use script_lines::{Sink, SinkFault, StdSink};
use std::fs;
use std::io::{IsTerminal, Stderr, Stdout};

/// The path of standard output.
const OUTPUT: &str = "/dev/stdout";

/// Standard output, to which bytes go in large pieces.
pub type Output = GatheredSink<Cleared<StdSink<Stdout>>>;

/// Standard error.
pub type SayStream = Cleared<StdSink<Stderr>>;

/// A sink to a terminal, where each piece takes the place of the text that tells how far the work is.
#[derive(Drop)]
pub struct Cleared<S: Sink> {
    rt: HostRuntime,
    sink: S,
    /// Whether such a text may be there.
    clears: bool,
}

impl<S: Sink> Sink for Cleared<S> {
    ghost state = { λ cleared. S.state cleared.sink };

    fn put(&mut self, bytes: &[u8]) -> Result<(), SinkFault> {
        if self.clears {
            let _ = eprint!(self.rt; "{CLEAR}");
        }
        self.sink.put(bytes)
    }
}

/// Standard error.
pub fn say(rt: HostRuntime) -> SayStream {
    let stream = rt.stderr();
    let clears = stream.is_terminal();
    Cleared {
        rt,
        sink: StdSink::new(stream),
        clears,
    }
}

/// The file to which standard output leads, if the system tells it.
pub fn output_file(rt: HostRuntime) -> Option<FileId> {
    match fs::metadata(&rt, OUTPUT) {
        Ok(found) => Some(FileId::of(&found)),
        Err(_) => None,
    }
}

/// Standard output, for what is read of an image, which it may not be itself.
pub fn output(rt: HostRuntime, image: &str, file: &FileId) -> Result<Output, Status> {
    if output_file(rt) == Some(*file) {
        let (wrong, advice) = ("it is the image itself", "print to another file");
        let thing = Thing::File("standard output");
        return Err(tell(rt, Status::Path, &thing, wrong, advice));
    }
    plain_output(rt, image)
}

/// Standard output, for what is not read of an image. The name is said where memory ran out.
pub fn plain_output(rt: HostRuntime, name: &str) -> Result<Output, Status> {
    let stream = rt.stdout();
    let clears = stream.is_terminal() && rt.stderr().is_terminal();
    let sink = Cleared {
        rt,
        sink: StdSink::new(stream),
        clears,
    };
    match GatheredSink::new(rt.alloc(), sink) {
        Ok(sink) => Ok(sink),
        Err(_) => Err(no_memory(rt, &Thing::File(name))),
    }
}

/// Prints a text.
pub fn print(rt: HostRuntime, text: &[u8]) -> Status {
    let mut sink = StdSink::new(rt.stdout());
    match sink.put(text) {
        Ok(()) => Status::Done,
        Err(_) => {
            let thing = Thing::File("standard output");
            let wrong = "it could not be written";
            let advice = "look whether the disk is full, or the reader has ended";
            tell(rt, Status::Output, &thing, wrong, advice)
        }
    }
}
