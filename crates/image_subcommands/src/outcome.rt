//! What a call of `top` answers.

ghost use Rattle.std.specs.Prelude.{◌≡◌};

use crate::status::Status;

/// What a call of `top` answers, with the disk, the source and the sink that it was given.
#[derive(Drop)]
pub struct Outcome<D, R, W> {
    /// How it ended.
    pub status: Status,
    /// For `run` and `session` the number of lines that are not empty and were carried out, refusals included. For
    /// `big` the number of its commands that were, in the same way. For `check` and `scrub` 1 where they came to a
    /// verdict, for the other subcommands 1 where they were carried out, and else 0.
    pub done: u64,
    /// The disk.
    pub disk: D,
    /// The source.
    pub source: R,
    /// The sink.
    pub sink: W,
}

impl<D, R, W> Outcome<D, R, W> {
    /// A call that ended so before any work was done.
    pub fn idle(status: Status, disk: D, source: R, sink: W) -> Self
        ensures { result ≡ record {
          status = status;
          done = 0;
          disk = disk;
          source = source;
          sink = sink;
        } }
    {
        Outcome {
            status,
            done: 0,
            disk,
            source,
            sink,
        }
    }
}
