//! The frame of `run` and `session`: takes the room of the reader of lines, opens the image, and answers each line.

ghost use Rattle.image_subcommands.specs.Limits.{IsUnread};
ghost use Rattle.image_subcommands.specs.Outside.{KeepsOutside, outside_of};
ghost use Rattle.script_runs.specs.ScriptCall.{AnswersScript, word_of, texts_by, trees_by};

use crate::lines::Script;
use crate::run::run_store;
use crate::session::session_store;
use disk_model::Disk;
use image_check::AttachFault;
use image_subcommands::{Outcome, Status};
use image_work::{StoreWork, open_for};
use script_lines::{LineReader, Sink, Source};
use std::alloc::Global;
use store_core::Store;

/// How each line of a script is answered.
#[derive(Clone, Copy)]
pub enum Answering {
    /// As a command.
    Commands,
    /// As a call on sessions.
    Calls,
}

/// The work of a script, of which no line was read yet.
#[derive(Drop)]
struct ScriptWork<R: Source, W: Sink> {
    alloc: Global,
    answering: Answering,
    script: Script<R, W>,
    ghost unread: { IsUnread script.reader },
}

impl<R: Source, W: Sink> StoreWork for ScriptWork<R, W> {
    ghost use Rattle.script_runs.specs.ScriptCall.{KeepsScript, AnswersAt, word_of, texts_by, trees_by};

    type Reads = R;

    type Writes = W;

    ghost word = { λ work. word_of work.answering };

    ghost given = { λ work. (work.script.reader.source, work.script.sink) };

    ghost keeps = { λ D disk_of work. KeepsScript R.state };

    ghost does = { λ D disk_of work. AnswersAt (texts_by work.answering) (trees_by work.answering)
        disk_of R.state W.state };

    /// Answers the lines.
    fn work<D: Disk>(self, store: Store<D>) -> Outcome<D, R, W> {
        let ScriptWork {
            alloc,
            answering,
            script,
        } = self;
        match answering {
            Answering::Commands => run_store(store, script),
            Answering::Calls => session_store(alloc, store, script),
        }
    }

    fn give_up<D: Disk>(self, fault: AttachFault, disk: D) -> Outcome<D, R, W> {
        let Script { reader, sink } = self.script;
        Outcome::idle(fault.into(), disk, reader.into_source(), sink)
    }
}

/// Answers the script that the source has, each line as `answering` says.
pub(crate) fn script_image<D: Disk, R: Source, W: Sink>(
    alloc: Global,
    answering: Answering,
    disk: D,
    source: R,
    sink: W,
) -> Outcome<D, R, W>
    ensures script { AnswersScript (word_of answering) (texts_by answering) (trees_by answering)
        D.state R.state W.state (outside_of disk source sink) result }
    ensures outside { KeepsOutside result.status (D.state disk)
        (D.state result.disk) (R.state source)
        (R.state result.source) (W.state sink) (W.state result.sink) }
{
    let reader = match LineReader::new(alloc, source) {
        Ok(reader) => reader,
        Err((_, source)) => return Outcome::idle(Status::NoMemory, disk, source, sink),
    };
    let script = Script { reader, sink };
    let work = ScriptWork {
        alloc,
        answering,
        script,
    };
    open_for(alloc, disk, work)
}
