//! The subcommand `run`: opens an image and answers a script.

ghost use Rattle.image_subcommands.specs.Limits.{IsUnread};
ghost use Rattle.image_subcommands.specs.Outside.{KeepsOutside, outside_of};
ghost use Rattle.image_subcommands.specs.Statuses.{Subcommand as words};
ghost use Rattle.image_work.specs.Works.{IsReady, WorksOnStore};
ghost use Rattle.script_runs.specs.Runs.{run_texts, run_trees};
ghost use Rattle.script_runs.specs.ScriptCall.{KeepsScript, AnswersAt, IsRun};

use crate::lines::Script;
use crate::script::{Answering, script_image};
use crate::work::answer_all;
use disk_model::Disk;
use image_subcommands::{Outcome, ended_status};
use script_lines::{Sink, Source};
use std::alloc::Global;
use store_core::Store;

/// Answers the lines of a script with a store.
pub(crate) fn run_store<D: Disk, R: Source, W: Sink>(
    store: Store<D>,
    script: Script<R, W>,
) -> Outcome<D, R, W>
    requires unread { IsUnread script.reader }
    requires ready { IsReady D.state store }
    ensures { WorksOnStore D.state R.state W.state words.Run (KeepsScript R.state)
        (AnswersAt run_texts run_trees D.state R.state W.state)
        (script.reader.source, script.sink) store result }
{
    let (mut script, mut store, mut done) = (script, store, 0);
    let ended = answer_all(&mut script, &mut store, &mut done);
    Outcome {
        status: ended_status(ended),
        done,
        disk: store.into_disk(),
        source: script.reader.into_source(),
        sink: script.sink,
    }
}

/// Answers the script that the source has, each line as a command.
pub fn run_image<D: Disk, R: Source, W: Sink>(
    alloc: Global,
    disk: D,
    source: R,
    sink: W,
) -> Outcome<D, R, W>
    ensures run { IsRun D.state R.state W.state (outside_of disk source sink) result }
    ensures outside { KeepsOutside result.status (D.state disk)
        (D.state result.disk) (R.state source)
        (R.state result.source) (W.state sink) (W.state result.sink) }
{
    script_image(alloc, Answering::Commands, disk, source, sink)
}
