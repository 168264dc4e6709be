//! The subcommand `big`: opens an image, carries out the commands that a number gives, and sums them up.

ghost use Rattle.std.specs.Prelude.{◌≡◌, ◌++◌};
ghost use Rattle.store_model.specs.Commands.{reply_text};
ghost use Rattle.script_lines.specs.Replies.{reply_of};
ghost use Rattle.script_lines.specs.SinkState.{IsPut};
ghost use Rattle.image_subcommands.specs.Endings.{ended_status};
ghost use Rattle.script_runs.specs.ScriptCall.{IsBig};
ghost use Rattle.script_runs.specs.Generations.{AnswersGenerated, counts_text};
ghost use Rattle.image_subcommands.specs.Outside.{KeepsOutside, outside_of};
ghost use Rattle.script_runs.specs.Runs.{IsReady};

use crate::generated::Generated;
use crate::work::answer_all;
use disk_model::Disk;
use image_check::AttachFault;
use image_subcommands::{Outcome, Status, ended_status};
use image_work::{StoreWork, open_for};
use script_lines::{Command, Generator, Reply, Sink, SinkFault, Source, Text, write_reply};
use std::alloc::Global;
use store_core::Store;

/// The lines of how many commands were answered and how many refused.
fn counts_lines(answered: u32, refused: u32) -> Text
    ensures { result ≡ counts_text answered refused }
{
    let mut text = Text::new();
    text.push(b"ok ");
    text.push_number(answered);
    text.push(b"\nno ");
    text.push_number(refused);
    text.push(b"\n");
    text
}

/// Prints the four lines of a summary, the last two of them as replies to `space` and `digest`.
/// `SinkFault`: a put failed, and no other was made after it.
fn print_summary<W: Sink>(
    sink: &mut W,
    counts: &Text,
    space: &Reply,
    digest: &Reply,
) -> Result<(), SinkFault>
    ensures { IsPut (W.state sink.old) (W.state sink.new)
        (counts.now ++ reply_text (reply_of space.now) ++ reply_text (reply_of digest.now)) result }
{
    sink.put(counts.as_slice())?;
    write_reply(sink, space)?;
    write_reply(sink, digest)
}

/// Carries out so many commands of this number, each before the next is drawn, and counts in `done` those that were
/// carried out; then prints the summary. `Err` has the status of a call that a fault ended: but for a fault of the sink
/// nothing was printed.
fn answer_generated<D: Disk, W: Sink>(
    store: &mut Store<D>,
    sink: &mut W,
    done: &mut u64,
    number: u32,
    count: u32,
) -> Result<(), Status>
    requires ready { IsReady D.state store.old }
    requires none { done.old ≡ 0 }
    ensures { AnswersGenerated D.state W.state number count
        (ended_status result) done.new store.old store.new sink.old sink.new }
{
    let mut work = Generated {
        generator: Generator::new(number),
        left: count,
        refused: 0,
    };
    answer_all(&mut work, store, done)?;
    let digest = store.apply(&Command::Digest)?;
    let space = Reply::Space {
        used: store.used(),
        slots: store.params().slots(),
    };
    let counts = counts_lines(count - work.refused, work.refused);
    print_summary(sink, &counts, &space, &digest)?;
    Ok(())
}

/// The work of `big`: so many commands of this number.
#[derive(Drop)]
struct BigWork<R: Source, W: Sink> {
    number: u32,
    count: u32,
    source: R,
    sink: W,
}

impl<R: Source, W: Sink> StoreWork for BigWork<R, W> {
    ghost use Rattle.image_subcommands.specs.Statuses.{Subcommand as words};
    ghost use Rattle.script_runs.specs.ScriptCall.{KeepsBig, GeneratesFrom};

    type Reads = R;

    type Writes = W;

    ghost word = { λ work. words.Big };

    ghost given = { λ work. (work.source, work.sink) };

    ghost keeps = { λ D disk_of work. KeepsBig work.count };

    ghost does = { λ D disk_of work. GeneratesFrom disk_of W.state work.number work.count };

    /// Carries the commands out, and prints the four lines that sum them up.
    fn work<D: Disk>(self, store: Store<D>) -> Outcome<D, R, W> {
        let BigWork {
            number,
            count,
            source,
            mut sink,
        } = self;
        let (mut store, mut done) = (store, 0);
        let ended = answer_generated(&mut store, &mut sink, &mut done, number, count);
        Outcome {
            status: ended_status(ended),
            done,
            disk: store.into_disk(),
            source,
            sink,
        }
    }

    fn give_up<D: Disk>(self, fault: AttachFault, disk: D) -> Outcome<D, R, W> {
        Outcome::idle(fault.into(), disk, self.source, self.sink)
    }
}

/// Carries out so many commands of this number on the image, and prints the four lines that sum them up. It takes no
/// memory but the store's.
pub fn big_image<D: Disk, R: Source, W: Sink>(
    alloc: Global,
    number: u32,
    count: u32,
    disk: D,
    source: R,
    sink: W,
) -> Outcome<D, R, W>
    ensures big { IsBig D.state W.state number count (outside_of disk source sink) result }
    ensures outside { KeepsOutside result.status (D.state disk)
        (D.state result.disk) (R.state source)
        (R.state result.source) (W.state sink) (W.state result.sink) }
{
    let work = BigWork {
        number,
        count,
        source,
        sink,
    };
    open_for(alloc, disk, work)
}
