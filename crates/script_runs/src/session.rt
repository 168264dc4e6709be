//! The subcommand `session`: opens an image and answers a script of calls on sessions.

ghost use Rattle.std.specs.Prelude.{◌≡◌, true};
ghost use Rattle.image_subcommands.specs.Endings.{ended_status};
ghost use Rattle.image_subcommands.specs.Outside.{KeepsOutside, outside_of};
ghost use Rattle.image_subcommands.specs.Statuses.{Subcommand as words};
ghost use Rattle.session_core.specs.Machine.{no_places};
ghost use Rattle.image_work.specs.Works.{WorksOnStore};
ghost use Rattle.script_runs.specs.Runs.{IsReady, IsUnread, ReadsLine};
ghost use Rattle.script_runs.specs.ScriptCall.{KeepsScript, AnswersAt, IsSession};
ghost use Rattle.script_runs.specs.ScriptLines.{AnswersLines};
ghost use Rattle.script_runs.specs.SessionRuns.{session_texts, session_trees};
ghost use Rattle.script_runs.specs.SessionWork.{IsCallIn};
ghost use Rattle.script_runs.specs.Turns.{asked_in};

use crate::calls::answer_asked;
use crate::lines::Script;
use crate::script::{Answering, script_image};
use crate::work::Asked;
use disk_model::Disk;
use image_subcommands::{Outcome, Status, ended_status};
use script_lines::{
    Command, Line, LineFault, LineReader, SessionLine, SessionReply, Sink, Source,
    read_session_line, write_session_reply,
};
use session_core::Sessions;
use std::alloc::Global;
use store_core::Store;
use store_model::Refusal;

/// Reads the next line, and says what it asks for. A call is put in the place of a line, and a command in it is read
/// in a place of its own. `Source` and `TooLong`, as from `LineReader::next_line`: nothing is asked for after them.
fn next_asked<R: Source>(
    reader: &mut LineReader<R>,
    command: &mut Command,
    line: &mut SessionLine,
) -> Result<Asked, LineFault>
    requires { reader.old.is_live ≡ true }
    ensures { ReadsLine R.state IsCallIn reader.old reader.new (asked_in line.new result) }
{
    match reader.next_line()? {
        Line::Text => Ok(Asked::by_reading(read_session_line(reader.text(), command, line))),
        Line::Long => Ok(Asked::Refused(Refusal::Long)),
        Line::End => Ok(Asked::End),
    }
}

/// Answers each line of a script, before the next is read, and counts in `done` those that were carried out. `Err`
/// has the status of a call that a fault ended.
fn answer_lines<D: Disk, R: Source, W: Sink>(
    sessions: &mut Sessions<D>,
    script: &mut Script<R, W>,
    done: &mut u64,
) -> Result<(), Status>
    requires ready { IsReady D.state sessions.old.store }
    requires begins { sessions.old.places ≡ no_places }
    requires unread { IsUnread script.old.reader }
    requires none { done.old ≡ 0 }
    ensures { AnswersLines words.Session session_texts session_trees
        D.state R.state W.state (ended_status result)
        done.new sessions.old.store sessions.new.store script.old.reader script.new.reader
        script.old.sink script.new.sink }
{
    let (mut command, mut line) = (Command::Space, SessionLine::Begin);
    let mut reply = SessionReply::Done;
    answer_each(sessions, script, done, &mut command, &mut line, &mut reply)
}

/// Answers each line, as `answer_lines`, with one place for the commands, one for the lines and one for the replies.
fn answer_each<D: Disk, R: Source, W: Sink>(
    sessions: &mut Sessions<D>,
    script: &mut Script<R, W>,
    done: &mut u64,
    command: &mut Command,
    line: &mut SessionLine,
    reply: &mut SessionReply,
) -> Result<(), Status>
    requires ready { IsReady D.state sessions.old.store }
    requires begins { sessions.old.places ≡ no_places }
    requires unread { IsUnread script.old.reader }
    requires none { done.old ≡ 0 }
    ensures { AnswersLines words.Session session_texts session_trees
        D.state R.state W.state (ended_status result)
        done.new sessions.old.store sessions.new.store script.old.reader script.new.reader
        script.old.sink script.new.sink }
{
    'lines: while answer_asked(
        sessions,
        next_asked(&mut script.reader, command, line)?,
        line,
        reply,
    )? {
        *done += 1;
        write_session_reply(&mut script.sink, reply)?;
    }
    Ok(())
}

/// Answers the lines of a script as calls on the sessions of a store: takes the room of the sessions, and answers each
/// line. The sessions that are live at the end are gone, and what they staged is not carried out.
pub(crate) fn session_store<D: Disk, R: Source, W: Sink>(
    alloc: Global,
    store: Store<D>,
    script: Script<R, W>,
) -> Outcome<D, R, W>
    requires unread { IsUnread script.reader }
    requires ready { IsReady D.state store }
    ensures { WorksOnStore D.state R.state W.state words.Session (KeepsScript R.state)
        (AnswersAt session_texts session_trees D.state R.state W.state)
        (script.reader.source, script.sink) store result }
{
    let (mut script, mut done) = (script, 0);
    let mut sessions = match Sessions::new(alloc, store) {
        Ok(sessions) => sessions,
        Err((_, store)) => {
            let (source, disk) = (script.reader.into_source(), store.into_disk());
            return Outcome::idle(Status::NoMemory, disk, source, script.sink);
        }
    };
    let ended = answer_lines(&mut sessions, &mut script, &mut done);
    Outcome {
        status: ended_status(ended),
        done,
        disk: sessions.into_store().into_disk(),
        source: script.reader.into_source(),
        sink: script.sink,
    }
}

/// Answers the script that the source has, each line as a call on sessions.
pub fn session_image<D: Disk, R: Source, W: Sink>(
    alloc: Global,
    disk: D,
    source: R,
    sink: W,
) -> Outcome<D, R, W>
    ensures session { IsSession D.state R.state W.state (outside_of disk source sink) result }
    ensures outside { KeepsOutside result.status (D.state disk)
        (D.state result.disk) (R.state source)
        (R.state result.source) (W.state sink) (W.state result.sink) }
{
    script_image(alloc, Answering::Calls, disk, source, sink)
}
