//! Answers what a line of a session asks for, in a reply that is lent.
//!
//! A reply is large, and whatever makes one anew has a function of its own: joined to its caller, its room for a reply
//! would be cleared at each line.

ghost use Rattle.std.specs.Prelude.{◌≡◌};
ghost use Rattle.script_lines.specs.InPlace.{in_place};
ghost use Rattle.script_lines.specs.Sessions.{call_of, change_of, question_of, session_answer_of};
ghost use Rattle.script_lines.specs.Sessions.SessionCall.{Ask, Begin, Commit, Leave, Stage};
ghost use Rattle.session_core.specs.SessionCalls.{CallsSessions, committed_answer};
ghost use Rattle.script_runs.specs.SessionWork.{AnswersCall, AnswersSessionLine, told_in, told_of_fault};
ghost use Rattle.script_runs.specs.Turns.{AnswersAsked, asked_for};

use crate::work::Asked;
use disk_model::Disk;
use script_lines::{Change, Question, SessionLine, SessionReply};
use session_core::{Committed, SessionFault, Sessions};
use store_core::ApplyFault;
use store_model::Refusal;

/// Answers what is asked for, in `reply`: makes a call on the sessions, or gives the refusal as the reply. `false`:
/// nothing was asked for, and nothing is done.
pub(crate) fn answer_asked<D: Disk>(
    sessions: &mut Sessions<D>,
    asked: Asked,
    line: &SessionLine,
    reply: &mut SessionReply,
) -> Result<bool, ApplyFault>
    ensures { AnswersAsked (AnswersSessionLine D.state)
        (asked_for line.now asked) sessions.old sessions.new reply.new result }
{
    match asked {
        Asked::Placed => {
            answer_line(sessions, line, reply)?;
            Ok(true)
        }
        Asked::Refused(refusal) => {
            put_refusal(refusal, reply);
            Ok(true)
        }
        Asked::End => Ok(false),
    }
}

/// Makes the call that a line asks for, and puts its answer into `reply`, also where it is turned away. `Err` has a
/// fault of the store.
fn answer_line<D: Disk>(
    sessions: &mut Sessions<D>,
    line: &SessionLine,
    reply: &mut SessionReply,
) -> Result<(), ApplyFault>
    ensures { AnswersCall D.state (call_of line.now)
        sessions.old sessions.new (in_place reply.new result) }
{
    match call(sessions, line, reply) {
        Ok(()) => Ok(()),
        Err(fault) => tell_fault(fault, reply),
    }
}

/// Makes the call that a line asks for, and puts its answer into `reply`. After a fault any reply may stand there.
fn call<D: Disk>(
    sessions: &mut Sessions<D>,
    line: &SessionLine,
    reply: &mut SessionReply,
) -> Result<(), SessionFault>
    ensures { CallsSessions D.state (call_of line.now) session_answer_of
        sessions.old sessions.new (in_place reply.new result) }
{
    match line {
        SessionLine::Begin => begin(sessions, reply),
        SessionLine::Ask(id, question) => ask(sessions, *id, question, reply),
        SessionLine::Stage(id, change) => stage(sessions, *id, change, reply),
        SessionLine::Commit(id) => commit(sessions, *id, reply),
        SessionLine::Leave(id) => leave(sessions, *id, reply),
    }
}

/// Begins a session. The reply is its number.
#[inline(never)]
fn begin<D: Disk>(sessions: &mut Sessions<D>, reply: &mut SessionReply) -> Result<(), SessionFault>
    ensures { CallsSessions D.state Begin session_answer_of
        sessions.old sessions.new (in_place reply.new result) }
{
    *reply = SessionReply::Began(sessions.begin()?);
    Ok(())
}

/// Asks a question. Its reply takes the place of another question's reply; where none stands there, a place is made.
fn ask<D: Disk>(
    sessions: &mut Sessions<D>,
    id: u32,
    question: &Question,
    reply: &mut SessionReply,
) -> Result<(), SessionFault>
    ensures { CallsSessions D.state (Ask id (question_of question.now)) session_answer_of
        sessions.old sessions.new (in_place reply.new result) }
{
    if let SessionReply::Answer(place) = reply {
        return sessions.ask_into(id, question, place);
    }
    ask_anew(sessions, id, question, reply)
}

/// Asks, as `ask`, where no reply to a question stands in the place.
#[inline(never)]
fn ask_anew<D: Disk>(
    sessions: &mut Sessions<D>,
    id: u32,
    question: &Question,
    reply: &mut SessionReply,
) -> Result<(), SessionFault>
    ensures { CallsSessions D.state (Ask id (question_of question.now)) session_answer_of
        sessions.old sessions.new (in_place reply.new result) }
{
    *reply = SessionReply::Answer(sessions.ask(id, question)?);
    Ok(())
}

/// Stages a change.
fn stage<D: Disk>(
    sessions: &mut Sessions<D>,
    id: u32,
    change: &Change,
    reply: &mut SessionReply,
) -> Result<(), SessionFault>
    ensures { CallsSessions D.state (Stage id (change_of change.now)) session_answer_of
        sessions.old sessions.new (in_place reply.new result) }
{
    sessions.stage(id, change)?;
    put_done(reply);
    Ok(())
}

/// Commits the group of a session.
#[inline(never)]
fn commit<D: Disk>(
    sessions: &mut Sessions<D>,
    id: u32,
    reply: &mut SessionReply,
) -> Result<(), SessionFault>
    ensures { CallsSessions D.state (Commit id) session_answer_of
        sessions.old sessions.new (in_place reply.new result) }
{
    *reply = commit_reply(sessions.commit(id)?);
    Ok(())
}

/// Drops a session.
fn leave<D: Disk>(
    sessions: &mut Sessions<D>,
    id: u32,
    reply: &mut SessionReply,
) -> Result<(), SessionFault>
    ensures { CallsSessions D.state (Leave id) session_answer_of
        sessions.old sessions.new (in_place reply.new result) }
{
    sessions.drop_group(id)?;
    put_done(reply);
    Ok(())
}

/// The reply to a commit.
fn commit_reply(committed: Committed) -> SessionReply
    ensures { session_answer_of result ≡ committed_answer committed }
{
    match committed {
        Committed::Ok => SessionReply::Done,
        Committed::Conflict { question, was, now } => SessionReply::Conflict { question, was, now },
        Committed::Refused { index, reply } => SessionReply::Refused { index, reply },
    }
}

/// Puts `Done` in the place of a reply. None is made where it stands there.
fn put_done(reply: &mut SessionReply)
    ensures { reply.new ≡ SessionReply.Done }
{
    if let SessionReply::Done = reply {
        return;
    }
    make_done(reply);
}

/// Makes `Done` in the place of a reply.
#[inline(never)]
fn make_done(reply: &mut SessionReply)
    ensures { reply.new ≡ SessionReply.Done }
{
    *reply = SessionReply::Done;
}

/// Puts a refusal in the place of a reply.
#[inline(never)]
fn put_refusal(refusal: Refusal, reply: &mut SessionReply)
    ensures { reply.new ≡ SessionReply.NotRead refusal }
{
    *reply = SessionReply::NotRead(refusal);
}

/// Tells the fault of a call. The answer of a call that was turned away goes into `reply`, and `Err` has a fault of
/// the store.
#[inline(never)]
fn tell_fault(fault: SessionFault, reply: &mut SessionReply) -> Result<(), ApplyFault>
    ensures { told_in (in_place reply.new result) ≡ told_of_fault fault }
{
    *reply = match fault {
        SessionFault::Crowded => SessionReply::Crowded,
        SessionFault::Unknown => SessionReply::NoSession,
        SessionFault::Many => SessionReply::Many,
        SessionFault::Disk => return Err(ApplyFault::Disk),
        SessionFault::NoMemory => return Err(ApplyFault::NoMemory),
        SessionFault::Stopped => return Err(ApplyFault::Stopped),
    };
    Ok(())
}
