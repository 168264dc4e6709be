//! What a session answers, and the text that it has.

ghost use Rattle.std.specs.Prelude.{◌++◌, codes};
ghost use Rattle.std.specs.Fmt.{decimal};
ghost use Rattle.store_model.specs.Commands.{line};
ghost use Rattle.script_lines.specs.Replies.{reply_of};
ghost use Rattle.script_lines.specs.SinkState.{IsPut};
ghost use Rattle.script_lines.specs.Sessions.{session_text, session_answer_of};
ghost use Rattle.script_lines.specs.Sessions.SessionAnswer.{Began, Conflicting, RefusedAt};

use crate::fault::SinkFault;
use crate::reply::{Reply, push_refusal, write_refusal, write_reply};
use crate::sink::Sink;
use crate::text::Text;
use store_model::Refusal;

/// What a session answers.
#[derive(Debug, Drop)]
pub enum SessionReply {
    /// A session began, under this number.
    Began(u32),
    /// The reply to a question.
    Answer(Reply),
    /// A change was staged, a group was committed, or a session was dropped.
    Done,
    /// A question now has another answer than it had; nothing was carried out.
    Conflict {
        /// The number of the question, from 0.
        question: u32,
        /// The reply that it had.
        was: Reply,
        /// The reply that it has now.
        now: Reply,
    },
    /// A change is refused; nothing was carried out.
    Refused {
        /// The number of the change, from 0.
        index: u32,
        /// Why it is refused.
        reply: Refusal,
    },
    /// No session has the number.
    NoSession,
    /// As many sessions are live as may be.
    Crowded,
    /// The session has as many questions, or changes, as it may have.
    Many,
    /// The line asks for nothing.
    NotRead(Refusal),
}

/// Writes the text of an answer, each line of it ended by LF: the line, and behind that of a conflict the texts of both
/// replies.
/// `SinkFault`: a put failed, and no other was made after it. A prefix of the text may have been written, and nothing
/// else.
// Each function that writes a line clears the room of its text where it begins. They are not joined to this one, which
// would then clear the room of each for every answer.
#[tactic(auto, unfolding(crate::specs::Sessions::session_text, store_model::specs::Commands::reply_text))]
pub fn write_session_reply<W: Sink>(sink: &mut W, reply: &SessionReply) -> Result<(), SinkFault>
    ensures { IsPut (W.state sink.old) (W.state sink.new)
        (session_text (session_answer_of reply.now)) result }
{
    match reply {
        SessionReply::Began(number) => write_began(sink, *number),
        SessionReply::Answer(reply) => write_reply(sink, reply),
        SessionReply::Done => sink.put(b"ok\n"),
        SessionReply::Conflict { question, was, now } => write_conflict(sink, *question, was, now),
        SessionReply::Refused { index, reply } => write_refused(sink, *index, *reply),
        SessionReply::NoSession => sink.put(b"no session\n"),
        SessionReply::Crowded => sink.put(b"no crowded\n"),
        SessionReply::Many => sink.put(b"no many\n"),
        SessionReply::NotRead(refusal) => write_refusal(sink, *refusal),
    }
}

/// Writes the line of a session that began.
#[tactic(auto, unfolding(crate::specs::Sessions::session_text))]
#[inline(never)]
fn write_began<W: Sink>(sink: &mut W, number: u32) -> Result<(), SinkFault>
    ensures { IsPut (W.state sink.old) (W.state sink.new) (session_text (Began number)) result }
{
    let mut text = Text::new();
    text.push(b"ok ");
    text.push_number(number);
    text.push(b"\n");
    sink.put(text.as_slice())
}

/// Writes the line of a conflict, and the texts of both replies.
fn write_conflict<W: Sink>(
    sink: &mut W,
    question: u32,
    was: &Reply,
    now: &Reply,
) -> Result<(), SinkFault>
    ensures { IsPut (W.state sink.old) (W.state sink.new)
        (session_text (Conflicting question (reply_of was.now) (reply_of now.now))) result }
{
    write_conflict_line(sink, question)?;
    write_reply(sink, was)?;
    write_reply(sink, now)
}

/// Writes the first line of a conflict.
#[inline(never)]
fn write_conflict_line<W: Sink>(sink: &mut W, question: u32) -> Result<(), SinkFault>
    ensures { IsPut (W.state sink.old) (W.state sink.new)
        (line (codes "conflict " ++ decimal question)) result }
{
    let mut text = Text::new();
    text.push(b"conflict ");
    text.push_number(question);
    text.push(b"\n");
    sink.put(text.as_slice())
}

/// Writes the line of a change that is refused.
#[tactic(auto, unfolding(crate::specs::Sessions::session_text))]
#[inline(never)]
fn write_refused<W: Sink>(sink: &mut W, index: u32, refusal: Refusal) -> Result<(), SinkFault>
    ensures { IsPut (W.state sink.old) (W.state sink.new)
        (session_text (RefusedAt index refusal)) result }
{
    let mut text = Text::new();
    text.push(b"refused ");
    text.push_number(index);
    text.push(b" ");
    push_refusal(&mut text, refusal);
    text.push(b"\n");
    sink.put(text.as_slice())
}
