//! The commit of a session's group.

ghost use Rattle.std.specs.Prelude.{◌≡◌, ◌<◌, false, length, map, IfOk, IfSome, OnErr};
ghost use Rattle.script_lines.specs.Replies.{reply_of};
ghost use Rattle.script_lines.specs.Sessions.SessionCall.{Commit};
ghost use Rattle.session_core.specs.Noted.{note_of};
ghost use Rattle.session_core.specs.SessionCalls.{CallsSessions, committed_answer};
ghost use Rattle.session_core.specs.SessionSteps.{KeepsTree, AsksAgain, CommitsSession, CommitsIn};

use crate::committed::Committed;
use crate::fault::SessionFault;
use crate::notes::{Note, Session};
use crate::sessions::Sessions;
use disk_model::Disk;
use script_lines::Reply;
use store_core::{ApplyFault, GroupAnswer, Store};

impl<D: Disk> Sessions<D> {
    /// Commits the group of a session. Each of its questions is asked again. Where all are answered as they were, its
    /// changes are carried out as `Store::apply_all` does: all of them, durable at the return, or none where one is
    /// refused. Each answer that is no fault ends the session.
    ///
    /// A group that changes d slots makes 5d + 2 writes and 5 syncs; a conflict, a refusal and a group that changes no
    /// slot make none. Each image that a crash at any moment of the call may leave represents the tree before the whole
    /// group or the one after it.
    ///
    /// `Stopped`, exactly where the store is stopped. `Unknown`, exactly where no live session has the number. Then
    /// `Disk` and `NoMemory`, as from `Store::apply_all`: the session stays live, and unless the store is stopped
    /// nothing was written.
    pub fn commit(&mut self, id: u32) -> Result<Committed, SessionFault>
        ensures call { CallsSessions D.state (Commit id) committed_answer self.old self.new result }
    {
        let place = self.place_of(id)?;
        commit_in(&mut self.store, &mut self.places[place])
    }
}

/// Commits the group of the session in a place. After an answer the place is empty. `Unknown`, exactly where no
/// session is live there. After a fault the place is as it was.
fn commit_in<D: Disk>(
    store: &mut Store<D>,
    place: &mut Option<Session>,
) -> Result<Committed, SessionFault>
    requires keeps { KeepsTree D.state store.old }
    requires runs { store.old.is_stopped ≡ false }
    ensures { CommitsIn D.state store.old store.new place.old place.new result }
{
    let Some(session) = place else {
        return Err(SessionFault::Unknown);
    };
    let committed = commit_session(store, session)?;
    *place = None;
    Ok(committed)
}

/// Commits the group of a session. After a fault the session is as it was, and else it is spent.
fn commit_session<D: Disk>(
    store: &mut Store<D>,
    session: &mut Session,
) -> Result<Committed, ApplyFault>
    requires keeps { KeepsTree D.state store.old }
    requires runs { store.old.is_stopped ≡ false }
    ensures commits { CommitsSession D.state session.old store.old store.new result }
    ensures kept { OnErr result (session.new ≡ session.old) }
{
    let mut now = Reply::Ok;
    if let Some(question) = first_difference(store, &session.asked, &mut now)? {
        return Ok(Committed::Conflict {
            question: question as u32,
            was: session.asked.swap_remove(question).reply,
            now,
        });
    }
    match store.apply_all(&session.staged)? {
        GroupAnswer::Done => Ok(Committed::Ok),
        GroupAnswer::Refused { index, reply } => Ok(Committed::Refused { index, reply }),
    }
}

/// Asks noted questions again, one after another, up to the first whose answer is not the one noted. It gives the
/// number of that question, whose answer then stands in `now`.
///
/// `Disk` and `NoMemory`, as from `Store::apply`.
fn first_difference<D: Disk>(
    store: &mut Store<D>,
    notes: &[Note],
    now: &mut Reply,
) -> Result<Option<usize>, ApplyFault>
    requires keeps { KeepsTree D.state store.old }
    requires runs { store.old.is_stopped ≡ false }
    ensures asks { AsksAgain D.state (map note_of notes.now)
        (reply_of now.new) store.old store.new result }
    ensures within { IfOk result (λ found. IfSome found (λ number. number < length notes.now)) }
{
    for (index, note) in notes.iter().enumerate() {
        store.apply_into(&note.question.command(), now)?;
        if !note.reply.is_same(now) {
            return Ok(Some(index));
        }
    }
    Ok(None)
}
