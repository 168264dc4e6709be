//! The calls on sessions that write nothing: begin, ask, stage, drop.

ghost use Rattle.std.specs.Prelude.{◌≡◌, Err, length, is_none};
ghost use Rattle.std.specs.List.{position};
ghost use Rattle.script_lines.specs.InPlace.{in_place};
ghost use Rattle.script_lines.specs.Replies.{reply_of};
ghost use Rattle.script_lines.specs.Sessions.{question_of, change_of};
ghost use Rattle.script_lines.specs.Sessions.SessionCall.{Begin, Ask, Stage, Leave};
ghost use Rattle.script_lines.specs.Sessions.{SessionAnswer as answers};
ghost use Rattle.session_core.specs.Machine.{live_limit};
ghost use Rattle.session_core.specs.SessionCalls.{CallsSessions, IsOfSessions};
ghost use Rattle.session_core.specs.SessionSteps.{AsksIn, FindsPlace, KeepsTree, Runs, StagesIn, LeavesIn};

use crate::fault::SessionFault;
use crate::notes::{Note, Session};
use crate::sessions::{MAX_NOTES, Sessions};
use disk_model::Disk;
use script_lines::{Change, Question, Reply};
use std::alloc::Global;
use store_core::Store;

impl<D: Disk> Sessions<D> {
    /// Begins a session, and answers its number: the least that no live session has. It takes no memory and calls
    /// nothing.
    ///
    /// `Stopped`, exactly where the store is stopped. `Crowded`, exactly where 64 sessions are live.
    pub fn begin(&mut self) -> Result<u32, SessionFault>
        ensures call { CallsSessions D.state Begin answers.Began self.old self.new result }
        ensures alone { IsOfSessions Begin answers.Began self.old self.new result }
        ensures room { result ≡ Err SessionFault.NoMemory → ⊥ }
    {
        self.check_running()?;
        let Some(place) = first_free(&self.places) else {
            return Err(SessionFault::Crowded);
        };
        self.places[place] = Some(Session::new(self.alloc));
        Ok(place as u32)
    }

    /// Answers a question on the tree as it was last committed, and notes it with its answer.
    ///
    /// `Stopped`, exactly where the store is stopped. `Unknown`, exactly where no live session has the number.
    /// `Many`, exactly where it has 64 questions. Then `Disk` and `NoMemory`, as from `Store::apply`. After each of
    /// them nothing is noted, and nothing was written.
    pub fn ask(&mut self, id: u32, question: &Question) -> Result<Reply, SessionFault>
        ensures call { CallsSessions D.state (Ask id (question_of question.now))
            (λ reply. answers.Replied (reply_of reply)) self.old self.new result }
    {
        let mut reply = Reply::Ok;
        self.ask_into(id, question, &mut reply)?;
        Ok(reply)
    }

    /// Answers a question, as `ask` does, and puts the reply into `reply`. After a fault any reply may stand there.
    pub fn ask_into(
        &mut self,
        id: u32,
        question: &Question,
        reply: &mut Reply,
    ) -> Result<(), SessionFault>
        ensures call { CallsSessions D.state (Ask id (question_of question.now))
            (λ reply. answers.Replied (reply_of reply))
            self.old self.new (in_place reply.new result) }
    {
        let place = self.place_of(id)?;
        ask_in(
            self.alloc,
            &mut self.store,
            &mut self.places[place],
            question,
            reply,
        )
    }

    /// Notes a change, to be carried out by the commit. It calls nothing.
    ///
    /// `Stopped`, exactly where the store is stopped. `Unknown`, exactly where no live session has the number. `Many`,
    /// exactly where it has 64 changes. Then `NoMemory`. After each of them nothing is noted.
    pub fn stage(&mut self, id: u32, change: &Change) -> Result<(), SessionFault>
        ensures call { CallsSessions D.state (Stage id (change_of change.now))
            (λ _. answers.Done) self.old self.new result }
        ensures alone { IsOfSessions (Stage id (change_of change.now))
            (λ _. answers.Done) self.old self.new result }
    {
        let place = self.place_of(id)?;
        stage_in(&mut self.places[place], change)
    }

    /// Ends a session, and carries nothing out. It takes no memory and calls nothing.
    ///
    /// `Stopped`, exactly where the store is stopped. `Unknown`, exactly where no live session has the number.
    pub fn drop_group(&mut self, id: u32) -> Result<(), SessionFault>
        ensures call { CallsSessions D.state (Leave id)
            (λ _. answers.Done) self.old self.new result }
        ensures alone { IsOfSessions (Leave id) (λ _. answers.Done) self.old self.new result }
        ensures room { result ≡ Err SessionFault.NoMemory → ⊥ }
    {
        let place = self.place_of(id)?;
        drop_in(&mut self.places[place])
    }

    /// Answers `Stopped`, exactly where the store is stopped.
    fn check_running(&self) -> Result<(), SessionFault>
        ensures runs { Runs self.now result }
        ensures sized { length self.now.places ≡ live_limit }
        ensures kept { KeepsTree D.state self.now.store }
    {
        // Called for its contract, which tells that the tree fits.
        let _ = self.store.params();
        if self.store.is_stopped() {
            return Err(SessionFault::Stopped);
        }
        Ok(())
    }

    /// The place of a number, whether or not a session is live there.
    ///
    /// `Stopped`, exactly where the store is stopped. `Unknown`: there is no place of that number.
    pub(crate) fn place_of(&self, id: u32) -> Result<usize, SessionFault>
        ensures found { FindsPlace self.now id result }
        ensures sized { length self.now.places ≡ live_limit }
        ensures kept { KeepsTree D.state self.now.store }
    {
        self.check_running()?;
        let place = id as usize;
        if place >= self.places.len() {
            return Err(SessionFault::Unknown);
        }
        Ok(place)
    }
}

/// The first place where no session is live, if there is one.
fn first_free(places: &[Option<Session>]) -> Option<usize>
    ensures { result ≡ position is_none places.now }
{
    places.iter().position(|place| place.is_none())
}

/// Answers a question, and notes it with its answer in the session of a place.
///
/// `Unknown`, exactly where none is live there. `Many`, exactly where it has as many questions as it may have. Then the
/// store's faults, and `NoMemory`. After each of them nothing is noted.
fn ask_in<D: Disk>(
    alloc: Global,
    store: &mut Store<D>,
    place: &mut Option<Session>,
    question: &Question,
    reply: &mut Reply,
) -> Result<(), SessionFault>
    ensures { AsksIn D.state (question_of question.now)
        store.old store.new place.old place.new (in_place reply.new result) }
{
    let Some(session) = place else {
        return Err(SessionFault::Unknown);
    };
    if session.asked.len() >= MAX_NOTES {
        return Err(SessionFault::Many);
    }
    store.apply_into(&question.command(), reply)?;
    let note = Note {
        question: question.copy(),
        reply: reply.copy(alloc)?,
    };
    session.note(note)
}

/// Notes a change in the session of a place, as `Session::stage`. `Unknown`, exactly where none is live there.
fn stage_in(place: &mut Option<Session>, change: &Change) -> Result<(), SessionFault>
    ensures { StagesIn (change_of change.now) place.old place.new result }
{
    match place {
        None => Err(SessionFault::Unknown),
        Some(session) => session.stage(change),
    }
}

/// Ends the session of a place. `Unknown`, exactly where none is live there.
fn drop_in(place: &mut Option<Session>) -> Result<(), SessionFault>
    ensures { LeavesIn place.old place.new result }
{
    if place.is_none() {
        return Err(SessionFault::Unknown);
    }
    *place = None;
    Ok(())
}
