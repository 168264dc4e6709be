//! What a live session keeps: the questions with their answers, and the changes.

use crate::fault::SessionFault;
use crate::sessions::MAX_NOTES;
use script_lines::{Change, Question, Reply};
use std::alloc::Global;
use std::marker::Model;

/// A question, and what it was answered.
#[derive(Debug, Drop)]
pub(crate) struct Note {
    pub(crate) question: Question,
    pub(crate) reply: Reply,
}

/// A live session. Contracts see it as what it asked, with the answers, and what it is to change.
#[derive(Debug, Drop)]
pub(crate) struct Session {
    pub(crate) asked: Vec<Note>,
    pub(crate) staged: Vec<Change>,
}

impl Model for Session {
    ghost use Rattle.std.specs.Prelude.{◌≤◌, length, map};
    ghost use Rattle.script_lines.specs.Sessions.{change_of};
    ghost use Rattle.session_core.specs.Machine.{Session, note_limit};
    ghost use Rattle.session_core.specs.Noted.{note_of};

    ghost Value = { Session };

    ghost view = { λ s. record {
      asked = map note_of s.asked.items;
      staged = map change_of s.staged.items;
    } };

    ghost invariant = { λ s. (length s.asked.items ≤ note_limit)
        × (length s.staged.items ≤ note_limit) };
}

impl Session {
    ghost use Rattle.std.specs.Prelude.{◌≡◌, ◌<◌, ◌++◌, ◌∷◌, [], length};
    ghost use Rattle.script_lines.specs.Sessions.{change_of};
    ghost use Rattle.session_core.specs.Machine.{new_session, note_limit};
    ghost use Rattle.session_core.specs.Noted.{note_of};
    ghost use Rattle.session_core.specs.SessionSteps.{TakesNote};

    /// A session that has asked and staged nothing. It takes no memory.
    pub(crate) fn new(alloc: Global) -> Session
        ensures { result ≡ new_session }
    {
        Session {
            asked: Vec::new(alloc),
            staged: Vec::new(alloc),
        }
    }

    /// Notes a question with its answer, behind those that are noted. There has to be room among them.
    /// `NoMemory`: nothing is noted.
    pub(crate) fn note(&mut self, note: Note) -> Result<(), SessionFault>
        requires { length self.old.asked < note_limit }
        ensures { TakesNote (length self.old.asked) self.old (record {
          asked = self.old.asked ++ note_of note ∷ [];
          staged = self.old.staged;
        }) self.new result }
    {
        self.asked.push(note)?;
        Ok(())
    }

    /// Notes a change, behind those that are staged.
    /// `Many`: it has as many as it may have. Then `NoMemory`. After either of them nothing is noted.
    pub(crate) fn stage(&mut self, change: &Change) -> Result<(), SessionFault>
        ensures { TakesNote (length self.old.staged) self.old (record {
          asked = self.old.asked;
          staged = self.old.staged ++ change_of change.now ∷ [];
        }) self.new result }
    {
        if self.staged.len() >= MAX_NOTES {
            return Err(SessionFault::Many);
        }
        self.staged.push(change.copy())?;
        Ok(())
    }
}
