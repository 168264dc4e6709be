//! The lines of a script, as a work for the loop.

use crate::work::{Asked, Work};
use image_subcommands::Status;
use script_lines::{Command, Line, LineReader, Reply, Sink, Source, read_command, write_reply};
use store_model::Refusal;

/// A script: the reader of its lines, and where the replies go.
#[derive(Drop)]
pub struct Script<R: Source, W> {
    /// The lines that are to come.
    pub reader: LineReader<R>,
    /// Where their replies go.
    pub sink: W,
}

impl<R: Source, W: Sink> Work for Script<R, W> {
    ghost use Rattle.script_lines.specs.LineState.{unread};
    ghost use Rattle.script_runs.specs.ScriptWork.{ScriptTold, ScriptLive, script_trees, ScriptKept, ScriptDue};
    ghost use Rattle.script_runs.specs.ScriptWork.{ScriptEnds};

    ghost told = { λ script. ScriptTold R.state W.state script };

    ghost trees = { λ script start. script_trees R.state W.state script start };

    ghost left = { λ script. unread script.reader };

    ghost live = { λ script. ScriptLive R.state W.state script };

    ghost kept = { λ start first now done. ScriptKept R.state W.state start first now done };

    ghost due = { λ start first now done asked.
        ScriptDue R.state W.state start first now done asked };

    ghost ends = { λ start first new done status.
        ScriptEnds R.state W.state start first new done status };

    fn next(&mut self, command: &mut Command) -> Result<Asked, Status> {
        match self.reader.next_line()? {
            Line::Text => Ok(Asked::by_reading(read_command(self.reader.text(), command))),
            Line::Long => Ok(Asked::Refused(Refusal::Long)),
            Line::End => Ok(Asked::End),
        }
    }

    fn answered(&mut self, reply: &Reply) -> Result<(), Status> {
        Ok(write_reply(&mut self.sink, reply)?)
    }
}
