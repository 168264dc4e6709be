//! The steps of a dump, how a line asks for one, and how it is written.

ghost use Rattle.std.specs.Prelude.{◌≡◌, ◌≤◌, length, is_some, IsTrue};
ghost use Rattle.store_model.specs.Commands.{IsCommand};
ghost use Rattle.script_lines.specs.Parsing.{command_of};
ghost use Rattle.script_lines.specs.SinkState.{IsPut};
ghost use Rattle.dump_streams.specs.Dumps.{command_of_step, step_path, step_line};
ghost use Rattle.dump_streams.specs.Dumps.DumpStep.{Make, Write, Set};
ghost use Rattle.dump_streams.specs.Steps.{step_in, step_of, ReadsStep};

use path_keys::{AttrName, Path};
use script_lines::{Command, MAX_LINE, Sink, SinkFault, read_command, reveal, write_command};
use std::marker::Model;
use store_base::Bytes;

/// The parts of a step, lent.
#[derive(Clone, Copy, Debug)]
pub enum Step<'a> {
    /// Makes a directory.
    Make(&'a Path),
    /// Writes bytes into a file from an offset on.
    Write(&'a Path, u32, &'a Bytes),
    /// Gives a path an attribute with these bytes.
    Set(&'a Path, &'a AttrName, &'a Bytes),
}

/// A step of a dump, and the place of many that come one after another: a step has room for 4,096 bytes, which are
/// replaced where they stand. It is kept as the command that carries it out, so that lines are read into it and written
/// from it without a copy.
#[derive(Debug, Drop)]
pub struct DumpStep {
    command: Command,
}

impl Model for DumpStep {
    ghost use Rattle.dump_streams.specs.Dumps.{DumpStep};
    ghost use Rattle.std.specs.Prelude.{is_some, IsTrue};
    ghost use Rattle.script_lines.specs.Parsing.{command_of};
    ghost use Rattle.dump_streams.specs.Steps.{step_in, held_step};

    ghost Value = { DumpStep };

    ghost view = { λ s. held_step (command_of s.command) };

    ghost invariant = { λ s. IsTrue (is_some (step_in (command_of s.command))) };
}

impl DumpStep {
    /// A place for steps, in which any step stands.
    pub fn new() -> Self {
        DumpStep {
            command: any_command(),
        }
    }

    /// Puts the step here that makes a directory.
    pub fn make(&mut self, path: Path)
        ensures { self.new ≡ Make path }
    {
        self.command = Command::Make(path);
    }

    /// Puts the step here that writes bytes into a file from an offset on.
    pub fn write(&mut self, path: Path, at: u32, bytes: &[u8])
        requires { length bytes.now ≤ Bytes.MAX_LEN }
        ensures { self.new ≡ Write path at bytes.now }
    {
        if let Command::Write(old_path, old_at, old_bytes) = &mut self.command {
            *old_path = path;
            *old_at = at;
            old_bytes.set(bytes);
        } else {
            self.command = Command::Write(path, at, Bytes::new(bytes));
        }
    }

    /// Puts the step here that gives a path an attribute with these bytes.
    pub fn set(&mut self, path: Path, name: AttrName, bytes: &[u8])
        requires { length bytes.now ≤ Bytes.MAX_LEN }
        ensures { self.new ≡ Set path name bytes.now }
    {
        self.command = Command::Set(path, name, Bytes::new(bytes));
    }

    /// Its parts.
    pub fn parts(&self) -> Step<'_>
        ensures parts { step_of result ≡ self.now }
        ensures valid { IsCommand (command_of_step self.now) }
    {
        reveal(&self.command);
        match &self.command {
            Command::Make(path) => Step::Make(path),
            Command::Write(path, at, bytes) => Step::Write(path, *at, bytes),
            Command::Set(path, name, bytes) => Step::Set(path, name, bytes),
            _ => unreachable!(),
        }
    }

    /// The path that it is on.
    pub fn path(&self) -> &Path
        ensures { result.now ≡ step_path self.now }
    {
        match self.parts() {
            Step::Make(path) | Step::Write(path, _, _) | Step::Set(path, _, _) => path,
        }
    }
}

/// The command of a step.
fn any_command() -> Command
    ensures { IsTrue (is_some (step_in (command_of result))) }
{
    Command::Make(Path::root())
}

/// Whether a command carries out a step.
fn is_step(command: &Command) -> bool
    ensures { result ≡ is_some (step_in (command_of command.now)) }
{
    matches!(
        command,
        Command::Make(_) | Command::Write(_, _, _) | Command::Set(_, _, _)
    )
}

/// Reads the step that a line asks for into `step`. `false` where it asks for none: then any step may stand there.
pub fn read_step(text: &[u8], step: &mut DumpStep) -> bool
    requires { length text.now ≤ MAX_LINE }
    ensures { ReadsStep text.now step.new result }
{
    if read_command(text, &mut step.command).is_err() {
        step.command = any_command();
        return false;
    }
    if !is_step(&step.command) {
        step.command = any_command();
        return false;
    }
    true
}

/// Writes the line of a step, in one put.
/// `SinkFault`: the put failed. A prefix of the line may have been written.
pub fn write_step<W: Sink>(sink: &mut W, step: &DumpStep) -> Result<(), SinkFault>
    ensures { IsPut (W.state sink.old) (W.state sink.new) (step_line step.now) result }
{
    write_command(sink, &step.command)
}
