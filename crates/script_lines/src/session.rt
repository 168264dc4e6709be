//! The lines of a session: questions and changes, and the calls that they are in.

ghost use Rattle.std.specs.Prelude.{◌≡◌, ◌≤◌, ◌∷◌, [], length, false, MatchOption};
ghost use Rattle.script_lines.specs.InPlace.{in_place};
ghost use Rattle.script_lines.specs.Parsing.{command_of, parts_of};
ghost use Rattle.script_lines.specs.Sessions.{question_of, change_of, session_reading_of, parse_session};
ghost use Rattle.script_lines.specs.Sessions.{call_of_fields, checked_call, is_question, is_change};
ghost use Rattle.script_lines.specs.Sessions.SessionCall.{Ask, Stage};
ghost use Rattle.script_lines.specs.SessionParts.{call_on, call_on_command, call_that, IsCommandThat};

use crate::command::{Command, read_command};
use crate::copies::copied;
use crate::fields::{CallFields, has_change_word, parse_number, split_call};
use crate::lines::MAX_LINE;
use path_keys::{AttrName, Path};
use store_base::Bytes;
use store_model::Refusal;

/// A command that asks, and changes nothing.
#[derive(Debug, Drop)]
pub enum Question {
    /// Lists a directory.
    List(Path),
    /// Reads bytes of a file from an offset on, at most so many.
    Read(Path, u32, u32),
    /// Counts the slots that are used.
    Space,
    /// Asks for the digest of the image.
    Digest,
    /// Asks for the bytes of an attribute.
    Get(Path, AttrName),
    /// Lists the attributes of a path.
    Attrs(Path),
}

impl Question {
    /// The question as a command.
    pub fn command(&self) -> Command
        ensures { command_of result ≡ question_of self.now }
    {
        match self {
            Question::List(path) => Command::List(*path),
            Question::Read(path, at, len) => Command::Read(*path, *at, *len),
            Question::Space => Command::Space,
            Question::Digest => Command::Digest,
            Question::Get(path, name) => Command::Get(*path, *name),
            Question::Attrs(path) => Command::Attrs(*path),
        }
    }

    /// Copies the question. It takes no memory.
    pub fn copy(&self) -> Question
        ensures { result ≡ self.now }
    {
        match self {
            Question::List(path) => Question::List(*path),
            Question::Read(path, at, len) => Question::Read(*path, *at, *len),
            Question::Space => Question::Space,
            Question::Digest => Question::Digest,
            Question::Get(path, name) => Question::Get(*path, *name),
            Question::Attrs(path) => Question::Attrs(*path),
        }
    }
}

/// A command that changes the tree.
#[derive(Debug, Drop)]
pub enum Change {
    /// Makes a directory.
    Make(Path),
    /// Puts bytes into a file from an offset on, over what is there and past its end.
    Write(Path, u32, Bytes),
    /// Cuts a file to its first bytes, so many.
    Cut(Path, u32),
    /// Moves a file or a subtree.
    Rename(Path, Path),
    /// Takes away a file or an empty directory.
    Remove(Path),
    /// Takes away a path and all below it.
    Prune(Path),
    /// Sets an attribute of a path to these bytes. It replaces one of this name.
    Set(Path, AttrName, Bytes),
    /// Takes an attribute of a path away.
    Unset(Path, AttrName),
}

impl Change {
    /// The change as a command.
    pub fn command(&self) -> Command
        ensures { command_of result ≡ change_of self.now }
    {
        match self {
            Change::Make(path) => Command::Make(*path),
            Change::Write(path, at, bytes) => Command::Write(*path, *at, copied(bytes)),
            Change::Cut(path, len) => Command::Cut(*path, *len),
            Change::Rename(from, to) => Command::Rename(*from, *to),
            Change::Remove(path) => Command::Remove(*path),
            Change::Prune(path) => Command::Prune(*path),
            Change::Set(path, name, bytes) => Command::Set(*path, *name, copied(bytes)),
            Change::Unset(path, name) => Command::Unset(*path, *name),
        }
    }

    /// Copies the change. It takes no memory.
    pub fn copy(&self) -> Change
        ensures { result ≡ self.now }
    {
        match self {
            Change::Make(path) => Change::Make(*path),
            Change::Write(path, at, bytes) => Change::Write(*path, *at, copied(bytes)),
            Change::Cut(path, len) => Change::Cut(*path, *len),
            Change::Rename(from, to) => Change::Rename(*from, *to),
            Change::Remove(path) => Change::Remove(*path),
            Change::Prune(path) => Change::Prune(*path),
            Change::Set(path, name, bytes) => Change::Set(*path, *name, copied(bytes)),
            Change::Unset(path, name) => Change::Unset(*path, *name),
        }
    }
}

/// What a line of a session asks for. A session is named by its number.
#[derive(Debug, Drop)]
pub enum SessionLine {
    /// A new session.
    Begin,
    /// The answer to a question, which is noted.
    Ask(u32, Question),
    /// That a change is noted, to be carried out by the commit.
    Stage(u32, Change),
    /// That the noted changes are carried out together, and the session ends.
    Commit(u32),
    /// That the session ends, and nothing is carried out.
    Leave(u32),
}

/// Reads what a line of a session asks for.
/// `Syntax`: the line spells nothing, however long paths may be. `Path`: it does, and a path in it has more than 120
/// bytes. It takes no memory.
pub fn parse_session(text: &[u8]) -> Result<SessionLine, Refusal>
    requires { length text.now ≤ MAX_LINE }
    ensures { session_reading_of result ≡ parse_session text.now }
{
    let mut command = Command::Space;
    let mut line = SessionLine::Begin;
    read_session_line(text, &mut command, &mut line)?;
    Ok(line)
}

/// Reads what a line of a session asks for, as `parse_session` does, into `line`. A command in it is read in
/// `command`. Both are large, so a reader of many lines keeps these two places for them all. After the call any
/// command may stand in `command`, and after a refusal any line in `line`.
pub fn read_session_line(
    text: &[u8],
    command: &mut Command,
    line: &mut SessionLine,
) -> Result<(), Refusal>
    requires { length text.now ≤ MAX_LINE }
    ensures { session_reading_of (in_place line.new result) ≡ parse_session text.now }
{
    match split_call(text) {
        CallFields::One(word) => read_begin(word, line),
        CallFields::Two(word, number) => read_end(word, number, line),
        CallFields::More(word, number, rest) => read_on_command(word, number, rest, command, line),
    }
}

/// Reads the line of a word alone.
#[tactic(auto, unfolding(crate::specs::Sessions::call_of_fields, crate::specs::Sessions::call_has_short_paths))]
// Joined to its caller, its room for a line would be cleared for other lines too.
#[inline(never)]
fn read_begin(word: &[u8], line: &mut SessionLine) -> Result<(), Refusal>
    ensures { session_reading_of (in_place line.new result)
        ≡ checked_call (call_of_fields (word.now ∷ [])) }
{
    if word != b"begin".as_slice() {
        return Err(Refusal::Syntax);
    }
    *line = SessionLine::Begin;
    Ok(())
}

/// Reads the line of a word and the number of a session.
#[tactic(auto, unfolding(crate::specs::Sessions::call_of_fields, crate::specs::Sessions::call_has_short_paths))]
// Joined to its caller, its room for a line would be cleared for other lines too.
#[inline(never)]
fn read_end(word: &[u8], number: &[u8], line: &mut SessionLine) -> Result<(), Refusal>
    ensures { session_reading_of (in_place line.new result)
        ≡ checked_call (call_of_fields (word.now ∷ number.now ∷ [])) }
{
    let Some(number) = parse_number(number) else {
        return Err(Refusal::Syntax);
    };
    if word == b"commit".as_slice() {
        *line = SessionLine::Commit(number);
    } else if word == b"drop".as_slice() {
        *line = SessionLine::Leave(number);
    } else {
        return Err(Refusal::Syntax);
    }
    Ok(())
}

/// Reads the line of a word, the number of a session and a command.
fn read_on_command(
    word: &[u8],
    number: &[u8],
    text: &[u8],
    command: &mut Command,
    line: &mut SessionLine,
) -> Result<(), Refusal>
    requires { length text.now ≤ MAX_LINE }
    ensures { session_reading_of (in_place line.new result)
        ≡ checked_call (call_on_command word.now number.now (parts_of text.now)) }
{
    let Some(number) = parse_number(number) else {
        return Err(Refusal::Syntax);
    };
    if word == b"ask".as_slice() {
        read_ask(number, text, command, line)
    } else if word == b"stage".as_slice() {
        read_stage(number, text, command, line)
    } else {
        Err(Refusal::Syntax)
    }
}

/// Reads a question that a session asks. A change is `Syntax`, even where its path is too long.
fn read_ask(
    number: u32,
    text: &[u8],
    command: &mut Command,
    line: &mut SessionLine,
) -> Result<(), Refusal>
    requires { length text.now ≤ MAX_LINE }
    ensures { session_reading_of (in_place line.new result)
        ≡ checked_call (call_on is_question (Ask number) (parts_of text.now)) }
{
    match read_command(text, command) {
        Ok(()) => put_question(number, command, line),
        Err(_) if has_change_word(text) => Err(Refusal::Syntax),
        Err(refusal) => Err(refusal),
    }
}

/// Reads a change that a session stages. A question is `Syntax`, even where its path is too long.
fn read_stage(
    number: u32,
    text: &[u8],
    command: &mut Command,
    line: &mut SessionLine,
) -> Result<(), Refusal>
    requires { length text.now ≤ MAX_LINE }
    ensures { session_reading_of (in_place line.new result)
        ≡ checked_call (call_on is_change (Stage number) (parts_of text.now)) }
{
    match read_command(text, command) {
        Ok(()) => put_change(number, command, line),
        Err(_) if !has_change_word(text) => Err(Refusal::Syntax),
        Err(refusal) => Err(refusal),
    }
}

/// Replaces a line by the one that asks this command. `Syntax`: the command is no question.
fn put_question(number: u32, command: &Command, line: &mut SessionLine) -> Result<(), Refusal>
    ensures { session_reading_of (in_place line.new result)
        ≡ call_that is_question (Ask number) (command_of command.now) }
{
    let Some(question) = question_from(command) else {
        return Err(Refusal::Syntax);
    };
    if let SessionLine::Ask(old_number, old_question) = line {
        *old_number = number;
        *old_question = question;
    } else {
        make_ask(number, question, line);
    }
    Ok(())
}

/// Makes the line that asks a question, in `line`.
// Joined to `put_question`, its room for a line would be cleared also where a question stands there.
#[inline(never)]
fn make_ask(number: u32, question: Question, line: &mut SessionLine)
    ensures { line.new ≡ SessionLine.Ask number question }
{
    *line = SessionLine::Ask(number, question);
}

/// The question that a command is.
fn question_from(command: &Command) -> Option<Question>
    ensures { MatchOption result (is_question (command_of command.now) ≡ false)
        (λ question. IsCommandThat is_question (question_of question) (command_of command.now)) }
{
    match command {
        Command::List(path) => Some(Question::List(*path)),
        Command::Read(path, at, len) => Some(Question::Read(*path, *at, *len)),
        Command::Space => Some(Question::Space),
        Command::Digest => Some(Question::Digest),
        Command::Get(path, name) => Some(Question::Get(*path, *name)),
        Command::Attrs(path) => Some(Question::Attrs(*path)),
        _ => None,
    }
}

/// Replaces a line by the one that stages this command. `Syntax`: the command is no change. Where a `write` is staged
/// there, its bytes take the place of the other's.
fn put_change(number: u32, command: &Command, line: &mut SessionLine) -> Result<(), Refusal>
    ensures { session_reading_of (in_place line.new result)
        ≡ call_that is_change (Stage number) (command_of command.now) }
{
    if let Command::Write(path, at, bytes) = command {
        if let SessionLine::Stage(old_number, change) = line {
            if let Change::Write(old_path, old_at, old_bytes) = change {
                *old_number = number;
                *old_path = *path;
                *old_at = *at;
                old_bytes.set(bytes.as_slice());
                return Ok(());
            }
        }
    }
    make_stage(number, command, line)
}

/// Makes the line that stages this command, in `line`. `Syntax`: the command is no change.
// Joined to `put_change`, its room for a line would be cleared also where a `write` takes the place of another.
#[inline(never)]
fn make_stage(number: u32, command: &Command, line: &mut SessionLine) -> Result<(), Refusal>
    ensures { session_reading_of (in_place line.new result)
        ≡ call_that is_change (Stage number) (command_of command.now) }
{
    let Some(change) = change_from(command) else {
        return Err(Refusal::Syntax);
    };
    *line = SessionLine::Stage(number, change);
    Ok(())
}

/// The change that a command is.
fn change_from(command: &Command) -> Option<Change>
    ensures { MatchOption result (is_change (command_of command.now) ≡ false)
        (λ change. IsCommandThat is_change (change_of change) (command_of command.now)) }
{
    match command {
        Command::Make(path) => Some(Change::Make(*path)),
        Command::Write(path, at, bytes) => Some(Change::Write(*path, *at, copied(bytes))),
        Command::Cut(path, len) => Some(Change::Cut(*path, *len)),
        Command::Rename(from, to) => Some(Change::Rename(*from, *to)),
        Command::Remove(path) => Some(Change::Remove(*path)),
        Command::Prune(path) => Some(Change::Prune(*path)),
        Command::Set(path, name, bytes) => Some(Change::Set(*path, *name, copied(bytes))),
        Command::Unset(path, name) => Some(Change::Unset(*path, *name)),
        _ => None,
    }
}
