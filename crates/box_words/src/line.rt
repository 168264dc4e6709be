//! What a line of words asks for.

use crate::call::{Call, call_of};
use crate::fault::CallFault;
use crate::options::{Common, common_of};
use crate::subcommands::{Subcommand, command, subcommand_of, summary_of};
use crate::visible::Visible;
use clap::error::ErrorKind;
use std::alloc::{AllocError, AllocFailed, Global};
use thiserror::Error;

/// What a line of words asks for.
#[derive(Debug, Drop)]
pub enum Asked<'a> {
    /// The help: of the subcommand with this word, or of the program.
    Help(Option<&'static str>),
    /// The version.
    Version,
    /// A call, and the options of each subcommand.
    Call(Call<'a>, Common),
}

/// Why a line of words asks for nothing.
#[derive(Debug, Drop, Error)]
pub enum WordsFault {
    /// The words are not well formed. The texts are lines without control characters.
    #[error("{wrong}")]
    Words {
        /// What the words are of: a subcommand, or a word that is none; the empty text where there is no word.
        thing: String,
        /// What is wrong, with the word that is in quotes.
        wrong: String,
        /// What to do.
        advice: String,
    },
    /// Memory ran out.
    #[error("memory ran out")]
    NoMemory,
}

impl From<AllocError> for WordsFault {
    fn from(_: AllocError) -> Self {
        WordsFault::NoMemory
    }
}

impl<T: Drop> From<AllocFailed<T>> for WordsFault {
    fn from(_: AllocFailed<T>) -> Self {
        WordsFault::NoMemory
    }
}

/// Whether a word asks for help.
fn is_help(word: &str) -> bool {
    word == "-h" || word == "--help"
}

/// The subcommand whose help is asked for; nothing for that of the program.
fn topic_of(words: &[String]) -> Option<&'static str> {
    for word in words {
        if let Some(subcommand) = subcommand_of(word.as_str()) {
            return Some(subcommand.name);
        }
    }
    None
}

/// The help or the version, where the words ask for one of them. Words behind `--` do not.
fn shown_alone<'a>(words: &[String]) -> Option<Asked<'a>> {
    for (at, word) in words.iter().enumerate() {
        let word = word.as_str();
        if word == "--" {
            return None;
        }
        if is_help(word) || (at == 0 && word == "help") {
            return Some(Asked::Help(topic_of(words)));
        }
        if at == 0 && (word == "--version" || word == "-V") {
            return Some(Asked::Version);
        }
    }
    None
}

/// What is wrong with the words, in one line, of the text that `clap` has for it: its first paragraph.
fn wrong_of(alloc: Global, text: &str) -> Result<String, AllocError> {
    let mut line = String::new(alloc);
    for part in text.lines().take_while(|part| !part.is_empty()) {
        let part = part.trim();
        let part = part.strip_prefix("error: ").unwrap_or(part);
        if !line.is_empty() {
            line.push(' ')?;
        }
        write!(line, "{}", Visible(part))?;
    }
    Ok(line)
}

/// What to do, in one line: the nearest known words, where the text has some, and where more is told of the subcommand
/// with this word, or of all.
fn advice_of(alloc: Global, text: &str, topic: Option<&'static str>) -> Result<String, AllocError> {
    let mut line = String::new(alloc);
    for part in text.lines() {
        if let Some(tip) = part.trim().strip_prefix("tip: ")
            && !tip.starts_with("to pass")
        {
            write!(line, "{}; ", Visible(tip))?;
        }
    }
    match topic {
        Some(name) => write!(line, "hbox {name} --help tells how it is called")?,
        None => line.push_str("hbox --help lists the subcommands")?,
    }
    Ok(line)
}

/// Words of other programs, each with the subcommand that does what they do.
static FOREIGN: [(&str, &str); 20] = [
    ("cat", "get"),
    ("delete", "rm"),
    ("diff", "compare"),
    ("dir", "ls"),
    ("dump", "pack"),
    ("export", "extract"),
    ("find", "ls"),
    ("init", "create"),
    ("md", "mkdir"),
    ("move", "mv"),
    ("new", "create"),
    ("remove", "rm"),
    ("rename", "mv"),
    ("show", "get"),
    ("stat", "info"),
    ("tree", "ls"),
    ("unlink", "rm"),
    ("unzip", "extract"),
    ("verify", "check"),
    ("xattr", "attr"),
];

/// What to do where a word that is no subcommand is one of another program.
fn translated(alloc: Global, word: &str) -> Result<Option<String>, AllocError> {
    for (foreign, name) in &FOREIGN {
        if word == *foreign
            && let Some(summary) = summary_of(name)
        {
            return Ok(Some(format!(in alloc; "hbox {name} {summary}")?));
        }
    }
    Ok(None)
}

/// What to do where the first word is no subcommand, and the second is: the words stand in the order of `hstore`.
fn turned_round(alloc: Global, words: &[String]) -> Result<Option<String>, AllocError> {
    let [image, word, ..] = words else {
        return Ok(None);
    };
    let Some(Subcommand { name, .. }) = subcommand_of(word.as_str()) else {
        return Ok(None);
    };
    let image = Visible(image.as_str());
    Ok(Some(format!(in alloc; "the subcommand stands first: hbox {name} {image}")?))
}

/// What to do where the first word is no subcommand.
fn first_advice(alloc: Global, words: &[String], text: &str) -> Result<String, AllocError> {
    if let Some(advice) = turned_round(alloc, words)? {
        return Ok(advice);
    }
    if let Some(word) = words.first()
        && let Some(advice) = translated(alloc, word.as_str())?
    {
        return Ok(advice);
    }
    advice_of(alloc, text, None)
}

/// The fault of a first word that is no subcommand.
fn no_subcommand(alloc: Global, words: &[String], text: &str) -> Result<WordsFault, AllocError> {
    let advice = first_advice(alloc, words, text)?;
    let (thing, wrong) = match words.first() {
        Some(word) => (word.as_str(), "no subcommand has this name"),
        None => ("", "no subcommand is given"),
    };
    Ok(WordsFault::Words {
        thing: format!(in alloc; "{}", Visible(thing))?,
        wrong: String::from_str(alloc, wrong)?,
        advice,
    })
}

/// The fault of the words behind a subcommand, with what is wrong.
fn bad_words(
    alloc: Global,
    topic: &'static str,
    text: &str,
    wrong: String,
) -> Result<WordsFault, AllocError> {
    Ok(WordsFault::Words {
        thing: String::from_str(alloc, topic)?,
        wrong,
        advice: advice_of(alloc, text, Some(topic))?,
    })
}

/// The fault that the text of an error says.
fn said(alloc: Global, words: &[String], text: &str) -> Result<WordsFault, AllocError> {
    let first = words.first().and_then(|word| subcommand_of(word.as_str()));
    match first {
        Some(Subcommand { name, .. }) => {
            let wrong = wrong_of(alloc, text)?;
            bad_words(alloc, name, text, wrong)
        }
        None => no_subcommand(alloc, words, text),
    }
}

/// What is wrong with the words.
fn refused(alloc: Global, words: &[String], error: &clap::Error) -> Result<WordsFault, AllocError> {
    match error.kind() {
        ErrorKind::OutOfMemory => Ok(WordsFault::NoMemory),
        _ => {
            let text = format!(in alloc; "{error}")?;
            said(alloc, words, text.as_str())
        }
    }
}

/// Reads what the words behind the name of the program ask for. Options stand anywhere behind the subcommand, and `--`
/// ends them.
/// `Words`: the words are not well formed, and how. `NoMemory`: it was not found out.
pub fn read<'a>(alloc: Global, words: &'a [String]) -> Result<Asked<'a>, WordsFault> {
    if let Some(asked) = shown_alone(words) {
        return Ok(asked);
    }
    let matches = match command(alloc)?.try_get_matches_from(words) {
        Ok(matches) => matches,
        Err(error) => return Err(refused(alloc, words, &error)?),
    };
    let Some((name, given)) = matches.subcommand() else {
        return Err(no_subcommand(alloc, words, "")?);
    };
    let Some(subcommand) = subcommand_of(name) else {
        return Err(no_subcommand(alloc, words, "")?);
    };
    match call_of(alloc, subcommand.kind, given) {
        Ok(call) => Ok(Asked::Call(call, common_of(given))),
        Err(CallFault::NoMemory) => Err(WordsFault::NoMemory),
        Err(fault) => {
            let wrong = format!(in alloc; "{fault}")?;
            Err(bad_words(alloc, subcommand.name, "", wrong)?)
        }
    }
}
