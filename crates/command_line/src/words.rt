//! The words of a command line, and what they ask for.

ghost use Rattle.std.specs.Prelude.{◌≡◌, ◌≢◌, Some, None, IfSome, IfOk, map};
ghost use Rattle.std.specs.Option.{option_map};
ghost use Rattle.std.specs.String.{string_bytes};
ghost use Rattle.clap.specs.Simple.{subcommand_rows_of};
ghost use Rattle.store_model.specs.Words.{request_of};
ghost use Rattle.command_line.specs.Line.{HoldsLine};
ghost use Rattle.command_line.specs.Requests.{request_seen};

use crate::line;
use crate::line_read::holds;
use crate::request::{Request, asked};
use clap::ArgMatches;
use clap::error::ErrorKind;
use std::alloc::Global;
use std::marker::Model;
use store_base::NoMemory;

/// The words of a command line, behind the path of the image. Contracts see them as a list of texts.
#[derive(Drop)]
pub struct Words {
    words: Vec<String>,
    alloc: Global,
}

impl Model for Words {
    ghost use Rattle.std.specs.Prelude.{List, ℕ, map};
    ghost use Rattle.std.specs.String.{string_bytes};

    ghost Value = { List (List ℕ) };

    ghost view = { λ w. map string_bytes w.words.items };
}

impl Words {
    ghost use Rattle.std.specs.Prelude.{◌≡◌, ◌++◌, ◌∷◌, [], OnOk, OnErr, length, slice_get, option_copied};

    /// Makes an empty list of words. It takes no memory.
    pub fn new(alloc: Global) -> Self
        ensures { result ≡ [] }
    {
        Words {
            words: Vec::new(alloc),
            alloc,
        }
    }

    /// Adds a word behind the others.
    /// `NoMemory`: the words are as they were.
    pub fn push(&mut self, word: &str) -> Result<(), NoMemory>
        ensures ok { OnOk result (self.new ≡ self.old ++ word.now ∷ []) }
        ensures err { OnErr result (self.new ≡ self.old) }
    {
        let word = String::from_str(self.alloc, word)?;
        self.words.push(word)?;
        Ok(())
    }

    /// How many words there are.
    pub fn len(&self) -> usize
        ensures { result ≡ length self.now }
    {
        self.words.len()
    }

    /// The word of this number, counted from 0, where there is one. It takes no memory.
    pub fn get(&self, at: usize) -> Option<&str>
        ensures { option_copied result ≡ slice_get self.now at }
    {
        self.words.get(at).map(|word| word.as_str())
    }

    /// Finds what the words ask for; `None` exactly where they are not well formed.
    /// `NoMemory`: it was not found out.
    pub fn request(&self) -> Result<Option<Request>, NoMemory>
        ensures { IfOk result (λ asked. option_map request_seen asked ≡ request_of self.now) }
    {
        let line = line::command(self.alloc)?;
        let words = self.words.as_slice();
        match line.try_get_matches_from(words) {
            Ok(matches) => Ok(asked_of(words, &matches)),
            Err(error) => not_asked(error.kind()),
        }
    }
}

/// What words ask for that `clap` did not take: nothing, unless memory ran out.
fn not_asked(why: ErrorKind) -> Result<Option<Request>, NoMemory>
    ensures { IfOk result (λ asked. (asked ≡ None) × (why ≢ ErrorKind.OutOfMemory)) }
{
    match why {
        ErrorKind::OutOfMemory => Err(NoMemory),
        _ => Ok(None),
    }
}

/// What the matches ask for, where they hold the words just as they stand.
fn asked_of(words: &[String], matches: &ArgMatches<'_>) -> Option<Request>
    ensures right { IfSome result (λ request. request_of (map string_bytes words.now)
        ≡ Some (request_seen request)) }
    ensures whole { HoldsLine (map string_bytes words.now) (subcommand_rows_of matches.now)
        → option_map request_seen result ≡ request_of (map string_bytes words.now) }
{
    if holds(matches, words) {
        asked(words)
    } else {
        None
    }
}
