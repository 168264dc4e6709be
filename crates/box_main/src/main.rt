//! The program `hbox SUBCOMMAND IMAGE WORDS..`: gets files and folders into images and out of them.
//!
//! This crate reads words, opens files and shows progress. It assumes that files, locks and the standard streams do
//! what is asked of them. What a subcommand does and says is the libraries'.
#![tactic(auto)]

mod attr;
mod changes;
mod compare;
mod create;
mod extract;
mod folder;
mod get;
mod given;
mod image;
mod new_image;
mod output;
mod pack;
mod pieces;
mod progress;
mod report;
mod seed;
mod subcommands;
mod target;
mod texts;
mod trouble;

use crate::output::print;
use crate::subcommands::serve;
use crate::texts::TEXTS;
use crate::trouble::{Thing, no_memory, tell};
use box_words::{Asked, Help, Status, WordsFault, read, version_line};
use std::env;
use std::fs::File;
use std::os::fd::AsRawFd;
use std::process::ExitCode;

/// The file that holds the numbers of standard streams that were closed.
const NOWHERE: &str = "/dev/null";

/// The descriptor of standard error, the last of the standard streams.
const LAST_STREAM: i32 = 2;

/// Holds the number of a standard stream that was closed, so that no file that is opened later takes it; nothing where
/// none is free. Such a stream cannot be read, nor written.
fn hold_stream(rt: HostRuntime) -> Option<File> {
    let file = File::options().write(true).open(&rt, NOWHERE).ok()?;
    if file.as_raw_fd() == 0 {
        return Some(file);
    }
    drop(file);
    let file = File::open(&rt, NOWHERE).ok()?;
    if file.as_raw_fd() <= LAST_STREAM {
        Some(file)
    } else {
        None
    }
}

/// The words behind the name of the program. `None`: one is not UTF-8, or memory ran out.
fn words_of(rt: HostRuntime) -> Option<Vec<String>> {
    let args = env::args(&rt).ok()?;
    let mut words = Vec::new(rt.alloc());
    for word in args.skip(1) {
        words.push(word).ok()?;
    }
    Some(words)
}

/// Prints a text, which is ended by a line feed, and answers how the call ends.
fn print_page(rt: HostRuntime, page: Option<String>) -> Status {
    match page {
        Some(page) => print(rt, page.as_bytes()),
        None => no_memory(rt, &Thing::OfCall),
    }
}

/// Does what the words ask for.
fn done(rt: HostRuntime, asked: Asked<'_>) -> Status {
    match asked {
        Asked::Help(topic) => {
            print_page(
                rt,
                format!(in rt.alloc();
                    "{}\n",
                    Help {
                        texts: TEXTS,
                        topic
                    }
                )
                .ok(),
            )
        }
        Asked::Version => {
            print_page(rt, format!(in rt.alloc(); "{}\n", version_line(TEXTS)).ok())
        }
        Asked::Call(call, common) => serve(rt, &call, &common),
    }
}

/// Does what the words ask for, and answers how the call ends.
fn run(rt: HostRuntime, words: &[String]) -> Status {
    match read(rt.alloc(), words) {
        Ok(asked) => done(rt, asked),
        Err(
            WordsFault::Words {
                thing,
                wrong,
                advice,
            },
        ) => {
            let thing = match thing.as_str() {
                "" => Thing::OfCall,
                thing => Thing::File(thing),
            };
            tell(rt, Status::Words, &thing, wrong.as_str(), advice.as_str())
        }
        Err(WordsFault::NoMemory) => no_memory(rt, &Thing::OfCall),
    }
}

fn main(rt: HostRuntime) -> ExitCode {
    let _held = (hold_stream(rt), hold_stream(rt), hold_stream(rt));
    let status = match words_of(rt) {
        Some(words) => run(rt, words.as_slice()),
        None => tell(
            rt,
            Status::Words,
            &Thing::OfCall,
            "a word is not UTF-8",
            "rename the file, or reach it by another path",
        ),
    };
    ExitCode::from(status.code())
}
