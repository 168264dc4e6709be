//! The one list of the subcommands: the word of each, what it does, and what stands behind the word.

use crate::options::PLAIN_WAIT_TEXT;
use clap::builder::ValueParser;
use clap::{Arg, ArgAction, Command};
use std::alloc::{AllocError, Global};
use std::fmt::{self, Formatter};

/// A part of what may stand behind the word of a subcommand.
#[derive(Clone, Copy)]
enum Part {
    /// An argument, which has to be there.
    Argument(&'static str),
    /// An argument that may be missing.
    Optional(&'static str),
    /// Any number of arguments, the last ones.
    Rest(&'static str),
    /// The same, and at least one.
    Some(&'static str),
    /// An option of a single letter, which stands alone.
    Letter(&'static str, char),
    /// An option that stands alone: its word, and its letter.
    Both(&'static str, char),
    /// An option that stands alone.
    Flag(&'static str),
    /// An option that stands alone, and not beside the second.
    Against(&'static str, &'static str),
    /// An option with a value: its word, and what the value is called.
    Value(&'static str, &'static str),
    /// An option of a single letter with a value: its name, the letter, and what the value is called.
    LetterValue(&'static str, char, &'static str),
    /// `--wait` and `--wait=SECONDS`.
    Wait,
}

/// Which subcommand it is.
#[derive(Clone, Copy)]
pub(crate) enum Kind {
    Create,
    Extract,
    Ls,
    Get,
    Rm,
    Mv,
    Mkdir,
    Attr,
    Compare,
    Check,
    Info,
    Map,
    Pack,
    Unpack,
}

/// A subcommand.
pub(crate) struct Subcommand {
    /// Its word.
    pub(crate) name: &'static str,
    /// Which one it is.
    pub(crate) kind: Kind,
    /// What it does, in a line.
    summary: &'static str,
    /// What stands behind the word.
    parts: &'static [Part],
    /// Whether it has the options that say how a folder is read, made or compared.
    has_taken: bool,
}

/// The options of each subcommand.
static COMMON: [Part; 4] = [
    Part::Flag("escaped"),
    Part::Both("quiet", 'q'),
    Part::Both("verbose", 'v'),
    Part::Wait,
];

/// The options that say how a folder is read, made or compared.
static TAKEN: [Part; 5] = [
    Part::Flag("skip"),
    Part::Flag("no-mode"),
    Part::Flag("no-links"),
    Part::Flag("mtime"),
    Part::Against("no-mtime", "mtime"),
];

const IMAGE: &[Part] = &[Part::Argument("IMAGE")];

const CREATE: &[Part] = &[
    Part::Argument("IMAGE"),
    Part::Optional("DIR"),
    Part::Value("slots", "N"),
    Part::Value("height", "H"),
    Part::Value("draw", "D"),
    Part::Value("seed", "HEX"),
    Part::Flag("empty"),
    Part::Flag("dry-run"),
];

const EXTRACT: &[Part] = &[
    Part::Argument("IMAGE"),
    Part::Argument("DIR"),
    Part::Rest("PATH"),
];

const LS: &[Part] = &[
    Part::Argument("IMAGE"),
    Part::Optional("PATH"),
    Part::Letter("long", 'l'),
    Part::Letter("below", 'R'),
    Part::Letter("zero", '0'),
];

const GET: &[Part] = &[
    Part::Argument("IMAGE"),
    Part::Optional("PATH"),
    Part::Optional("FILE"),
    Part::Value("paths0-from", "LIST"),
];

const RM: &[Part] = &[
    Part::Argument("IMAGE"),
    Part::Rest("PATH"),
    Part::Value("paths0-from", "LIST"),
    Part::Letter("below", 'r'),
    Part::Letter("forced", 'f'),
];

const MV: &[Part] = &[
    Part::Argument("IMAGE"),
    Part::Argument("FROM"),
    Part::Argument("TO"),
    Part::Letter("forced", 'f'),
];

const MKDIR: &[Part] = &[
    Part::Argument("IMAGE"),
    Part::Some("PATH"),
    Part::Letter("parents", 'p'),
];

const ATTR: &[Part] = &[
    Part::Argument("IMAGE"),
    Part::Argument("PATH"),
    Part::Optional("NAME"),
    Part::Optional("VALUE"),
    Part::LetterValue("remove", 'd', "NAME"),
    Part::Flag("hex"),
];

const COMPARE: &[Part] = &[
    Part::Argument("IMAGE"),
    Part::Argument("OTHER"),
    Part::Letter("zero", '0'),
];

const CHECK: &[Part] = &[Part::Argument("IMAGE"), Part::Value("digest", "HEX")];

const DIR: &[Part] = &[Part::Argument("DIR")];

/// The subcommands, in the order of the help.
static SUBCOMMANDS: [Subcommand; 14] = [
    Subcommand {
        name: "create",
        kind: Kind::Create,
        summary: "makes an image of a folder",
        parts: CREATE,
        has_taken: true,
    },
    Subcommand {
        name: "extract",
        kind: Kind::Extract,
        summary: "extracts an image, or some of its paths, into a folder",
        parts: EXTRACT,
        has_taken: true,
    },
    Subcommand {
        name: "ls",
        kind: Kind::Ls,
        summary: "lists the names in an image",
        parts: LS,
        has_taken: false,
    },
    Subcommand {
        name: "get",
        kind: Kind::Get,
        summary: "prints a file of an image, or copies it to a file",
        parts: GET,
        has_taken: false,
    },
    Subcommand {
        name: "rm",
        kind: Kind::Rm,
        summary: "removes files and folders from an image",
        parts: RM,
        has_taken: false,
    },
    Subcommand {
        name: "mv",
        kind: Kind::Mv,
        summary: "moves a file or folder in an image",
        parts: MV,
        has_taken: false,
    },
    Subcommand {
        name: "mkdir",
        kind: Kind::Mkdir,
        summary: "makes folders in an image",
        parts: MKDIR,
        has_taken: false,
    },
    Subcommand {
        name: "attr",
        kind: Kind::Attr,
        summary: "lists, prints, sets or removes attributes of a path",
        parts: ATTR,
        has_taken: false,
    },
    Subcommand {
        name: "compare",
        kind: Kind::Compare,
        summary: "compares an image with a folder or another image",
        parts: COMPARE,
        has_taken: true,
    },
    Subcommand {
        name: "check",
        kind: Kind::Check,
        summary: "says whether an image is sound, and its digest",
        parts: CHECK,
        has_taken: false,
    },
    Subcommand {
        name: "info",
        kind: Kind::Info,
        summary: "prints the parameters of an image",
        parts: IMAGE,
        has_taken: false,
    },
    Subcommand {
        name: "map",
        kind: Kind::Map,
        summary: "draws the slots of an image",
        parts: IMAGE,
        has_taken: false,
    },
    Subcommand {
        name: "pack",
        kind: Kind::Pack,
        summary: "prints the listing of a folder",
        parts: DIR,
        has_taken: true,
    },
    Subcommand {
        name: "unpack",
        kind: Kind::Unpack,
        summary: "extracts a listing on standard input into a folder",
        parts: DIR,
        has_taken: true,
    },
];

/// The subcommand with this word; `None` where there is none.
pub(crate) fn subcommand_of(name: &str) -> Option<&'static Subcommand> {
    for subcommand in &SUBCOMMANDS {
        if name == subcommand.name {
            return Some(subcommand);
        }
    }
    None
}

/// What the subcommand with this word does, in a line of the help; `None` where there is none.
pub fn summary_of(name: &str) -> Option<&'static str> {
    Some(subcommand_of(name)?.summary)
}

/// Writes a line for each subcommand: its word, and what it does.
pub(crate) fn write_list<W: fmt::Write>(f: &mut Formatter<W>) -> fmt::Result {
    for subcommand in &SUBCOMMANDS {
        let Subcommand { name, summary, .. } = subcommand;
        writeln!(f, "  {name:<8} {summary}")?;
    }
    Ok(())
}

/// Makes an option that stands alone.
fn flag<'a>(alloc: Global, name: &'static str) -> Arg<'a> {
    Arg::new(alloc, name).action(ArgAction::SetTrue)
}

/// Makes the option `--wait`.
fn wait<'a>(alloc: Global) -> Arg<'a> {
    Arg::new(alloc, "wait")
        .long("wait")
        .value_name("SECONDS")
        .num_args(0..=1)
        .require_equals(true)
        .default_missing_value(PLAIN_WAIT_TEXT)
        .value_parser(ValueParser::Unsigned(0, u32::MAX as u64))
}

/// Makes an argument or an option for `clap`.
fn arg_of<'a>(alloc: Global, part: Part) -> Result<Arg<'a>, AllocError> {
    match part {
        Part::Argument(name) => Ok(Arg::new(alloc, name).required(true)),
        Part::Optional(name) => Ok(Arg::new(alloc, name)),
        Part::Rest(name) => Ok(
            Arg::new(alloc, name)
                .num_args(0..)
                .action(ArgAction::Append),
        ),
        Part::Some(name) => Ok(
            Arg::new(alloc, name)
                .required(true)
                .num_args(1..)
                .action(ArgAction::Append),
        ),
        Part::Letter(name, letter) => Ok(flag(alloc, name).short(letter)),
        Part::Both(name, letter) => Ok(flag(alloc, name).long(name).short(letter)),
        Part::Flag(name) => Ok(flag(alloc, name).long(name)),
        Part::Against(name, other) => flag(alloc, name).long(name).conflicts_with(other),
        Part::Value(name, value) => Ok(Arg::new(alloc, name).long(name).value_name(value)),
        Part::LetterValue(name, letter, value) => {
            Ok(Arg::new(alloc, name).short(letter).value_name(value))
        }
        Part::Wait => Ok(wait(alloc)),
    }
}

/// The command with these parts behind its others.
fn with_parts<'a>(
    alloc: Global,
    command: Command<'a>,
    parts: &'static [Part],
) -> Result<Command<'a>, AllocError> {
    let mut command = command;
    for part in parts {
        command = command.arg(arg_of(alloc, *part)?)?;
    }
    Ok(command)
}

/// Makes a subcommand for `clap`.
fn command_of<'a>(
    alloc: Global,
    subcommand: &'static Subcommand,
) -> Result<Command<'a>, AllocError> {
    let command = Command::new(alloc, subcommand.name).disable_help_flag(true);
    let mut command = with_parts(alloc, command, subcommand.parts)?;
    if subcommand.has_taken {
        command = with_parts(alloc, command, &TAKEN)?;
    }
    with_parts(alloc, command, &COMMON)
}

/// Makes the whole command line for `clap`, behind the name of the program.
pub(crate) fn command<'a>(alloc: Global) -> Result<Command<'a>, AllocError> {
    let mut command = Command::new(alloc, "hbox")
        .disable_help_flag(true)
        .disable_help_subcommand(true)
        .no_binary_name(true)
        .subcommand_required(true);
    for subcommand in &SUBCOMMANDS {
        command = command.subcommand(command_of(alloc, subcommand)?)?;
    }
    Ok(command)
}
