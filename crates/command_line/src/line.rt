//! The one list of the subcommands: the word of each, its arguments with their ranges, and what the word asks for where
//! it has none. The command line that `clap` reads is made of it.

ghost use Rattle.std.specs.Prelude.{◌≡◌, ◌∷◌, false, [], IfOk, IfSome, map};
ghost use Rattle.std.specs.Option.{option_map};
ghost use Rattle.clap.specs.Simple.{app_of};
ghost use Rattle.clap.specs.Walk.{rule_of};
ghost use Rattle.clap.specs.declared.builder.command.Command.TheViews.{out-Command};
ghost use Rattle.store_model.specs.Words.{request_of};
ghost use Rattle.command_line.specs.Building.{AddsArguments, AddsSubcommand, IsBuilt, rule_told};
ghost use Rattle.command_line.specs.Line.{IsLine, arguments_of, without_help, without_subcommands};
ghost use Rattle.command_line.specs.Requests.{request_seen};

use self::Subcommand::{Single, Taking};
use crate::request::Request;
use clap::builder::ValueParser;
use clap::{Arg, Command};
use std::alloc::{AllocError, Global};
use store_base::{MAX_HEIGHT, MAX_SLOTS};

/// The most commands that `big` makes.
pub const MAX_COMMANDS: u32 = 1_000_000;

/// An argument of a subcommand: its name, and what its value has to be.
pub(crate) struct Argument {
    pub(crate) name: &'static str,
    parser: ValueParser<'static>,
}

/// A subcommand: what the first word behind the path of the image names.
enum Subcommand {
    /// A word that takes these arguments.
    Taking(&'static str, &'static [Argument]),
    /// A word that asks for this by itself.
    Single(&'static str, Request),
}

/// The arguments of `format` and `format2`.
const FORMAT: &[Argument] = &[
    Argument {
        name: "SLOTS",
        parser: ValueParser::Unsigned(1, MAX_SLOTS as u64),
    },
    Argument {
        name: "HEIGHT",
        parser: ValueParser::Unsigned(1, MAX_HEIGHT as u64),
    },
    Argument {
        name: "DRAW",
        parser: ValueParser::Names(&["ruler", "sha256"]),
    },
    Argument {
        name: "SEED",
        parser: ValueParser::String,
    },
];

/// The arguments of `big`.
const BIG: &[Argument] = &[
    Argument {
        name: "NUMBER",
        parser: ValueParser::Unsigned(0, u32::MAX as u64),
    },
    Argument {
        name: "COUNT",
        parser: ValueParser::Unsigned(1, MAX_COMMANDS as u64),
    },
];

/// The subcommands, in the order of the help.
const SUBCOMMANDS: [Subcommand; 11] = [
    Taking("format", FORMAT),
    Taking("format2", FORMAT),
    Single("run", Request::Run),
    Single("session", Request::Session),
    Single("check", Request::Check),
    Single("scrub", Request::Scrub),
    Single("wipe", Request::Wipe),
    Single("upgrade", Request::Upgrade),
    Single("dump", Request::Dump),
    Single("load", Request::Load),
    Taking("big", BIG),
];

/// What a word asks for by itself.
pub(crate) fn single_request(name: &str) -> Option<Request>
    ensures { option_map request_seen result ≡ request_of (name.now ∷ []) }
{
    for subcommand in &SUBCOMMANDS {
        match subcommand {
            Single(word, asks) => {
                if name == *word {
                    return Some(*asks);
                }
            }
            Taking(_, _) => {}
        }
    }
    None
}

/// The arguments of the subcommand with this word.
pub(crate) fn arguments_of(name: &str) -> &'static [Argument]
    ensures { map (λ argument. argument.name.now) result.now ≡ arguments_of name.now }
{
    for subcommand in &SUBCOMMANDS {
        match subcommand {
            Taking(word, arguments) => {
                if name == *word {
                    return arguments;
                }
            }
            Single(_, _) => {}
        }
    }
    &[]
}

/// Makes the argument for `clap`. It is required and has one value, which passes the parser.
fn arg_of<'a>(alloc: Global, argument: &'static Argument) -> Arg<'a>
    ensures rule { rule_of result ≡ rule_told argument.now }
    ensures local { result.global ≡ false }
{
    Arg::new(alloc, argument.name)
        .required(true)
        .value_parser(argument.parser)
}

/// The command with these arguments behind its others.
fn with_arguments<'a>(
    alloc: Global,
    command: Command<'a>,
    arguments: &'static [Argument],
) -> Result<Command<'a>, AllocError>
    ensures { IfOk result (AddsArguments arguments.entry.now command.entry) }
{
    let mut command = command;
    for argument in arguments {
        command = command.arg(arg_of(alloc, argument))?;
    }
    Ok(command)
}

/// Makes a command with no arguments and no help flag.
fn without_help<'a>(alloc: Global, name: &'a str) -> Command<'a>
    ensures shape { app_of result ≡ record { top = without_help name.entry.now []; subs = [] } }
    ensures local { (out-Command result).has_globals ≡ false }
{
    Command::new(alloc, name).disable_help_flag(true)
}

/// Makes the subcommand for `clap`.
fn command_of<'a>(alloc: Global, subcommand: &Subcommand) -> Result<Command<'a>, AllocError>
    ensures { IfOk result (IsBuilt subcommand.now) }
{
    match *subcommand {
        Taking(word, arguments) => with_arguments(alloc, without_help(alloc, word), arguments),
        Single(word, _) => Ok(without_help(alloc, word)),
    }
}

/// Makes the command line with no subcommands yet. One will be required.
fn without_subcommands<'a>(alloc: Global) -> Command<'a>
    ensures line { app_of result ≡ without_subcommands }
    ensures local { (out-Command result).has_globals ≡ false }
{
    without_help(alloc, "hstore")
        .no_binary_name(true)
        .disable_help_subcommand(true)
        .subcommand_required(true)
}

/// The command line with one subcommand more, behind the others.
fn add_subcommand<'a>(
    alloc: Global,
    line: Command<'a>,
    subcommand: &Subcommand,
) -> Result<Command<'a>, AllocError>
    ensures { IfOk result (AddsSubcommand subcommand.now line.entry) }
{
    line.subcommand(command_of(alloc, subcommand)?)
}

/// Makes the whole command line.
pub fn command<'a>(alloc: Global) -> Result<Command<'a>, AllocError>
    ensures { IfOk result (λ line. IsLine (app_of line)) }
{
    let mut line = without_subcommands(alloc);
    for subcommand in &SUBCOMMANDS {
        line = add_subcommand(alloc, line, subcommand)?;
    }
    Ok(line)
}
