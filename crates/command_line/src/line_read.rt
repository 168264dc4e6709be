//! Whether a command line as `clap` read it is the words as they stand.

ghost use Rattle.std.specs.Prelude.{◌↔◌, IsTrue, map};
ghost use Rattle.std.specs.String.{string_bytes};
ghost use Rattle.clap.specs.Simple.{subcommand_rows_of};
ghost use Rattle.command_line.specs.Line.{HoldsLine};

use crate::line::arguments_of;
use clap::ArgMatches;

/// Whether the matches hold the words as they stand: the name of the subcommand, and in its turn the value of each of
/// its arguments.
pub(crate) fn holds(matches: &ArgMatches<'_>, words: &[String]) -> bool
    ensures { IsTrue result ↔ HoldsLine (map string_bytes words.now) (subcommand_rows_of matches.now) }
{
    let Some((name, given)) = matches.subcommand() else {
        return false;
    };
    let arguments = arguments_of(name);
    if words.len() != arguments.len() + 1 || words[0].as_str() != name {
        return false;
    }
    for i in 0..arguments.len() {
        if given.get_str(arguments[i].name) != Some(words[i + 1].as_str()) {
            return false;
        }
    }
    true
}
