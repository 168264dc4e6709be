//! Words that are given to a subcommand, by the names of its arguments and options.

ghost use Rattle.std.specs.Prelude.{◌≡◌, Some, IfOk, map};
ghost use Rattle.clap.specs.Matches.{first_value, found_of};
ghost use Rattle.box_words.specs.Given.{words_said};

use crate::fault::CallFault;
use clap::ArgMatches;
use std::alloc::Global;

/// The argument of this name, which has to be there.
pub(crate) fn word_of<'a>(given: &ArgMatches<'a>, name: &str) -> Result<&'a str, CallFault<'a>>
    ensures { IfOk result (λ word. first_value (found_of given.now) name.now ≡ Some word.now) }
{
    given.get_str(name).ok_or(CallFault::Missing)
}

/// The arguments of this name, one after another.
pub(crate) fn list_of<'a>(
    alloc: Global,
    given: &ArgMatches<'a>,
    name: &str,
) -> Result<Vec<&'a str>, CallFault<'a>>
    ensures { IfOk result (λ words. map (λ word. word.now) words.items ≡ words_said given.now name.now) }
{
    let mut words = Vec::new(alloc);
    if let Some(given) = given.get_strs(name) {
        words.extend_from_slice(given)?;
    }
    Ok(words)
}
