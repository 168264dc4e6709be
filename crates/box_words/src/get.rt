//! `get`: which file of an image is copied, and where to.

ghost use Rattle.std.specs.Prelude.{IfOk};
ghost use Rattle.std.specs.Option.{option_map};
ghost use Rattle.box_words.specs.Calls.{IsGet};
ghost use Rattle.box_words.specs.Lists.{IsNamed};

use crate::call::Call;
use crate::fault::CallFault;
use crate::given::word_of;
use crate::origin::{Origin, origin_of};
use clap::ArgMatches;

/// How the path of a file is given.
#[derive(Clone, Copy, Debug, PartialEq, Eq)]
pub enum Named<'a> {
    /// By this word.
    Word(&'a str),
    /// As the one name of a list: `--paths0-from`.
    List(Origin<'a>),
}

/// How the path is given, and the file that is made, where one is: by the words of `--paths0-from`, PATH and FILE. The
/// word in the place of PATH is FILE where a list is given.
fn named_of<'a>(
    list: Option<&'a str>,
    first: Option<&'a str>,
    second: Option<&'a str>,
) -> Result<(Named<'a>, Option<&'a str>), CallFault<'a>>
    ensures { IfOk result (λ named. IsNamed (option_map (λ w. w.now) list.entry)
        (option_map (λ w. w.now) first.entry) (option_map (λ w. w.now) second.entry) named.0 named.1) }
{
    match (list, first, second) {
        (None, Some(path), file) => Ok((Named::Word(path), file)),
        (None, None, _) => Err(CallFault::Neither("PATH", "--paths0-from")),
        (Some(list), file, None) => Ok((Named::List(origin_of(list)), file)),
        (Some(_), Some(path), Some(_)) => Err(CallFault::Beside("PATH", path, "--paths0-from")),
        (Some(_), None, Some(_)) => Err(CallFault::Missing),
    }
}

/// What the words of `get` ask for.
pub(crate) fn get_call<'a>(given: &ArgMatches<'a>) -> Result<Call<'a>, CallFault<'a>>
    ensures { IfOk result (IsGet given.now) }
{
    let image = word_of(given, "IMAGE")?;
    let (path, file) = named_of(
        given.get_str("paths0-from"),
        given.get_str("PATH"),
        given.get_str("FILE"),
    )?;
    Ok(Call::Get { image, path, file })
}
