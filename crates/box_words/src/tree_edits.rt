//! `mv` and `mkdir`: what is moved in an image, or made.

ghost use Rattle.std.specs.Prelude.{IfOk};
ghost use Rattle.box_words.specs.Calls.{IsMkdir, IsMv};

use crate::call::Call;
use crate::fault::CallFault;
use crate::given::{list_of, word_of};
use clap::ArgMatches;
use std::alloc::Global;

/// What the words of `mv` ask for.
pub(crate) fn mv_call<'a>(given: &ArgMatches<'a>) -> Result<Call<'a>, CallFault<'a>>
    ensures { IfOk result (IsMv given.now) }
{
    Ok(Call::Mv {
        image: word_of(given, "IMAGE")?,
        from: word_of(given, "FROM")?,
        to: word_of(given, "TO")?,
        is_forced: given.get_flag("forced"),
    })
}

/// What the words of `mkdir` ask for.
pub(crate) fn mkdir_call<'a>(
    alloc: Global,
    given: &ArgMatches<'a>,
) -> Result<Call<'a>, CallFault<'a>>
    ensures { IfOk result (IsMkdir given.now) }
{
    let image = word_of(given, "IMAGE")?;
    let paths = list_of(alloc, given, "PATH")?;
    if paths.is_empty() {
        return Err(CallFault::Missing);
    }
    Ok(Call::Mkdir {
        image,
        paths,
        has_parents: given.get_flag("parents"),
    })
}
