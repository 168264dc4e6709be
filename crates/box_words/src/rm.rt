//! `rm`: what is taken out of an image.

ghost use Rattle.std.specs.Prelude.{◌≡◌, ◌||◌, nat_le, length, IfOk};
ghost use Rattle.box_words.specs.Calls.{IsRm};

use crate::call::Call;
use crate::fault::CallFault;
use crate::given::{list_of, word_of};
use crate::origin::list_said;
use clap::ArgMatches;
use std::alloc::Global;

/// Whether paths are given, or a list of them.
fn are_given(paths: &[&str], has_list: bool) -> bool
    ensures { result ≡ (has_list || nat_le 1 (length paths.now)) }
{
    has_list || !paths.is_empty()
}

/// What the words of `rm` ask for.
pub(crate) fn rm_call<'a>(alloc: Global, given: &ArgMatches<'a>) -> Result<Call<'a>, CallFault<'a>>
    ensures { IfOk result (IsRm given.now) }
{
    let image = word_of(given, "IMAGE")?;
    let paths = list_of(alloc, given, "PATH")?;
    let list = list_said(given.get_str("paths0-from"));
    if !are_given(paths.as_slice(), list.is_some()) {
        return Err(CallFault::Neither("PATH", "--paths0-from"));
    }
    Ok(Call::Rm {
        image,
        paths,
        list,
        is_below: given.get_flag("below"),
        is_forced: given.get_flag("forced"),
    })
}
