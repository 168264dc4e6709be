//! What the words of a subcommand ask for.

ghost use Rattle.std.specs.Prelude.{◌≡◌, IfOk};
ghost use Rattle.std.specs.Option.{option_map};
ghost use Rattle.std.specs.Result.{result_ok};
ghost use Rattle.box_words.specs.Kinds.{IsCall};
ghost use Rattle.box_words.specs.Said.{IsCreate, folder_said};

use crate::attr::{Deed, attr_call};
use crate::fault::CallFault;
use crate::get::{Named, get_call};
use crate::given::{list_of, word_of};
use crate::options::{Taken, taken_of};
use crate::origin::Origin;
use crate::rm::rm_call;
use crate::said::shape_of;
use crate::shape::Shape;
use crate::subcommands::Kind;
use crate::tree_edits::{mkdir_call, mv_call};
use clap::ArgMatches;
use std::alloc::Global;
use word_values::seed_of;

/// What the words ask for. A path of an image is the word as it was given: `image_path` reads it.
#[derive(Debug, Drop)]
pub enum Call<'a> {
    /// `create IMAGE DIR` or `create IMAGE --empty`: makes an image of version 2.
    Create {
        /// The image, which is not there yet.
        image: &'a str,
        /// The folder that it is made of; nothing for an image with nothing in it.
        dir: Option<&'a str>,
        /// What it is like.
        shape: Shape,
        /// `--dry-run`: nothing is made, and what `info` would print of the image is printed.
        is_dry: bool,
        /// How the folder is read. There is no image whose times could decide: `Times::AsImage` means that none travel.
        taken: Taken,
    },
    /// `extract IMAGE DIR [PATH..]`: makes the folder of the image, or of these paths.
    Extract {
        /// The image.
        image: &'a str,
        /// The folder, which is absent or empty.
        dir: &'a str,
        /// The paths; with none of them all is made.
        paths: Vec<&'a str>,
        /// How the folder is made.
        taken: Taken,
    },
    /// `ls IMAGE [PATH]`: lists what stands in a folder of the image.
    Ls {
        /// The image.
        image: &'a str,
        /// The path; nothing for the root.
        path: Option<&'a str>,
        /// `-l`: with kind, size and time.
        is_long: bool,
        /// `-R`: all below the path.
        is_below: bool,
        /// `-0`: each name is ended by a zero byte.
        is_zero: bool,
    },
    /// `get IMAGE PATH [FILE]`: copies a file of the image.
    Get {
        /// The image.
        image: &'a str,
        /// The path of the file.
        path: Named<'a>,
        /// The file that is made; nothing for standard output.
        file: Option<&'a str>,
    },
    /// `rm IMAGE PATH..`: takes what stands at paths out of the image.
    Rm {
        /// The image.
        image: &'a str,
        /// The paths.
        paths: Vec<&'a str>,
        /// `--paths0-from`: where further paths are read from, as `listed_names` reads them.
        list: Option<Origin<'a>>,
        /// `-r`: folders go with all below them.
        is_below: bool,
        /// `-f`: paths at which nothing stands are passed over.
        is_forced: bool,
    },
    /// `mv IMAGE FROM TO`: moves what stands at a path to another one.
    Mv {
        /// The image.
        image: &'a str,
        /// The path at which it stands.
        from: &'a str,
        /// The path that it gets.
        to: &'a str,
        /// `-f`: a file that stands there is replaced.
        is_forced: bool,
    },
    /// `mkdir IMAGE PATH..`: makes folders in the image, one after another.
    Mkdir {
        /// The image.
        image: &'a str,
        /// The paths.
        paths: Vec<&'a str>,
        /// `-p`: folders that lead there are made, and folders that are there stay.
        has_parents: bool,
    },
    /// `attr IMAGE PATH [NAME [VALUE]]`: lists, prints, sets or takes away attributes of a path.
    Attr {
        /// The image.
        image: &'a str,
        /// The path.
        path: &'a str,
        /// What is done.
        deed: Deed,
    },
    /// `compare IMAGE DIR` or `compare IMAGE IMAGE2`: tells how the second differs.
    Compare {
        /// The image.
        image: &'a str,
        /// The folder or the other image.
        other: &'a str,
        /// How the folder is read.
        taken: Taken,
        /// `-0`: each line is ended by a zero byte.
        is_zero: bool,
    },
    /// `check IMAGE`: tells whether the image is sound.
    Check {
        /// The image.
        image: &'a str,
        /// `--digest`: what the digest is compared with.
        digest: Option<[u8; 32]>,
    },
    /// `info IMAGE`: prints the parameters.
    Info {
        /// The image.
        image: &'a str,
    },
    /// `map IMAGE`: draws the slots.
    Map {
        /// The image.
        image: &'a str,
    },
    /// `pack DIR`: prints the listing of what `create` stores of the folder.
    Pack {
        /// The folder.
        dir: &'a str,
        /// How the folder is read; `Times::AsImage` means that no times travel.
        taken: Taken,
    },
    /// `unpack DIR`: makes the folder of the listing on standard input.
    Unpack {
        /// The folder, which is absent or empty.
        dir: &'a str,
        /// How the folder is made.
        taken: Taken,
    },
}

/// The digest that is compared with, where there is one.
fn digest_of<'a>(word: Option<&'a str>) -> Result<Option<[u8; 32]>, CallFault<'a>> {
    let Some(word) = word else {
        return Ok(None);
    };
    match seed_of(word) {
        Some(digest) => Ok(Some(digest)),
        None => Err(CallFault::Value("digest", word, "is not 64 hexadecimal digits")),
    }
}

/// The folder that an image is made of; nothing where it is to be empty. One of both has to be said, and not both.
fn folder_of<'a>(dir: Option<&'a str>, is_empty: bool) -> Result<Option<&'a str>, CallFault<'a>>
    ensures { option_map (option_map (λ dir. dir.now)) (result_ok result)
        ≡ folder_said (option_map (λ dir. dir.now) dir.entry) is_empty }
{
    match dir {
        Some(dir) if is_empty => Err(CallFault::Beside("DIR", dir, "--empty")),
        None if !is_empty => Err(CallFault::Neither("DIR", "--empty")),
        dir => Ok(dir),
    }
}

/// What the words of `create` ask for.
fn create_call<'a>(given: &ArgMatches<'a>) -> Result<Call<'a>, CallFault<'a>>
    ensures { IfOk result (IsCreate given.now) }
{
    Ok(Call::Create {
        image: word_of(given, "IMAGE")?,
        dir: folder_of(given.get_str("DIR"), given.get_flag("empty"))?,
        shape: shape_of(given)?,
        is_dry: given.get_flag("dry-run"),
        taken: taken_of(given),
    })
}

/// What the words of a subcommand ask for that only reads one image.
fn image_call<'a>(kind: Kind, given: &ArgMatches<'a>) -> Result<Call<'a>, CallFault<'a>> {
    let image = word_of(given, "IMAGE")?;
    match kind {
        Kind::Ls => Ok(Call::Ls {
            image,
            path: given.get_str("PATH"),
            is_long: given.get_flag("long"),
            is_below: given.get_flag("below"),
            is_zero: given.get_flag("zero"),
        }),
        Kind::Check => Ok(Call::Check {
            image,
            digest: digest_of(given.get_str("digest"))?,
        }),
        Kind::Info => Ok(Call::Info { image }),
        Kind::Map => Ok(Call::Map { image }),
        _ => Err(CallFault::Missing),
    }
}

/// What the words of a subcommand ask for that reads or makes a folder, and changes no image.
fn folder_call<'a>(
    alloc: Global,
    kind: Kind,
    given: &ArgMatches<'a>,
) -> Result<Call<'a>, CallFault<'a>> {
    let taken = taken_of(given);
    match kind {
        Kind::Extract => Ok(Call::Extract {
            image: word_of(given, "IMAGE")?,
            dir: word_of(given, "DIR")?,
            paths: list_of(alloc, given, "PATH")?,
            taken,
        }),
        Kind::Compare => Ok(Call::Compare {
            image: word_of(given, "IMAGE")?,
            other: word_of(given, "OTHER")?,
            taken,
            is_zero: given.get_flag("zero"),
        }),
        Kind::Pack => Ok(Call::Pack {
            dir: word_of(given, "DIR")?,
            taken,
        }),
        Kind::Unpack => Ok(Call::Unpack {
            dir: word_of(given, "DIR")?,
            taken,
        }),
        kind => image_call(kind, given),
    }
}

/// What the words of a subcommand ask for, or why they ask for nothing.
pub(crate) fn call_of<'a>(
    alloc: Global,
    kind: Kind,
    given: &ArgMatches<'a>,
) -> Result<Call<'a>, CallFault<'a>>
    ensures { IfOk result (IsCall kind given.now) }
{
    match kind {
        Kind::Create => create_call(given),
        Kind::Get => get_call(given),
        Kind::Rm => rm_call(alloc, given),
        Kind::Mv => mv_call(given),
        Kind::Mkdir => mkdir_call(alloc, given),
        Kind::Attr => attr_call(given),
        kind => folder_call(alloc, kind, given),
    }
}
