//! Options that several subcommands share.

ghost use Rattle.std.specs.Prelude.{◌≡◌};
ghost use Rattle.box_words.specs.Given.{IsTaken, times_said};

use clap::ArgMatches;

/// How many seconds `--wait` waits where it is given no number.
pub const PLAIN_WAIT: u32 = 60;

/// The same as text.
pub(crate) const PLAIN_WAIT_TEXT: &str = "60";

/// Whether times travel between a folder and an image.
#[derive(Clone, Copy, Debug, PartialEq, Eq)]
pub enum Times {
    /// They do where a path of the image has one. Neither of the options is given.
    AsImage,
    /// They do: `--mtime`.
    Kept,
    /// They do not: `--no-mtime`.
    LeftOut,
}

/// How a folder is read, made or compared.
#[derive(Clone, Copy, Debug, PartialEq, Eq)]
pub struct Taken {
    /// `--skip`: what cannot be packed or made is left out, and the rest is done.
    pub skip: bool,
    /// `--no-mode`: the executable bit is left out.
    pub no_mode: bool,
    /// `--no-links`: symbolic links are left out.
    pub no_links: bool,
    /// `--mtime` and `--no-mtime`.
    pub times: Times,
}

/// The options of each subcommand.
#[derive(Clone, Copy, Debug, PartialEq, Eq)]
pub struct Common {
    /// `--escaped`: paths are given and printed in the spelling of the image.
    pub escaped: bool,
    /// `-q`, `--quiet`: no summary and no progress.
    pub quiet: bool,
    /// `-v`, `--verbose`: a summary also where standard error is no terminal, and a line for each change.
    pub verbose: bool,
    /// `--wait` and `--wait=SECONDS`: how many seconds a call waits for an image that another program has; nothing
    /// where it does not wait.
    pub wait: Option<u32>,
}

/// What is taken of a folder.
pub(crate) fn taken_of(given: &ArgMatches<'_>) -> Taken
    ensures { IsTaken given.now result }
{
    Taken {
        skip: given.get_flag("skip"),
        no_mode: given.get_flag("no-mode"),
        no_links: given.get_flag("no-links"),
        times: times_of(given.get_flag("mtime"), given.get_flag("no-mtime")),
    }
}

/// Whether times travel, where `--mtime` is given, and `--no-mtime`. The two are not given together.
fn times_of(kept: bool, left_out: bool) -> Times
    ensures { result ≡ times_said kept left_out }
{
    if kept {
        Times::Kept
    } else if left_out {
        Times::LeftOut
    } else {
        Times::AsImage
    }
}

/// The options of each subcommand.
pub(crate) fn common_of(given: &ArgMatches<'_>) -> Common {
    Common {
        escaped: given.get_flag("escaped"),
        quiet: given.get_flag("quiet"),
        verbose: given.get_flag("verbose"),
        wait: given.get_one::<u32>("wait"),
    }
}
