//! What the help prints.

use crate::subcommands::write_list;
use std::fmt::{self, Display, Formatter};

/// The part of texts with this name, without the line of its name; the empty text where there is none. A line `== NAME`
/// stands before each.
fn part_of<'a>(texts: &'a str, name: &str) -> &'a str {
    for part in texts.split("\n== ") {
        if let Some((head, text)) = part.split_once("\n")
            && head == name
        {
            return text.trim_end();
        }
    }
    ""
}

/// The line of the version in texts.
pub fn version_line(texts: &str) -> &str {
    part_of(texts, "version")
}

/// The help, for `format!` and its like.
#[derive(Clone, Copy, Debug)]
pub struct Help<'a> {
    /// The texts of all subcommands and of the program.
    pub texts: &'a str,
    /// The word of the subcommand; nothing for the help of the program.
    pub topic: Option<&'static str>,
}

impl Display for Help<'_> {
    fn fmt<W: fmt::Write>(&self, f: &mut Formatter<W>) -> fmt::Result {
        match self.topic {
            Some(name) => f.write_str(part_of(self.texts, name)),
            None => write_page(f, self.texts),
        }
    }
}

/// Writes the help of the program.
fn write_page<W: fmt::Write>(f: &mut Formatter<W>, texts: &str) -> fmt::Result {
    let (about, calls) = (part_of(texts, "about"), part_of(texts, "calls"));
    write!(f, "{about}\n\nUsage:\n{calls}\n\nSubcommands:\n\n")?;
    write_list(f)?;
    let (words, statuses) = (part_of(texts, "words"), part_of(texts, "statuses"));
    write!(f, "\n{words}\n\n{statuses}")
}
