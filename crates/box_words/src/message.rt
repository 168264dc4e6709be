//! What is said on standard error where something was not done, in three parts.

use crate::visible::Visible;
use std::fmt::{self, Display, Formatter};

/// A line in three parts: which thing, what is wrong with it, and what to do. It is shown as
/// `hbox: x.img: /a/b: no such file; hbox ls x.img /a lists what is there`, with each control byte as `\x1B`.
#[derive(Clone, Copy, Debug)]
pub struct Message<'a> {
    /// Which thing, the larger one first: an image and a path in it. There may be none, and an empty text is left out.
    pub things: &'a [&'a str],
    /// What is wrong.
    pub wrong: &'a str,
    /// What to do. The empty text: there is nothing to say.
    pub advice: &'a str,
}

impl Display for Message<'_> {
    fn fmt<W: fmt::Write>(&self, f: &mut Formatter<W>) -> fmt::Result {
        f.write_str("hbox: ")?;
        for thing in self.things {
            if !thing.is_empty() {
                write!(f, "{}: ", Visible(thing))?;
            }
        }
        write!(f, "{}", Visible(self.wrong))?;
        if !self.advice.is_empty() {
            write!(f, "; {}", Visible(self.advice))?;
        }
        Ok(())
    }
}
