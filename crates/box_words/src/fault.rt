//! Why words of a subcommand ask for nothing.

use crate::visible::Visible;
use std::alloc::{AllocError, AllocFailed};
use std::fmt::{self, Display, Formatter};

/// Why the words of a subcommand, which `clap` took, ask for nothing. It is shown as what is wrong with them.
#[derive(Clone, Copy, Debug, PartialEq, Eq)]
pub(crate) enum CallFault<'a> {
    /// An argument that has to be there is missing.
    Missing,
    /// Neither of the two is given, of which one has to be.
    Neither(&'static str, &'static str),
    /// Both are given, of which only one may be.
    Both(&'static str, &'static str),
    /// The first is given without the second, which it needs.
    Needs(&'static str, &'static str),
    /// An argument is given with this word, and an option, beside which it may not be.
    Beside(&'static str, &'a str, &'static str),
    /// The value of an option is none: the word of the option, its value, and what is wrong with it.
    Value(&'static str, &'a str, &'static str),
    /// No attribute can have this name.
    AttrName(&'a str),
    /// No attribute can have this value.
    AttrValue(&'a str),
    /// Memory ran out.
    NoMemory,
}

impl From<AllocError> for CallFault<'_> {
    fn from(_: AllocError) -> Self {
        CallFault::NoMemory
    }
}

impl<T: Drop> From<AllocFailed<T>> for CallFault<'_> {
    fn from(_: AllocFailed<T>) -> Self {
        CallFault::NoMemory
    }
}

impl Display for CallFault<'_> {
    fn fmt<W: fmt::Write>(&self, f: &mut Formatter<W>) -> fmt::Result {
        match *self {
            CallFault::Missing => f.write_str("an argument is missing"),
            CallFault::Neither(first, second) => {
                write!(f, "neither {first} nor {second} is given")
            }
            CallFault::Both(first, second) => write!(f, "{first} and {second} are given together"),
            CallFault::Needs(first, second) => write!(f, "{first} is given without {second}"),
            CallFault::Beside(what, word, option) => {
                let word = Visible(word);
                write!(f, "{what} '{word}' is given beside {option}")
            }
            CallFault::Value(option, word, wrong) => {
                let word = Visible(word);
                write!(f, "--{option} '{word}' {wrong}")
            }
            CallFault::AttrName(word) => {
                let word = Visible(word);
                write!(f, "no attribute can have the name '{word}'")
            }
            CallFault::AttrValue(word) => {
                let word = Visible(word);
                write!(f, "no attribute can have the value '{word}'")
            }
            CallFault::NoMemory => f.write_str("memory ran out"),
        }
    }
}
