//! An attribute of what was found.

ghost use Rattle.std.specs.Prelude.{◌≡◌, ◌<◌, length, option_map, slice_get, IfSome, IsTrue};
ghost use Rattle.store_model.specs.Paths.{is_attribute_name};
ghost use Rattle.dump_streams.specs.Dumps.DumpStep.{Set};
ghost use Rattle.host_folders.specs.Facts.{attribute_of, marked, numbered, present, says};

use dump_streams::DumpStep;
use path_keys::{AttrName, Path};
use script_lines::Text;

/// What the bytes of an attribute say.
#[derive(Clone, Copy)]
enum Says {
    /// That something is so: the byte `x`.
    Mark,
    /// A number, in decimal digits.
    Number(u64),
}

/// An attribute that is to be set.
#[derive(Clone, Copy)]
pub struct Attribute {
    /// Its name.
    pub name: AttrName,
    says: Says,
}

impl Attribute {
    /// The attribute of this name that says that something is so; none where it is not.
    pub(crate) fn mark(name: &[u8], is_so: bool) -> Option<Attribute>
        requires { IsTrue (is_attribute_name name.now) }
        ensures { option_map attribute_of result ≡ marked name.now is_so }
    {
        if !is_so {
            return None;
        }
        Some(Attribute {
            name: attribute_name(name),
            says: Says::Mark,
        })
    }

    /// The attribute of this name that says a number; none where there is no number.
    pub(crate) fn number(name: &[u8], number: Option<u64>) -> Option<Attribute>
        requires { IsTrue (is_attribute_name name.now) }
        ensures { option_map attribute_of result ≡ numbered name.now number }
    {
        match number {
            Some(number) => Some(Attribute {
                name: attribute_name(name),
                says: Says::Number(number),
            }),
            None => None,
        }
    }

    /// Puts into `into` the step that gives it to a path.
    pub(crate) fn set(&self, path: Path, into: &mut DumpStep)
        ensures { into.new ≡ Set path self.now.name (says self.now.says) }
    {
        match self.says {
            Says::Mark => into.set(path, self.name, b"x"),
            Says::Number(number) => {
                let mut digits = Text::new();
                digits.push_long(number);
                into.set(path, self.name, digits.as_slice());
            }
        }
    }
}

/// The one at an index among those that are there.
pub(crate) fn present_at(all: &[Option<Attribute>], at: usize) -> Option<Attribute>
    ensures value { option_map attribute_of result ≡ slice_get (present all.now) at }
    ensures few { IfSome result (λ attribute. at < length all.now) }
{
    let mut left = at;
    for one in all {
        let Some(attribute) = one else {
            continue;
        };
        if left == 0 {
            return Some(*attribute);
        }
        left -= 1;
    }
    None
}

/// A name of an attribute.
pub(crate) fn attribute_name(text: &[u8]) -> AttrName
    requires { IsTrue (is_attribute_name text.now) }
    ensures value { result ≡ text.now }
{
    let Some(name) = AttrName::parse(text) else {
        unreachable!()
    };
    name
}
