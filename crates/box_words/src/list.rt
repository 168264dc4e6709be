//! Lists of names, each ended by a zero byte: those of `--paths0-from`.

ghost use Rattle.std.specs.Prelude.{◌≡◌, ◌++◌, IfOk, OnOk, map};
ghost use Rattle.box_words.specs.Shown.{name_in, parts_between};

use crate::cutting::cut_part;
use std::alloc::{AllocError, AllocFailed, Global};
use thiserror::Error;

/// Why bytes are no list of names.
#[derive(Clone, Copy, Debug, PartialEq, Eq, Error)]
pub enum ListFault {
    /// A name is not UTF-8.
    #[error("a name is not UTF-8")]
    NotUtf8,
    /// Memory ran out.
    #[error("memory ran out")]
    NoMemory,
}

impl From<AllocError> for ListFault {
    fn from(_: AllocError) -> Self {
        ListFault::NoMemory
    }
}

impl<T: Drop> From<AllocFailed<T>> for ListFault {
    fn from(_: AllocFailed<T>) -> Self {
        ListFault::NoMemory
    }
}

/// Adds a name, where it has bytes.
fn push_name<'a>(into: &mut Vec<&'a str>, name: &'a [u8]) -> Result<(), ListFault>
    ensures { OnOk result (map (λ name. name.now) into.new.items
        ≡ map (λ name. name.now) into.old.items ++ name_in name.entry.now) }
{
    if name.is_empty() {
        return Ok(());
    }
    match str::from_utf8(name) {
        Ok(name) => {
            into.push(name)?;
            Ok(())
        }
        Err(_) => Err(ListFault::NotUtf8),
    }
}

/// The names of a list, one after another: what stands between its zero bytes, where that has bytes. Nothing else ends
/// a name.
/// `NotUtf8`: a name is not UTF-8. `NoMemory`: they were not found out.
pub fn listed_names(alloc: Global, list: &[u8]) -> Result<Vec<&str>, ListFault>
    ensures { IfOk result (λ names. map (λ name. name.now) names.items ≡ parts_between 0 list.entry.now) }
{
    let mut names = Vec::new(alloc);
    let mut rest = list;
    loop {
        let (name, behind) = cut_part(0, rest);
        push_name(&mut names, name)?;
        match behind {
            Some(behind) => rest = behind,
            None => return Ok(names),
        }
    }
}
