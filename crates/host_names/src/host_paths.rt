//! The path on the host of a path of an image.

ghost use Rattle.std.specs.Prelude.{◌≡◌, ◌≤◌, ◌++◌, length, false, IfOk, OnOk, IsErrOf};
ghost use Rattle.std.specs.Str.{is_utf8};
ghost use Rattle.std.specs.String.{string_bytes};
ghost use Rattle.store_model.specs.Paths as model;
ghost use Rattle.host_names.specs.HostPaths.{IsHostPath, HasNoHostPath, HasNoText, HasNoHostName, AppendsHostNames};
ghost use Rattle.host_names.specs.HostPaths.{AppendsHostName};
ghost use Rattle.host_names.specs.Reading.{is_text_spelling, has_host_text};

use crate::spelling::MAX_NAME;
use crate::telling::unescape;
use path_keys::Path;
use std::alloc::Global;
use store_base::NoMemory;
use thiserror::Error;

/// Why a path of an image has no path on the host.
#[derive(Clone, Copy, Debug, PartialEq, Eq, Error)]
pub enum HostPathFault {
    /// One of its names is the spelling of no name of the host.
    #[error("a name is no spelling")]
    NoSpelling,
    /// Its path on the host is no UTF-8.
    #[error("the path is no UTF-8")]
    NotUtf8,
    /// Memory ran out.
    #[error("memory ran out")]
    NoMemory,
}

impl From<NoMemory> for HostPathFault {
    ghost use Rattle.std.specs.Prelude.{◌≡◌};
    ghost use Rattle.host_names.specs.declared.host_paths.HostPathFault.TheVariants as faults;

    ghost from_gives = { λ _ fault. fault ≡ faults.NoMemory };

    fn from(_: NoMemory) -> Self {
        HostPathFault::NoMemory
    }
}

/// Makes the path on the host of a path below a folder: the folder's bytes, and `/` and the name that is spelled for
/// each name of the path. So it leads to nothing outside the folder: no name has a `/`, none is `.` or `..`. For a
/// folder without bytes it begins with `/`, and so at the root of the host. `NoSpelling`: exactly where some name of
/// the path is no spelling, unless memory ran out. `NotUtf8` does not come.
pub fn host_path(alloc: Global, folder: &[u8], path: &Path) -> Result<Vec<u8>, HostPathFault>
    ensures ok { IfOk result (λ bytes. IsHostPath folder.now path.now bytes.items) }
    ensures no_spelling { IsErrOf result HostPathFault.NoSpelling → HasNoHostPath path.now }
    ensures not_utf8 { IsErrOf result HostPathFault.NotUtf8 → ⊥ }
{
    let mut bytes = Vec::new(alloc);
    push_bytes(&mut bytes, folder)?;
    push_names(&mut bytes, path)?;
    Ok(bytes)
}

/// Makes the path on the host as `host_path` does, as text.
/// `NotUtf8`: there is one, but it is no UTF-8.
pub fn host_text(alloc: Global, folder: &str, path: &Path) -> Result<String, HostPathFault>
    ensures ok { IfOk result (λ text. IsHostPath folder.now path.now (string_bytes text)) }
    ensures no_spelling { IsErrOf result HostPathFault.NoSpelling → HasNoHostPath path.now }
    ensures not_utf8 { IsErrOf result HostPathFault.NotUtf8 → HasNoText folder.now path.now }
{
    let bytes = host_path(alloc, folder.as_bytes(), path)?;
    match String::from_utf8(bytes) {
        Ok(text) => Ok(text),
        Err(_) => Err(HostPathFault::NotUtf8),
    }
}

/// Whether a path has one on the host that is UTF-8: each of its names is the spelling of a name of the host that is.
/// So it is of no path below one of which it is not.
pub fn has_host_text(path: &Path) -> bool
    ensures { result ≡ has_host_text path.now }
{
    let Some(parent) = path.parent() else {
        return true;
    };
    is_text_spelling(last_name(path)) && has_host_text(&parent)
}

/// Whether a name of a path is the spelling of a name of the host that is UTF-8.
fn is_text_spelling(text: &[u8]) -> bool
    requires { length text.now ≤ MAX_NAME }
    ensures { result ≡ is_text_spelling text.now }
{
    match unescape(text) {
        Some(name) => is_utf8(name.as_slice()),
        None => false,
    }
}

/// Whether the bytes are UTF-8.
fn is_utf8(bytes: &[u8]) -> bool
    ensures { result ≡ is_utf8 bytes.now }
{
    match str::from_utf8(bytes) {
        Ok(_) => true,
        Err(_) => false,
    }
}

/// Adds bytes.
fn push_bytes(into: &mut Vec<u8>, bytes: &[u8]) -> Result<(), NoMemory>
    ensures { OnOk result (into.new.items ≡ into.old.items ++ bytes.now) }
{
    into.extend_from_slice(bytes)?;
    Ok(())
}

/// Adds `/` and the name of the host for each name of a path.
fn push_names(into: &mut Vec<u8>, path: &Path) -> Result<(), HostPathFault>
    ensures ok { OnOk result (AppendsHostNames path.now into.old.items into.new.items) }
    ensures no_spelling { IsErrOf result HostPathFault.NoSpelling → HasNoHostPath path.now }
    ensures not_utf8 { IsErrOf result HostPathFault.NotUtf8 → ⊥ }
{
    let Some(parent) = path.parent() else {
        return Ok(());
    };
    push_names(into, &parent)?;
    push_name(into, last_name(path))
}

/// The last name of a path. That it is not longer is what a path keeps.
fn last_name(path: &Path) -> &[u8]
    requires { model.is_root path.now ≡ false }
    ensures value { result.now ≡ model.last_name path.now }
    ensures fits { length result.now ≤ MAX_NAME }
{
    let _ = path.is_root();
    path.name()
}

/// Adds `/` and the name of the host that a name of a path spells.
fn push_name(into: &mut Vec<u8>, text: &[u8]) -> Result<(), HostPathFault>
    requires { length text.now ≤ MAX_NAME }
    ensures ok { OnOk result (AppendsHostName text.now into.old.items into.new.items) }
    ensures no_spelling { IsErrOf result HostPathFault.NoSpelling → HasNoHostName text.now }
    ensures not_utf8 { IsErrOf result HostPathFault.NotUtf8 → ⊥ }
{
    let Some(name) = unescape(text) else {
        return Err(HostPathFault::NoSpelling);
    };
    push_bytes(into, b"/")?;
    push_bytes(into, name.as_slice())?;
    Ok(())
}
