//! Paths of an image, as people give them and as they are shown.

ghost use Rattle.std.specs.Prelude.{◌≡◌, ◌≤◌, ◌++◌, ◌∷◌, length, map, false, Some, None, Ok, IfOk, IfSome, OnOk};
ghost use Rattle.std.specs.Prelude.{IsErrOf, IsTrue};
ghost use Rattle.std.specs.List.{list_all, flat_map};
ghost use Rattle.store_model.specs.Grammar.{path_of};
ghost use Rattle.store_model.specs.Paths as model;
ghost use Rattle.host_names.specs.HostNames.{escaped};
ghost use Rattle.box_words.specs.Shown.{Spells, AllHost, shown_name, shown_text, reads_back, name_in};

use crate::cutting::cut_part;
use arrayvec::ArrayVec;
use host_names::{ImagePathFault, MAX_NAME, unescape};
use path_keys::{Path, PathFault};
use std::alloc::Global;
use store_base::NoMemory;
use thiserror::Error;

/// How the names of paths are spelled where a person gives or sees them.
#[derive(Clone, Copy, Debug, PartialEq, Eq)]
pub enum Spelling {
    /// As on the host.
    Host,
    /// As in the image: `--escaped`.
    Escaped,
}

/// Why a text is no path of an image.
#[derive(Clone, Copy, Debug, PartialEq, Eq, Error)]
pub enum PathWordFault {
    /// It spells none: it is empty, or one of its names is none.
    #[error("not a path")]
    NoPath,
    /// In the spelling of the image the path would have more than 120 bytes.
    #[error("the path is too long for an image")]
    TooLong,
}

/// Reads the path of an image that a text spells, with or without a `/` in front. As on the host two `/` side by side
/// are one, and one at the end is none; in the spelling of the image neither may stand there.
/// `NoPath`: it spells none. `TooLong`: what it spells is too long for an image. Where a text in the host's spelling
/// has names that are too long by themselves, and a name behind them that is none, it is `TooLong`.
pub fn image_path(text: &str, spelling: Spelling) -> Result<Path, PathWordFault>
    ensures ok { IfOk result (λ path. Spells spelling text.now path) }
    ensures valid { IfOk result (λ path. IsTrue (model.is_path path)) }
    ensures no_path { IsErrOf result PathWordFault.NoPath
        → (path : model.Path) → Spells spelling text.now path → ⊥ }
    ensures too_long { IsErrOf result PathWordFault.TooLong
        → (path : model.Path) → Spells spelling text.now path → model.fits_field path ≡ false }

    // What is shown of a path is read as the path.
    ensures back { (path : model.Path) → IsTrue (model.is_path path)
        → IsTrue (list_all (reads_back spelling) path)
        → text.now ≡ shown_text spelling path → result ≡ Ok path }
{
    match spelling {
        Spelling::Host => host_path(text.as_bytes()),
        Spelling::Escaped => spelled_path(text.as_bytes()),
    }
}

/// The path that a text spells as on the host.
fn host_path(text: &[u8]) -> Result<Path, PathWordFault>
    ensures ok { IfOk result (λ path. Spells Spelling.Host text.now path) }
    ensures valid { IfOk result (λ path. IsTrue (model.is_path path)) }
    ensures no_path { IsErrOf result PathWordFault.NoPath
        → (path : model.Path) → Spells Spelling.Host text.now path → ⊥ }
    ensures too_long { IsErrOf result PathWordFault.TooLong
        → (path : model.Path) → Spells Spelling.Host text.now path → model.fits_field path ≡ false }
{
    if text.is_empty() {
        return Err(PathWordFault::NoPath);
    }
    let mut path = Path::root();
    let mut rest = text;
    loop {
        let (name, behind) = cut_part(b'/', rest);
        path = path_with(&path, name)?;
        match behind {
            Some(behind) => rest = behind,
            None => return Ok(path),
        }
    }
}

/// The path with one more name of the host, where there is one.
fn path_with(folder: &Path, name: &[u8]) -> Result<Path, PathWordFault>
    ensures ok { IfOk result (λ path. path ≡ folder.now ++ map escaped (name_in name.now)) }
    ensures named { IfOk result (λ path. AllHost (name_in name.now)) }
    ensures valid { IfOk result (λ path. IsTrue (model.is_path path)) }
    ensures no_path { IsErrOf result PathWordFault.NoPath → AllHost (name_in name.now) → ⊥ }
    ensures too_long { IsErrOf result PathWordFault.TooLong
        → model.fits_field (folder.now ++ map escaped (name_in name.now)) ≡ false }
{
    if name.is_empty() {
        let _ = folder.is_root();
        return Ok(*folder);
    }
    match host_names::image_path(folder, name) {
        Ok(path) => Ok(path),
        Err(ImagePathFault::NoName) => Err(PathWordFault::NoPath),
        Err(ImagePathFault::TooLong) => Err(PathWordFault::TooLong),
    }
}

/// The path that a text spells as in the image.
fn spelled_path(text: &[u8]) -> Result<Path, PathWordFault>
    ensures ok { IfOk result (λ path. Spells Spelling.Escaped text.now path) }
    ensures valid { IfOk result (λ path. IsTrue (model.is_path path)) }
    ensures no_path { IsErrOf result PathWordFault.NoPath
        → (path : model.Path) → Spells Spelling.Escaped text.now path → ⊥ }
    ensures too_long { IsErrOf result PathWordFault.TooLong
        → (path : model.Path) → Spells Spelling.Escaped text.now path → model.fits_field path ≡ false }
{
    match text {
        [] => Err(PathWordFault::NoPath),
        [b'/', ..] => parsed(text),
        text => behind_slash(text),
    }
}

/// The path that a text with a `/` in front spells as in the image.
fn parsed(text: &[u8]) -> Result<Path, PathWordFault>
    ensures ok { IfOk result (λ path. path_of text.now ≡ Some path) }
    ensures valid { IfOk result (λ path. IsTrue (model.is_path path)) }
    ensures no_path { IsErrOf result PathWordFault.NoPath → path_of text.now ≡ None }
    ensures too_long { IsErrOf result PathWordFault.TooLong
        → IfSome (path_of text.now) (λ path. model.fits_field path ≡ false) }
{
    match Path::parse(text) {
        Ok(path) => Ok(path),
        Err(PathFault::Syntax) => Err(PathWordFault::NoPath),
        Err(PathFault::TooLong) => Err(PathWordFault::TooLong),
    }
}

/// The path that a text spells as in the image behind a `/`.
fn behind_slash(text: &[u8]) -> Result<Path, PathWordFault>
    ensures ok { IfOk result (λ path. path_of (0x2f ∷ text.now) ≡ Some path) }
    ensures valid { IfOk result (λ path. IsTrue (model.is_path path)) }
    ensures no_path { IsErrOf result PathWordFault.NoPath → path_of (0x2f ∷ text.now) ≡ None }
    ensures too_long { IsErrOf result PathWordFault.TooLong
        → IfSome (path_of (0x2f ∷ text.now)) (λ path. model.fits_field path ≡ false) }
{
    let mut whole = ArrayVec::<u8, { Path::MAX_LEN }>::new();
    whole.push(b'/');
    match whole.try_extend_from_slice(text) {
        Ok(()) => parsed(whole.as_slice()),
        Err(_) => Err(PathWordFault::TooLong),
    }
}

/// Shows a path in a spelling, as bytes: `/` for the root, and else `/` and the name for each name. In the host's
/// spelling a name that spells no name of the host is shown as it is in the image.
/// `NoMemory`: it was not made.
#[tactic(auto, unfolding(store_model::specs::Paths::path_text))]
pub fn shown(alloc: Global, path: &Path, spelling: Spelling) -> Result<Vec<u8>, NoMemory>
    ensures { IfOk result (λ bytes. bytes.items ≡ shown_text spelling path.now) }
{
    let mut bytes = Vec::new(alloc);
    if path.is_root() {
        push_bytes(&mut bytes, b"/")?;
    } else {
        push_names(&mut bytes, path, spelling)?;
    }
    Ok(bytes)
}

/// Adds bytes.
fn push_bytes(into: &mut Vec<u8>, bytes: &[u8]) -> Result<(), NoMemory>
    ensures { OnOk result (into.new.items ≡ into.old.items ++ bytes.now) }
{
    into.extend_from_slice(bytes)?;
    Ok(())
}

/// Adds `/` and the name as it is shown for each name of a path.
fn push_names(into: &mut Vec<u8>, path: &Path, spelling: Spelling) -> Result<(), NoMemory>
    ensures { OnOk result (into.new.items
        ≡ into.old.items ++ flat_map (λ n. 0x2f ∷ n) (map (shown_name spelling) path.now)) }
{
    let Some(parent) = path.parent() else {
        return Ok(());
    };
    push_names(into, &parent, spelling)?;
    push_name(into, last_name(path), spelling)
}

/// The last name of a path. That it is not longer is what a path keeps.
fn last_name(path: &Path) -> &[u8]
    requires { model.is_root path.now ≡ false }
    ensures value { result.now ≡ model.last_name path.now }
    ensures fits { length result.now ≤ MAX_NAME }
{
    let _ = path.is_root();
    path.name()
}

/// Adds `/` and a name as it is shown.
fn push_name(into: &mut Vec<u8>, name: &[u8], spelling: Spelling) -> Result<(), NoMemory>
    requires { length name.now ≤ MAX_NAME }
    ensures { OnOk result (into.new.items ≡ into.old.items ++ (0x2f ∷ shown_name spelling name.now)) }
{
    push_bytes(into, b"/")?;
    match spelling {
        Spelling::Host => push_host_name(into, name),
        Spelling::Escaped => push_bytes(into, name),
    }
}

/// Adds the name of the host that a name spells, and the name itself where it spells none.
fn push_host_name(into: &mut Vec<u8>, name: &[u8]) -> Result<(), NoMemory>
    requires { length name.now ≤ MAX_NAME }
    ensures { OnOk result (into.new.items ≡ into.old.items ++ shown_name Spelling.Host name.now) }
{
    match unescape(name) {
        Some(host) => push_bytes(into, host.as_slice()),
        None => push_bytes(into, name),
    }
}
