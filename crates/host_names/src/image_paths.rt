//! The path in an image of what stands in a folder of the host.

ghost use Rattle.std.specs.Prelude.{◌≡◌, ◌≤◌, ◌++◌, ◌∷◌, ◌↔◌, [], length, false, IfOk, IsErrOf, IsTrue};
ghost use Rattle.store_model.specs.Paths.{is_name, is_path, fits_field};
ghost use Rattle.host_names.specs.HostNames as model;

use crate::spelling::{MAX_NAME, escape};
use crate::telling::is_host_name;
use arrayvec::ArrayVec;
use path_keys::{Path, replant};
use thiserror::Error;

/// Why a name of the host has no path in an image.
#[derive(Clone, Copy, Debug, PartialEq, Eq, Error)]
pub enum ImagePathFault {
    /// The bytes are no name of the host.
    #[error("no name of the host")]
    NoName,
    /// The path would have more than 120 bytes.
    #[error("the path has more than 120 bytes")]
    TooLong,
}

/// Makes the path in an image of a name in a folder of the host: the folder's path in the image, and the name's
/// spelling. `NoName` and `TooLong`: exactly where it is so.
pub fn image_path(folder: &Path, name: &[u8]) -> Result<Path, ImagePathFault>
    ensures ok { IfOk result (λ path. path ≡ folder.now ++ model.escaped name.now ∷ []) }
    ensures valid { IfOk result (λ path. IsTrue (is_path path)) }
    ensures named { IfOk result (λ path. IsTrue (model.is_host_name name.now)) }
    ensures no_name { IsErrOf result ImagePathFault.NoName ↔ (model.is_host_name name.now ≡ false) }
    ensures too_long { IsErrOf result ImagePathFault.TooLong
        → fits_field (folder.now ++ model.escaped name.now ∷ []) ≡ false }
{
    if !is_host_name(name) {
        return Err(ImagePathFault::NoName);
    }
    match escape(name) {
        Some(spelled) => path_below(folder, spelled.as_slice()),
        None => Err(ImagePathFault::TooLong),
    }
}

/// The path with one more name, which is a spelling. That the folder's path is one is what a path keeps.
fn path_below(folder: &Path, spelled: &[u8]) -> Result<Path, ImagePathFault>
    requires name { IsTrue (is_name spelled.now) }
    requires fits { length spelled.now ≤ MAX_NAME }
    ensures ok { IfOk result (λ path. path ≡ folder.now ++ spelled.now ∷ []) }
    ensures valid { IfOk result (λ path. IsTrue (is_path path)) }
    ensures no_name { IsErrOf result ImagePathFault.NoName → ⊥ }
    ensures too_long { IsErrOf result ImagePathFault.TooLong
        → fits_field (folder.now ++ spelled.now ∷ []) ≡ false }
{
    let _ = folder.is_root();
    let Some(key) = replant(&path_of(spelled).key(0), &Path::root(), folder) else {
        return Err(ImagePathFault::TooLong);
    };
    match Path::of_key(&key) {
        Some(found) => Ok(found.0),
        None => unreachable!(),
    }
}

/// The path of one name.
fn path_of(name: &[u8]) -> Path
    requires name { IsTrue (is_name name.now) }
    requires fits { length name.now ≤ MAX_NAME }
    ensures value { result ≡ name.now ∷ [] }
    ensures valid { IsTrue (is_path result) }
{
    let mut text = ArrayVec::<u8, { Path::MAX_LEN }>::new();
    text.push(b'/');
    let Ok(()) = text.try_extend_from_slice(name) else {
        unreachable!()
    };
    let Ok(path) = Path::parse(text.as_slice()) else {
        unreachable!()
    };
    path
}
