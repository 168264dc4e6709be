//! Paths that are the same.

ghost use Rattle.std.specs.Prelude.{◌≡◌};
ghost use Rattle.store_model.specs.Paths.{same_path};

use path_keys::Path;

/// Whether two paths are the same.
pub fn is_same_path(one: &Path, other: &Path) -> bool
    ensures { result ≡ same_path one.now other.now }
{
    *one == *other
}
