//! What the spellings of names are.

ghost use Rattle.std.specs.Prelude.{◌≡◌, ◌≤◌, ◌∷◌, ◌↔◌, [], ℕ, List, length, IsTrue};
ghost use Rattle.store_model.specs.Paths.{is_name, is_path};
ghost use Rattle.host_names.specs.HostNames.{escaped, is_host_name};

use crate::spelling::MAX_NAME;

/// The spelling of a name of the host is a name of a path, of some length.
pub fn escaped_names_are_names()
    ensures { (name : List ℕ) → IsTrue (is_host_name name) → IsTrue (is_name (escaped name)) }
{}

/// Two names of the host with one spelling are the same.
pub fn names_have_their_own_spelling()
    ensures { (name other : List ℕ) → IsTrue (is_host_name name) → IsTrue (is_host_name other)
        → escaped name ≡ escaped other → name ≡ other }
{}

/// A spelling is the path of one name exactly where it has at most 119 bytes.
pub fn short_spellings_are_paths()
    ensures { (name : List ℕ) → IsTrue (is_host_name name) → IsTrue (is_path (escaped name ∷ []))
        ↔ (length (escaped name) ≤ MAX_NAME) }
{}
