//! The first pass over what was found in a folder.

ghost use Rattle.std.specs.Prelude.{◌≡◌, IfErr, IfOk};
ghost use Rattle.std.specs.List.{AllByRecursion};
ghost use Rattle.image_create.specs.Counts.{CountsFound, CountsKeys, CountsPages, HasTooMany};
ghost use Rattle.image_create.specs.FoundKeys.{HasKeys, keys_found};

use crate::keys::KeyCounter;
pub use crate::keys::TooMany;
use crate::kinds::Kinds;
use drawn_levels::KnownLevels;
use host_folders::Found;
use std::alloc::Global;
use store_base::Params;
use store_model::Version;

/// What an image holds of what was found, if the folder stays as it was found.
#[derive(Drop)]
pub struct Counted {
    /// Its pages, whatever its files hold and where its links lead.
    pub pages: u32,
    /// The levels of its keys, as far as they are kept.
    pub levels: KnownLevels,
    /// Its folders, without the root.
    pub folders: u32,
    /// Its files, without links.
    pub files: u32,
    /// Its symbolic links.
    pub links: u32,
    /// The bytes that its files have together.
    pub bytes: u64,
}

/// Counts what an image of these parameters holds of what was found in a folder, if the folder stays as it was found:
/// no file is read, and no link is asked. The levels of the keys are kept for a second pass.
/// `TooMany`: there are more than 268,435,456 pairs.
pub fn count_found(alloc: Global, params: &Params, found: &[Found]) -> Result<Counted, TooMany>
    ensures pages { IfOk result (λ counted. CountsPages found.now params.now counted.pages) }
    ensures levels { IfOk result (λ counted. counted.levels ≡ params.now) }
    ensures counts { IfOk result (CountsFound found.now) }
    ensures many { IfErr result (λ fault. HasTooMany found.now params.now) }
{
    let mut keys = KeyCounter::new(alloc, params);
    count_keys(&mut keys, params.version(), found)?;
    let kinds = Kinds::of(found);
    Ok(Counted {
        pages: keys.counter.pages(),
        levels: keys.levels,
        folders: kinds.folders,
        files: kinds.files,
        links: kinds.links,
        bytes: kinds.bytes,
    })
}

/// Counts the keys of all pairs of what was found.
fn count_keys(keys: &mut KeyCounter, version: Version, found: &[Found]) -> Result<(), TooMany>
    ensures levels { keys.new.levels ≡ keys.old.levels }
    ensures counts { AllByRecursion HasKeys found.now
        → CountsKeys keys.old keys.new (keys_found version found.now) result }
{
    for entry in found {
        keys.push_found(version, entry)?;
    }
    Ok(())
}
