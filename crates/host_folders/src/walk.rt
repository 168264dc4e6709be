//! Finds all that stands in a folder.

ghost use Rattle.std.specs.Prelude.{◌≡◌, ◌≤◌, IfErr, IfOk, OnOk, vec_len};
ghost use Rattle.host_folders.specs.Faults.{faults_after, faults_found};
ghost use Rattle.host_folders.specs.FolderState.{IsObservable};
ghost use Rattle.host_folders.specs.FoundEntries.{folder_paths, is_folder, path_if};
ghost use Rattle.host_folders.specs.Walks.{AreApart, EndsFinding, EndsWalk, ToldAll, Walks};

use crate::fault::{FindFault, FolderFault};
use crate::folder::Folder;
use crate::found::{Found, FoundKind};
use path_keys::Path;
use std::alloc::Global;

/// The most entries that are looked for: an image of 65,536 slots has room for less.
pub const MAX_FOUND: u32 = 16_777_216;

/// Finds all that stands in a folder, and gives it in the order of paths. Each folder is listed as often as it is told.
/// Of entries that are told at one path one is given.
/// `TooMany`: the folder told more than 16,777,216 entries.
pub fn find_all<F: Folder>(alloc: Global, folder: &mut F) -> Result<Vec<Found>, FindFault>
    ensures observable { (F.state folder.new).is_observable ≡ (F.state folder.old).is_observable }
    ensures faults { (F.state folder.new).faults ≡ faults_found (F.state folder.old).faults result }
    ensures told { IsObservable (F.state folder.old)
        → IfOk result (λ found. ToldAll (F.state folder.old) (F.state folder.new) found.items) }
    ensures many { IsObservable (F.state folder.old)
        → IfErr result (EndsFinding (F.state folder.old) (F.state folder.new) MAX_FOUND) }
    ensures apart { IfOk result (λ found. AreApart found.items) }
    ensures few { IfOk result (λ found. vec_len found ≤ MAX_FOUND) }
{
    let mut found = Vec::new(alloc);
    folder.list(&Path::root(), &mut found)?;
    list_found(folder, &mut found)?;
    found.sort_unstable_by_key(|entry| entry.path);
    found.dedup_by_key(|entry| entry.path);
    Ok(found)
}

/// Lists each folder that was found, and each that is found so, in the order in which they were found.
/// `TooMany`: more than 16,777,216 entries were found.
fn list_found<F: Folder>(folder: &mut F, found: &mut Vec<Found>) -> Result<(), FindFault>
    ensures observable { (F.state folder.new).is_observable ≡ (F.state folder.old).is_observable }
    ensures faults { (F.state folder.new).faults ≡ faults_found (F.state folder.old).faults result }
    ensures told { IsObservable (F.state folder.old)
        → OnOk result (Walks (F.state folder.old) (F.state folder.new)
        (folder_paths found.new.items) found.old.items found.new.items) }
    ensures many { IsObservable (F.state folder.old)
        → IfErr result (EndsWalk (F.state folder.old) (F.state folder.new) MAX_FOUND
        found.old.items found.new.items) }
    ensures few { OnOk result (vec_len found.new ≤ MAX_FOUND) }
{
    for at in 0..=MAX_FOUND as usize {
        match found.get(at).copied() {
            Some(entry) => list_one(folder, &entry, found)?,
            None => return Ok(()),
        }
    }
    Err(FindFault::TooMany)
}

/// Lists what was found, if it is a folder.
fn list_one<F: Folder>(
    folder: &mut F,
    entry: &Found,
    found: &mut Vec<Found>,
) -> Result<(), FolderFault>
    ensures observable { (F.state folder.new).is_observable ≡ (F.state folder.old).is_observable }
    ensures faults { (F.state folder.new).faults ≡ faults_after (F.state folder.old).faults result }
    ensures told { IsObservable (F.state folder.old)
        → OnOk result (Walks (F.state folder.old) (F.state folder.new)
        (path_if (is_folder entry.now.kind) entry.now.path) found.old.items found.new.items) }
{
    match entry.kind {
        FoundKind::Folder => folder.list(&entry.path, found),
        FoundKind::File(_) | FoundKind::Link => Ok(()),
    }
}
