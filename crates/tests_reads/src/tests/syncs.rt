//! Images in memory that are made to hold what a folder in memory holds, and those that are left as they are.

use super::differences::{are_told, changed, folder_of};
use super::support::{calm_disk, formatted, params_of};
use disk_model::MemDisk;
use dump_diff::Losses;
use host_folders::{Found, FoundKind, MemEntry, MemFolder, find_all};
use image_differences::{
    FolderPlanFault, FolderPlanned, FolderReadFault, ImagesCompared, compare_images, plan_folder,
};
use image_sync::{SyncAnswer, carry_out};
use std::alloc::Global;
use std::process::Abort;
use store_base::{DrawKind, Params};
use store_core::Store;
use store_model::Refusal;
use synced_trees::SyncPlan;
use tests_tools::{NEVER, fields, path_of, sink_of};

/// Rows parted by `#`: the lines that change the image from one that holds what the folder does, the letters of the
/// losses that count (`p` for paths, `m` for modes, `t` for times, `l` for links, and `o` for others), the lines of
/// what changes, and the lines that change that image to the one that is left.
const SYNCS: &str = "\
    |pmtlo||#\
    write /d/f 1 0203|pmtlo|M /d/f\n|#\
    write /d/f 1 0203||M /d/f\n|#\
    remove /l|pmtlo|A /l\n|#\
    remove /l\nmake /l\nset /l k 01||M /l\n|#\
    remove /l\nmake /l\nmake /l/x|pmtlo|M /l\nD /l/x\n|#\
    make /e\nset /d k 01|pmtlo|M /d\nD /e\n|#\
    make /e\nset /d k 01|mtl||make /e\nset /d k 01#\
    make /e\nset /d k 01|p|D /e\n|set /d k 01#\
    make /e\nset /d k 01|o|M /d\n|make /e#\
    set /d/f link 64|l|M /d/f\n|#\
    set /d/f link 64|pmto||set /d/f link 64#\
    set /l mode 78\nset /l mtime 37|m|M /l\n|set /l mtime 37#\
    set /l mode 78\nset /l mtime 37|t|M /l\n|set /l mode 78#\
    unset /d/f mode\nset /d/f mtime 38||M /d/f\n|";

/// The losses of these letters.
fn losses_of(letters: &str) -> Losses {
    Losses {
        paths: letters.contains('p'),
        mode: letters.contains('m'),
        mtime: letters.contains('t'),
        link: letters.contains('l'),
        others: letters.contains('o'),
    }
}

/// What is planned for the store on an image, and a folder.
fn planned(
    rt: &impl Abort,
    alloc: Global,
    image: MemDisk,
    letters: &str,
    folder: MemFolder,
) -> (Store<MemDisk>, Result<SyncPlan, FolderPlanFault>) {
    let store = Store::attach(alloc, image).ok().expect(rt, "a store");
    let mut folder = folder;
    let found = find_all(alloc, &mut folder).ok().expect(rt, "a folder");
    let planned = plan_folder(alloc, store, folder, found, &losses_of(letters));
    let FolderPlanned {
        store,
        folder: _,
        plan,
    } = planned;
    (store, plan)
}

/// The folder of a file that may be executed and a link, of which this call fails.
fn small_folder(rt: &impl Abort, alloc: Global, failing: u64) -> MemFolder {
    folder_of(rt, alloc, true, Some(7), failing)
}

/// A folder of one file with so many bytes.
fn long_folder(rt: &impl Abort, alloc: Global, len: u32) -> MemFolder {
    let found = Found {
        path: path_of("/f"),
        kind: FoundKind::File(len),
        is_executable: false,
        seconds: None,
    };
    let bytes = vec![in alloc; 1; len as usize].expect(rt, "memory");
    let mut entries = Vec::new(alloc);
    entries.push(MemEntry { found, bytes }).expect(rt, "memory");
    MemFolder::new(entries, 4096, Vec::new(alloc))
}

/// Whether two images hold one tree.
fn hold_one(rt: &impl Abort, alloc: Global, one: &MemDisk, other: &MemDisk) -> bool {
    let one = calm_disk(rt, alloc, one);
    let other = calm_disk(rt, alloc, other);
    let ImagesCompared {
        first: _,
        second: _,
        found,
    } = compare_images(alloc, one, other);
    found.ok().expect(rt, "two images").trees.is_empty()
}

/// Looks whether an image is changed as a row says.
fn expect_sync(rt: &impl Abort, alloc: Global, row: &str) {
    let [more, letters, lines, left, ..] = fields(row);
    let image = changed(rt, alloc, 16, more);
    let (mut store, plan) = planned(rt, alloc, image, letters, small_folder(rt, alloc, NEVER));
    let plan = plan.ok().expect(rt, "a plan");
    let mut sink = sink_of(alloc, &[]).expect(rt, "memory");
    plan.write_lines(&mut sink).expect(rt, "room");
    assert!(rt; sink.written() == lines.as_bytes(), "{row}");
    assert!(rt; are_told(rt, alloc, plan.changed(), lines), "{row}");
    let answer = carry_out(&mut store, &plan).expect(rt, "an answer");
    assert!(rt; answer == SyncAnswer::Done, "{row}");
    let left = changed(rt, alloc, 16, left);
    assert!(rt; hold_one(rt, alloc, &store.into_disk(), &left), "{row}");
}

#[test]
fn an_image_holds_what_a_folder_holds(rt: HostRuntime) {
    for row in SYNCS.split('#') {
        expect_sync(&rt, rt.alloc(), row);
    }
}

#[test]
fn a_folder_that_is_not_empty_becomes_no_file(rt: HostRuntime) {
    let image = changed(&rt, rt.alloc(), 16, "remove /l\nmake /l\nmake /l/x");
    let folder = small_folder(&rt, rt.alloc(), NEVER);
    let (store, plan) = planned(&rt, rt.alloc(), image, "mtlo", folder);
    let _ = store.into_disk();
    let is_hidden = matches!(plan, Err(FolderPlanFault::Hidden(_)));
    assert!(&rt; is_hidden);
}

#[test]
fn a_folder_that_fails_plans_nothing(rt: HostRuntime) {
    for call in 2..7 {
        let image = changed(&rt, rt.alloc(), 16, "");
        let folder = small_folder(&rt, rt.alloc(), call);
        let (store, plan) = planned(&rt, rt.alloc(), image, "p", folder);
        let _ = store.into_disk();
        let is_blamed = matches!(
            plan,
            Err(FolderPlanFault::Folder(FolderReadFault::Unreadable))
        );
        assert!(&rt; is_blamed, "{call}");
    }
}

/// How making the image of an empty tree hold what a folder does ends, and whether it is as before.
fn filled(
    rt: &impl Abort,
    alloc: Global,
    params: &Params,
    folder: MemFolder,
) -> (SyncAnswer, bool) {
    let image = formatted(rt, alloc, params);
    let (mut store, plan) = planned(rt, alloc, image, "pmtlo", folder);
    let plan = plan.ok().expect(rt, "a plan");
    let answer = carry_out(&mut store, &plan).expect(rt, "an answer");
    let empty = formatted(rt, alloc, params);
    (answer, hold_one(rt, alloc, &store.into_disk(), &empty))
}

#[test]
fn an_image_without_room_is_left(rt: HostRuntime) {
    let folder = long_folder(&rt, rt.alloc(), 40_000);
    let (answer, is_same) = filled(&rt, rt.alloc(), &params_of(&rt, 4), folder);
    assert!(&rt; matches!(answer, SyncAnswer::Full { need, slots: 4 } if need > 4) & is_same);
}

#[test]
fn an_image_without_attributes_is_left(rt: HostRuntime) {
    let params = Params::new(16, 2, DrawKind::Ruler, [0; 32]).expect(&rt, "parameters");
    let folder = small_folder(&rt, rt.alloc(), NEVER);
    let (answer, is_same) = filled(&rt, rt.alloc(), &params, folder);
    assert!(&rt; (answer == SyncAnswer::Refused(Refusal::Version)) & is_same);
}
