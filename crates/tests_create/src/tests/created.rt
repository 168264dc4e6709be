//! An image that is made of a folder, beside that of a store; and what is left where the folder or the disk fails, and
//! where the folder changes.

ghost use Rattle.std.specs.Prelude.{◌≡◌};
ghost use Rattle.store_model.specs.declared.version.Version.TheVariants.{Two};

use super::support::{folder_of, formatted, long_bytes};
use disk_model::{Disk, FailingDisk, MemDisk};
use host_folders::{Found, MemFolder, find_all};
use image_create::{CreateFault, Created, Plan, count_found, create, create_empty, ladder};
use path_keys::Path;
use script_lines::Command;
use std::alloc::Global;
use std::process::Abort;
use store_base::{Bytes, DrawKind, Params, image_len};
use store_core::Store;
use store_model::{BLOCK, Version};
use tests_tools::{NEVER, command_of, disk_of, path_of, zero_disk};

/// More calls of a folder or a disk than any making has.
const MOST_CALLS: u64 = 100;

/// The commands that make the tree of the folder, but for its long file.
static TREE: &str =
    "make /d\nwrite /d/fU 0 6869\nset /d/fU mode 78\nset /d/fU mtime 37\nwrite /l 0 -\n\
    set /l link 642f6655\nwrite /z 0 -";

/// What a making meets: how many slots the image has, whether they are those that follow from the tree, with how many
/// bytes the long file was found and how many each file is told to have, whether the folder lists the last entry first,
/// and the calls of the folder and of the disk that fail.
#[derive(Clone, Copy)]
struct Case {
    slots: u32,
    is_laddered: bool,
    found: u32,
    told: Option<u32>,
    is_turned: bool,
    folder: u64,
    disk: u64,
}

/// Nothing fails or changes. The tree has seven pages.
const CALM: Case = Case {
    slots: 7,
    is_laddered: false,
    found: 2_100,
    told: None,
    is_turned: false,
    folder: NEVER,
    disk: NEVER,
};

/// The parameters of an image of so many slots.
fn params_of(rt: &impl Abort, slots: u32) -> Params
    ensures { result.version ≡ Two }
{
    let params = Params::new(slots, 2, DrawKind::Ruler, [0; 32]).expect(rt, "parameters");
    params.with_version(Version::Two)
}

/// What image is made of what was found.
fn plan_of(rt: &impl Abort, alloc: Global, case: &Case, found: &[Found]) -> Plan
    ensures version { result.params.version ≡ Two }
    ensures levels { result.levels ≡ result.params }
{
    let params = params_of(rt, case.slots);
    let counted = count_found(alloc, &params, found).ok();
    let counted = counted.expect(rt, "few pairs");
    let is_wanted = ladder(counted.pages) == Some(case.slots);
    assert!(rt; !case.is_laddered || is_wanted);
    Plan {
        params,
        levels: counted.levels,
        is_laddered: case.is_laddered,
    }
}

/// A disk of zeros for an image of these parameters, of which this call fails.
fn disk_for(rt: &impl Abort, alloc: Global, params: &Params, failing: u64) -> FailingDisk<MemDisk> {
    let zeros = vec![in alloc; 0; image_len(params.slots()) as usize].expect(rt, "memory");
    disk_of(alloc, &zeros, &[failing], None).expect(rt, "memory")
}

/// The folder of a case.
fn folder_in(rt: &impl Abort, alloc: Global, case: &Case) -> MemFolder {
    let mut folder = folder_of(rt, alloc, case.found, case.is_turned, case.folder);
    if let Some(told) = case.told {
        folder.tell(told);
    }
    folder
}

/// Makes an image of the folder, and answers how that ended, and the disk.
fn make(rt: &impl Abort, alloc: Global, case: &Case) -> (Result<(), CreateFault>, MemDisk) {
    let mut folder = folder_in(rt, alloc, case);
    let found = find_all(alloc, &mut folder).ok().expect(rt, "a folder");
    let plan = plan_of(rt, alloc, case, &found);
    let disk = disk_for(rt, alloc, &plan.params, case.disk);
    assert!(rt; disk.len() == image_len(plan.params.slots()));
    let Created {
        disk,
        folder: _,
        done,
    } = create(alloc, disk, folder, found, plan);
    (done, disk.into_disk())
}

/// The image that a store leaves of the tree of the folder.
fn stored(rt: &impl Abort, alloc: Global, slots: u32) -> MemDisk {
    let disk = formatted(rt, alloc, &params_of(rt, slots));
    let mut store = Store::attach(alloc, disk).ok().expect(rt, "a store");
    for line in TREE.lines() {
        let _ = store.apply(&command_of(line)).expect(rt, "a reply");
    }
    let long = Command::Write(path_of("/mU"), 0, Bytes::new(&long_bytes()));
    let _ = store.apply(&long).expect(rt, "a reply");
    store.into_disk()
}

/// Whether the disk is no image.
fn is_none(disk: &MemDisk) -> bool {
    disk.bytes().first() == Some(&0)
}

#[test]
fn a_folder_becomes_the_image_of_its_tree(rt: HostRuntime) {
    for (slots, is_laddered, is_turned) in [(7, false, false), (7, false, true), (64, true, true)] {
        let case = Case {
            slots,
            is_laddered,
            is_turned,
            ..CALM
        };
        let (done, disk) = make(&rt, rt.alloc(), &case);
        assert!(&rt; done.is_ok(), "{slots} {is_turned}");
        // Each block once, and the first byte by itself.
        let blocks = (disk.bytes().len() / BLOCK) as u64;
        assert!(&rt; disk.write_count() == blocks.saturating_add(1) && disk.sync_count() == 2);
        let wanted = stored(&rt, rt.alloc(), slots);
        assert!(&rt; disk.bytes() == wanted.bytes(), "{slots} {is_turned}");
    }
}

#[test]
fn a_folder_that_fails_leaves_no_image(rt: HostRuntime) {
    // Behind the lists of the root and of `/d` each file is opened, read to its end, and the link is asked.
    for call in 2..MOST_CALLS {
        let case = Case {
            folder: call,
            ..CALM
        };
        let (done, disk) = make(&rt, rt.alloc(), &case);
        if done.is_ok() {
            assert!(&rt; call > 8, "{call}");
            return;
        }
        let is_blamed = matches!(done, Err(CreateFault::Unreadable));
        assert!(&rt; is_blamed && is_none(&disk), "{call}");
    }
    panic!(&rt; "no end before the most calls");
}

#[test]
fn a_disk_that_fails_leaves_no_image(rt: HostRuntime) {
    // 17 blocks are written, then the first byte; a sync is before it, and one behind it.
    for call in 0..20 {
        let case = Case { disk: call, ..CALM };
        let (done, disk) = make(&rt, rt.alloc(), &case);
        let is_blamed = matches!(done, Err(CreateFault::Disk));
        assert!(&rt; is_blamed && is_none(&disk) == (call < 19), "{call}");
    }
}

/// The path that is blamed; the root where none is.
fn blamed(done: &Result<(), CreateFault>) -> Path {
    match done {
        Err(CreateFault::Moving(at)) => *at,
        _ => Path::root(),
    }
}

/// Looks whether a path of the folder is blamed where each file is told to have so many bytes.
fn expect_moving(rt: &impl Abort, alloc: Global, told: u32, path: &str) {
    let case = Case {
        told: Some(told),
        ..CALM
    };
    let (done, disk) = make(rt, alloc, &case);
    let is_blamed = blamed(&done) == path_of(path);
    assert!(rt; is_blamed && is_none(&disk), "{told}");
}

#[test]
fn a_file_of_another_length_is_blamed(rt: HostRuntime) {
    // A file that ends early, one that goes on behind its end, and one that does behind its first piece.
    for (told, path) in [(3, "/d/fU"), (1, "/d/fU"), (2, "/mU")] {
        expect_moving(&rt, rt.alloc(), told, path);
    }
}

#[test]
fn a_tree_that_is_too_large_is_counted(rt: HostRuntime) {
    let case = Case { slots: 6, ..CALM };
    let (done, disk) = make(&rt, rt.alloc(), &case);
    let is_full = matches!(done, Err(CreateFault::Full { need: 7, slots: 6 }));
    assert!(&rt; is_full && is_none(&disk));
}

#[test]
fn slots_that_do_not_follow_from_the_tree_are_refused(rt: HostRuntime) {
    // The long file was found with bytes for 79 pages.
    let case = Case {
        slots: 128,
        is_laddered: true,
        found: 200_000,
        ..CALM
    };
    let (done, disk) = make(&rt, rt.alloc(), &case);
    assert!(&rt; matches!(done, Err(CreateFault::OtherSlots)) && is_none(&disk));
}

#[test]
fn an_empty_tree_has_an_image(rt: HostRuntime) {
    let params = params_of(&rt, 7);
    let wanted = formatted(&rt, rt.alloc(), &params);
    let mut disk = zero_disk(rt.alloc(), image_len(7)).expect(&rt, "memory");
    assert!(&rt; disk.len() == image_len(params.slots()));
    assert!(&rt; create_empty(rt.alloc(), &mut disk, &params).is_ok());
    assert!(&rt; disk.bytes() == wanted.bytes());
}
