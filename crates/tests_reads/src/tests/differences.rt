//! Images in memory that are compared with one another and with a folder in memory, and disks and folders that fail.

use super::support::{calm_disk, failing_disk, image_of, params_of};
use disk_model::MemDisk;
use dump_diff::{Differences, write_differences};
use host_builder::{Links, Wanted};
use host_folders::{Found, FoundKind, MemEntry, MemFolder, find_all};
use image_differences::{
    FolderCompareFault, FolderCompared, FolderReadFault, ImagesCompared, ImagesFault, Times,
    compare_folder, compare_images,
};
use image_reads::ReadFault;
use std::alloc::Global;
use std::process::Abort;
use tests_tools::{NEVER, disk_of, fields, number, path_of, sink_of};

/// A folder, a file in it, and what stands behind them.
const FIRST: &str = "make /d\nwrite /d/f 0 0001\nset /d/f mode 78\nset /d/f mtime 37\n\
    write /l 0 -\nset /l link 642f66\n";

/// Rows parted by `#`: the slots of the second image, whether its parameters are those of the first, the lines that
/// change it from the first, and the lines of the differences.
const IMAGES: &str = "\
    16|y||#\
    32|n||#\
    16|y|remove /d/f\nmake /d/f\n|M /d/f\n#\
    16|y|write /d/f 1 02\n|M /d/f\n#\
    16|y|set /d k 01\n|M /d\n#\
    16|y|remove /l\nmake /e\n|A /e\nD /l\n#\
    32|n|set /l link 64\n|M /l\n";

/// Whether the differences are told by these lines.
pub fn are_told(rt: &impl Abort, alloc: Global, found: &Differences, lines: &str) -> bool {
    let mut sink = sink_of(alloc, &[]).expect(rt, "memory");
    let is_told = write_differences(found, &mut sink).is_ok();
    is_told & (sink.written() == lines.as_bytes())
}

/// The image of so many slots that the first tree leaves, and what changes it.
pub fn changed(rt: &impl Abort, alloc: Global, slots: u32, more: &str) -> MemDisk {
    let script = format!(in alloc; "{FIRST}{more}").expect(rt, "memory");
    image_of(rt, alloc, &params_of(rt, slots), script.as_str())
}

/// Looks whether the first image and that of a row differ as the row says.
fn expect_images(rt: &impl Abort, alloc: Global, row: &str) {
    let [slots, same, more, lines, ..] = fields(row);
    let one = calm_disk(rt, alloc, &changed(rt, alloc, 16, ""));
    let slots = slots.parse::<u32>().expect(rt, "a number");
    let other = calm_disk(rt, alloc, &changed(rt, alloc, slots, more));
    let ImagesCompared {
        first: _,
        second: _,
        found,
    } = compare_images(alloc, one, other);
    let found = found.ok().expect(rt, "two images");
    let is_same = found.first.slots() == found.second.slots();
    assert!(rt;
        are_told(rt, alloc, &found.trees, lines) & (is_same == (same == "y")),
        "{row}"
    );
}

#[test]
fn images_differ(rt: HostRuntime) {
    for row in IMAGES.split('#') {
        expect_images(&rt, rt.alloc(), row);
    }
}

#[test]
fn the_image_that_fails_is_blamed(rt: HostRuntime) {
    let image = changed(&rt, rt.alloc(), 16, "");
    let good = calm_disk(&rt, rt.alloc(), &image);
    let bad = failing_disk(&rt, rt.alloc(), &image, 0);
    let ImagesCompared {
        first: bad,
        second: good,
        found,
    } = compare_images(rt.alloc(), bad, good);
    assert!(&rt; found.err() == Some(ImagesFault::First(ReadFault::Disk)));
    let cut = disk_of(rt.alloc(), &[], &[], None).expect(&rt, "memory");
    let ImagesCompared {
        first: _,
        second: _,
        found,
    } = compare_images(rt.alloc(), good, cut);
    assert!(&rt; found.err() == Some(ImagesFault::Second(ReadFault::NotImage)));
    let _ = bad.into_disk();
}

/// A folder of a file and a link, whose file has this time, if any, and may be executed or not. This call of it fails.
pub fn folder_of(
    rt: &impl Abort,
    alloc: Global,
    is_executable: bool,
    seconds: Option<u64>,
    failing: u64,
) -> MemFolder {
    let mut entries = Vec::new(alloc);
    for (path, kind, bytes) in [
        ("/d", FoundKind::Folder, b"".as_slice()),
        ("/d/f", FoundKind::File(2), b"\x00\x01".as_slice()),
        ("/l", FoundKind::Link, b"d/f".as_slice()),
    ] {
        let is_file = path == "/d/f";
        let found = Found {
            path: path_of(path),
            kind,
            is_executable: is_file & is_executable,
            seconds: if is_file { seconds } else { None },
        };
        let bytes = bytes.to_vec(alloc).expect(rt, "memory");
        entries.push(MemEntry { found, bytes }).expect(rt, "memory");
    }
    let failing = [failing].to_vec(alloc).expect(rt, "memory");
    MemFolder::new(entries, 1, failing)
}

/// Rows parted by `#`: the lines that change the image, whether the file of the folder may be executed, its time, what
/// is wanted (`m` for modes, `t` for times, `i` for times as in the image), and the lines of the differences.
const FOLDERS: &str = "\
    |y|7|mt|#\
    |y|8|mt|M /d/f\n#\
    |y|8|m|#\
    |y|8|mi|M /d/f\n#\
    unset /d/f mtime\n|y|8|mi|#\
    unset /d/f mtime\n|y|8|mt|M /d/f\n#\
    |n|7|mt|M /d/f\n#\
    |n|7|t|#\
    set /d k 01\n|y|7|mt|#\
    make /%41\n|y|7|mt|D /%41\n#\
    remove /l\nmake /e\n|y|7|mt|D /e\nA /l\n#\
    set /l link 64\n|y|7|mt|M /l\n";

/// Looks whether an image and a folder differ as a row says.
fn expect_folder(rt: &impl Abort, alloc: Global, row: &str) {
    let [more, executes, seconds, wants, lines, ..] = fields(row);
    let disk = calm_disk(rt, alloc, &changed(rt, alloc, 16, more));
    let seconds = Some(number(seconds));
    let mut folder = folder_of(rt, alloc, executes == "y", seconds, NEVER);
    let found = find_all(alloc, &mut folder).ok().expect(rt, "a folder");
    let wanted = Wanted {
        mode: wants.contains('m'),
        mtime: wants.contains('t'),
        links: Links::Made,
        skips: false,
    };
    let times = if wants.contains('i') {
        Times::AsInImage
    } else {
        Times::AsWanted
    };
    let FolderCompared {
        disk: _,
        folder: _,
        found,
    } = compare_folder(alloc, disk, folder, found, wanted, times);
    let found = found.ok().expect(rt, "an image and a folder");
    assert!(rt; are_told(rt, alloc, &found, lines), "{row}");
}

#[test]
fn an_image_and_a_folder_differ(rt: HostRuntime) {
    for row in FOLDERS.split('#') {
        expect_folder(&rt, rt.alloc(), row);
    }
}

/// Whether this is the fault where this call of the folder fails: the root and `/d` are listed first, then the file is
/// opened, read byte by byte, and read once more for its end, and the link is asked.
fn is_blamed(rt: &impl Abort, alloc: Global, image: &MemDisk, call: u64) -> bool {
    let disk = calm_disk(rt, alloc, image);
    let mut folder = folder_of(rt, alloc, true, Some(7), call);
    let found = find_all(alloc, &mut folder).ok().expect(rt, "a folder");
    let wanted = Wanted {
        mode: true,
        mtime: true,
        links: Links::Made,
        skips: false,
    };
    let FolderCompared {
        disk: _,
        folder: _,
        found,
    } = compare_folder(alloc, disk, folder, found, wanted, Times::AsWanted);
    matches!(
        found,
        Err(FolderCompareFault::Folder(FolderReadFault::Unreadable))
    )
}

#[test]
fn a_folder_that_fails_is_blamed(rt: HostRuntime) {
    let image = changed(&rt, rt.alloc(), 16, "");
    for call in 2..7 {
        assert!(&rt; is_blamed(&rt, rt.alloc(), &image, call), "{call}");
    }
}
