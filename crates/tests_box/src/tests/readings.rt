//! `get`, `ls`, `check`, `info` and `map`.

use super::support::{TREE, image_of, out_of, place_in, say_of, zeros_of};
use box_calls::{Ended, Target, check_image, draw_map, get_file, list_path, print_info};
use box_words::Spelling;
use disk_model::MemDisk;
use dump_streams::GatheredSink;
use entry_lines::ListForm;
use script_lines::MemSink;
use std::alloc::Global;
use std::process::Abort;
use tests_tools::{NEVER, fields, number, path_of};

/// What a call hands back.
type Came = Ended<MemDisk, GatheredSink<MemSink>, MemSink>;

/// The files that are copied: the path, the status, the bytes, and what is said.
static COPIES: &str = "/d/a.txt|0|hi|#\
    /d|17||hbox: x.img: /d: it is a folder; hbox ls x.img /d lists what is in it\n#\
    /l|17||hbox: x.img: /l: it is a symbolic link to d/a.txt; give the path of the file that it leads to\n#\
    /d/b|17||hbox: x.img: /d/b: no such file or folder; hbox ls -R x.img lists all that is there\n";

/// The lists: the path, the status, and the lines.
static LISTS: &str = "/|0|d/\nd/a.txt\nl\n#/d|0|a.txt\n#/d/a.txt|0|a.txt\n#/e|17|";

/// All below a path, with its names alone.
const BELOW: ListForm = ListForm {
    is_below: true,
    is_long: false,
    is_zero: false,
    is_visible: false,
    spelling: Spelling::Host,
};

/// Looks at how a call ended, what it printed, and what it said.
fn expect(rt: &impl Abort, came: Came, status: u64, out: &[u8], said: &[u8], row: &str) {
    assert!(rt; u64::from(came.status.code()) == status, "{row}");
    assert!(rt; came.out.into_sink().written() == out, "{row}");
    assert!(rt; came.say.written() == said, "{row}");
}

#[test]
fn a_file_is_copied(rt: HostRuntime) {
    let alloc = rt.alloc();
    for row in COPIES.split('#') {
        let [path, status, out, said, ..] = fields(row);
        let disk = image_of(&rt, alloc, 7, TREE);
        let (sink, say) = (out_of(&rt, alloc, NEVER), say_of(&rt, alloc));
        let (place, path) = (place_in(alloc, false), path_of(path));
        let came = get_file(&place, disk, &path, Target::Output, sink, say);
        expect(
            &rt,
            came,
            number(status),
            out.as_bytes(),
            said.as_bytes(),
            row,
        );
    }
}

#[test]
fn a_target_that_fails_is_told(rt: HostRuntime) {
    let alloc = rt.alloc();
    let rows = "4|hbox: standard output: it could not be written, so what was printed is a part; \
        look whether the disk is full, or the reader has ended\n#\
        18|hbox: there: it could not be written; look whether the disk is full, or give another FILE\n";
    for (row, target) in rows.split('#').zip([Target::Output, Target::File]) {
        let [status, said, ..] = fields(row);
        let disk = image_of(&rt, alloc, 7, TREE);
        let (sink, say) = (out_of(&rt, alloc, 0), say_of(&rt, alloc));
        let came = get_file(
            &place_in(alloc, false),
            disk,
            &path_of("/d/a.txt"),
            target,
            sink,
            say,
        );
        expect(&rt, came, number(status), b"", said.as_bytes(), row);
    }
}

#[test]
fn paths_are_listed(rt: HostRuntime) {
    let alloc = rt.alloc();
    for row in LISTS.split('#') {
        let [path, status, out, ..] = fields(row);
        let disk = image_of(&rt, alloc, 7, TREE);
        let (sink, say) = (out_of(&rt, alloc, NEVER), say_of(&rt, alloc));
        let came = list_path(
            &place_in(alloc, false),
            disk,
            &path_of(path),
            BELOW,
            sink,
            say,
        );
        assert!(&rt; u64::from(came.status.code()) == number(status), "{row}");
        assert!(&rt; came.out.into_sink().written() == out.as_bytes(), "{row}");
    }
}

/// What a check of an image prints, and how it ends.
fn checked(rt: &impl Abort, alloc: Global, disk: MemDisk, digest: Option<[u8; 32]>) -> Came {
    let (sink, say) = (out_of(rt, alloc, NEVER), say_of(rt, alloc));
    check_image(&place_in(alloc, false), disk, digest, sink, say)
}

#[test]
fn an_image_is_checked(rt: HostRuntime) {
    let alloc = rt.alloc();
    let came = checked(&rt, alloc, image_of(&rt, alloc, 7, TREE), None);
    assert!(&rt; came.status.code() == 0 && came.say.written().is_empty());
    let sink = came.out.into_sink();
    assert!(&rt;
        sink.written()
            .starts_with(b"sound: 1 folders, 2 files, 2 bytes, ")
    );
    let came = checked(&rt, alloc, image_of(&rt, alloc, 7, TREE), Some([0; 32]));
    assert!(&rt; came.status.code() == 1);
    let sink = came.out.into_sink();
    assert!(&rt; sink.written().ends_with(b"\ndigest differs\n"));
    let came = checked(&rt, alloc, zeros_of(&rt, alloc), None);
    let said =
        b"hbox: x.img: it is not an image, or not all of one; give the path of a complete image\n";
    expect(&rt, came, 7, b"not an image\n", said, "zeros");
}

#[test]
fn parameters_are_printed(rt: HostRuntime) {
    let alloc = rt.alloc();
    let (sink, say) = (out_of(&rt, alloc, NEVER), say_of(&rt, alloc));
    let came = print_info(
        &place_in(alloc, false),
        image_of(&rt, alloc, 0x1a, ""),
        sink,
        say,
    );
    let lines = b"version: 2\nslots: 64\nused: 0\nheight: 2\ndraw: sha256\nseed: \
        1a1a1a1a1a1a1a1a1a1a1a1a1a1a1a1a1a1a1a1a1a1a1a1a1a1a1a1a1a1a1a1a\n\
        folders: 0\nfiles: 0\nbytes: 0\n";
    expect(&rt, came, 0, lines, b"", "an empty image");
}

#[test]
fn slots_are_drawn(rt: HostRuntime) {
    let alloc = rt.alloc();
    let (sink, say) = (out_of(&rt, alloc, NEVER), say_of(&rt, alloc));
    let came = draw_map(
        &place_in(alloc, false),
        image_of(&rt, alloc, 7, ""),
        sink,
        say,
    );
    assert!(&rt; came.status.code() == 0 && came.say.written().is_empty());
    let sink = came.out.into_sink();
    assert!(&rt;
        sink.written().starts_with(b"hstore image, version 2, 64 slots, 0 used, height 2, sha256\n")
    );
}
