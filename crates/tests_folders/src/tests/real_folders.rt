//! Real folders, where no call of `hbox` tells: files that are opened in turns, links, and a file that the program
//! itself works on. All else is tried by `.ci/box`.

use super::support::Silent;
use host_files::{FileId, Links, StdFolder, Wanted};
use host_folders::{Folder, FolderFault, find_all, pack_folder};
use std::fs::{self, Files};
use std::os::unix::fs::symlink;
use std::process::Abort;
use tests_tools::{number, path_of, sink_of};

/// No attributes.
const NONE: Wanted = Wanted {
    mode: false,
    mtime: false,
    links: Links::Data,
    skips: false,
};

/// Links, and no other attribute.
const LINKS: Wanted = Wanted {
    links: Links::Made,
    ..NONE
};

/// All but links.
const NO_LINKS: Wanted = Wanted {
    links: Links::LeftOut,
    ..NONE
};

/// Links to a folder, to itself, to nowhere and out of the folder in which they stand.
static TARGETS: [(&str, &str); 4] = [
    ("links_read/d", "s"),
    ("links_read/l", "l"),
    ("links_read/n", "nowhere/at/all"),
    ("links_read/o", "../.."),
];

/// What is read of their folder, with the links and without.
static WITH_LINKS: &[u8] = b"write /d 0 -\nset /d link 73\nwrite /l 0 -\nset /l link 6c\n\
    write /n 0 -\nset /n link 6e6f77686572652f61742f616c6c\nwrite /o 0 -\nset /o link 2e2e2f2e2e\n\
    make /s\nwrite /s/f 0 61\n";

static WITHOUT_LINKS: &[u8] = b"make /s\nwrite /s/f 0 61\n";

static WITHOUT_FILE: &[u8] = b"make /s\n";

/// Makes a folder with a file of so many `a`, and one with `bc`.
fn make_files(rt: &(impl Abort + Files)) {
    fs::create_dir(rt, "files_read").expect(rt, "a folder");
    fs::write(rt, "files_read/a", &[b'a'; 70_000]).expect(rt, "a file");
    fs::write(rt, "files_read/b", b"bc").expect(rt, "a file");
}

/// Whether the file that is open gives these pieces, one after another, each with a dot for each byte that it lacks.
fn gives(folder: &mut StdFolder<Silent>, pieces: &str) -> bool {
    for piece in pieces.split('|') {
        let mut buffer = [b'.'; 3];
        if folder.read(&mut buffer).is_err() || buffer.as_slice() != piece.as_bytes() {
            return false;
        }
    }
    true
}

/// Whether no byte can be read.
fn is_unread(folder: &mut StdFolder<Silent>) -> bool {
    folder.read(&mut [0; 3]) == Err(FolderFault::Unreadable)
}

/// Whether the file at a path is opened, has so many bytes, and begins with these pieces.
fn opens(folder: &mut StdFolder<Silent>, at: &str, len: u64, pieces: &str) -> bool {
    let len = u32::try_from(len).unwrap_or(u32::MAX);
    folder.open(&path_of(at)) == Ok(len) && gives(folder, pieces)
}

/// Looks whether files are read in turns; where there is none to be opened, no file is open then.
fn expect_turns(rt: &impl Abort, folder: &mut StdFolder<Silent>) {
    assert!(rt; is_unread(folder), "a file is open");
    for row in "/a|70000|aaa#/b|2|bc.|...#/a|70000|aaa".split('#') {
        let (at, rest) = row.split_once('|').unwrap_or((row, ""));
        let (len, pieces) = rest.split_once('|').unwrap_or((rest, ""));
        assert!(rt; opens(folder, at, number(len), pieces), "{row}");
    }
    let opened = folder.open(&path_of("/c"));
    assert!(rt; opened == Err(FolderFault::Unreadable) && is_unread(folder));
}

/// Looks whether a file gives no byte that came behind it once it was open.
fn expect_first_bytes(rt: &(impl Abort + Files), folder: &mut StdFolder<Silent>) {
    assert!(rt; folder.open(&path_of("/b")) == Ok(2));
    fs::write(rt, "files_read/b", b"bcd").expect(rt, "a file");
    assert!(rt; gives(folder, "bc.|..."), "it gave more");
}

#[test]
fn files_are_read_one_after_another(rt: HostRuntime) {
    make_files(&rt);
    let text = String::from_str(rt.alloc(), "files_read").expect(&rt, "memory");
    let own = Vec::new(rt.alloc());
    let mut folder = StdFolder::new(rt, text, NONE, own, Silent);
    expect_turns(&rt, &mut folder);
    expect_first_bytes(&rt, &mut folder);
    fs::remove_dir_all(&rt, "files_read").expect(&rt, "a folder");
}

/// Makes a folder with those links, one whose target is too long, and a folder with a file.
fn make_links(rt: &(impl Abort + Files)) {
    fs::create_dir(rt, "links_read").expect(rt, "a folder");
    fs::create_dir(rt, "links_read/s").expect(rt, "a folder");
    fs::write(rt, "links_read/s/f", b"a").expect(rt, "a file");
    for (path, target) in &TARGETS {
        symlink(rt, *target, *path).expect(rt, "a link");
    }
    let long = [b'a'; 256];
    let target = str::from_utf8(&long).unwrap_or_default();
    symlink(rt, target, "links_read/x").expect(rt, "a link");
}

/// Whether the lines of that folder are these, where these files are the program's own; and whether so much is left
/// out, so many of its own files, and so many links that are wanted to be.
fn are_read(
    rt: &impl Abort,
    host: HostRuntime,
    wanted: Wanted,
    own: Vec<FileId>,
    left_out: [u64; 3],
    lines: &[u8],
) -> bool {
    let text = String::from_str(host.alloc(), "links_read").expect(rt, "memory");
    let mut folder = StdFolder::new(host, text, wanted, own, Silent);
    let found = find_all(host.alloc(), &mut folder)
        .ok()
        .expect(rt, "a folder");
    let sink = sink_of(host.alloc(), &[]).expect(rt, "memory");
    let (stream, sink, ended) = pack_folder(folder, found, sink);
    let folder = stream.into_folder();
    let out = [
        folder.left_out(),
        folder.own_left_out(),
        folder.links_left_out(),
    ];
    ended.is_ok() & (sink.written() == lines) & (out == left_out)
}

#[test]
fn links_are_read_and_not_followed(rt: HostRuntime) {
    make_links(&rt);
    let none = Vec::new(rt.alloc());
    assert!(rt;
        are_read(&rt, rt, LINKS, none, [1, 0, 0], WITH_LINKS),
        "links"
    );
    let none = Vec::new(rt.alloc());
    assert!(rt;
        are_read(&rt, rt, NONE, none, [5, 0, 0], WITHOUT_LINKS),
        "no links"
    );
    let file = fs::metadata(&rt, "links_read/s/f").expect(&rt, "a file");
    let own = [FileId::of(&file)].to_vec(rt.alloc()).expect(&rt, "memory");
    assert!(rt;
        are_read(&rt, rt, NO_LINKS, own, [0, 1, 5], WITHOUT_FILE),
        "an own file"
    );
    fs::remove_dir_all(&rt, "links_read").expect(&rt, "a folder");
}
