//! `rm`, `mkdir`, `mv` and `attr`.

use super::support::{TREE, image_of, image_with, out_of, place_in, say_of};
use box_changes::{
    Changed, Removal, Value, list_attributes, make_folders, move_path, print_attribute,
    remove_paths, set_attribute, unset_attribute,
};
use disk_model::Disk;
use path_keys::{AttrName, Path};
use script_lines::MemSink;
use std::alloc::Global;
use std::process::Abort;
use store_base::{Bytes, DrawKind};
use store_core::Store;
use tests_tools::{NEVER, disk_of, fields, number, path_of};

/// The changes: the word, its options, its paths or other words, the status, the commands that lead to the same image,
/// and what is said.
static CHANGES: &str = "\
    rm||/l|0|remove /l|#\
    rm||/d|17||hbox: x.img: /d: the folder is not empty; -r removes it with all that is in it\n#\
    rm|r|/d /d/a.txt|0|prune /d|#\
    rm||/l /e|17||hbox: x.img: /e: no such file or folder; hbox ls -R x.img lists all that is there\n#\
    rm|f|/e /l|0|remove /l|#\
    rm|rf|/|17||hbox: x.img: /: it is the root of the image; give a path below it\n#\
    mkdir||/e /e/f|0|make /e\nmake /e/f|#\
    mkdir||/d|17||hbox: x.img: /d: it is there already; with -p a folder that is there stays\n#\
    mkdir||/e/f|17||hbox: x.img: /e/f: there is no folder that it could be in; hbox mkdir -p x.img /e makes it\n#\
    mkdir|p|/d/e/f|0|make /d/e\nmake /d/e/f|#\
    mkdir|p|/l/f|17||hbox: x.img: /l: it is a file, where a folder has to be; hbox rm x.img /l removes it\n#\
    mv||/l /d/m|0|rename /l /d/m|#\
    mv||/l /d/a.txt|17||hbox: x.img: /d/a.txt: it is there already; -f replaces a file, \
        and into a folder it goes by its path there\n#\
    mv|f|/l /d/a.txt|0|remove /d/a.txt\nrename /l /d/a.txt|#\
    mv||/d /d/e|17||hbox: x.img: /d/e: it is inside of the folder that is to be moved there; \
        give a path outside of it\n#\
    mv||/l /e/f|17||hbox: x.img: /e/f: there is no folder that it could be in; hbox mkdir -p x.img /e makes it\n#\
    attr||/d a hi|0|set /d a 6869|#\
    attr||/e a hi|17||hbox: x.img: /e: no such file or folder; hbox ls -R x.img lists all that is there\n#\
    attr|d|/l link|0|unset /l link|#\
    attr|d|/l note|17||hbox: x.img: /l: it has no such attribute; hbox attr x.img /l lists those that it has\n";

/// The paths that a text spells, parted by blanks.
fn paths_of(rt: &impl Abort, alloc: Global, text: &str) -> Vec<Path> {
    let mut paths = Vec::new(alloc);
    for word in text.split_whitespace() {
        paths.push(path_of(word)).expect(rt, "memory");
    }
    paths
}

/// The name that a text is.
fn name_of(rt: &impl Abort, text: &str) -> AttrName {
    AttrName::parse(text.as_bytes()).expect(rt, "a name")
}

/// Changes the attributes of a path.
fn attribute<D: Disk>(
    rt: &impl Abort,
    alloc: Global,
    options: &str,
    words: &str,
    disk: D,
) -> Changed<D, MemSink> {
    let mut words = words.split_whitespace();
    let path = path_of(words.next().unwrap_or("/"));
    let name = name_of(rt, words.next().unwrap_or("a"));
    let (place, say) = (place_in(alloc, false), say_of(rt, alloc));
    if options == "d" {
        return unset_attribute(&place, disk, &path, &name, say);
    }
    let text = words.next().unwrap_or("").as_bytes();
    let value = if text.len() <= Bytes::MAX_LEN {
        Bytes::new(text)
    } else {
        Bytes::new(b"")
    };
    set_attribute(&place, disk, &path, &name, &value, say)
}

/// Makes the change of a row in an image.
fn change<D: Disk>(rt: &impl Abort, alloc: Global, row: &str, disk: D) -> Changed<D, MemSink> {
    let [word, options, words, ..] = fields(row);
    let (place, say) = (place_in(alloc, false), say_of(rt, alloc));
    let paths = paths_of(rt, alloc, words);
    match word {
        "rm" => {
            let removal = Removal {
                recursive: options.contains('r'),
                forced: options.contains('f'),
            };
            remove_paths(&place, disk, paths, removal, say)
        }
        "mkdir" => make_folders(&place, disk, paths, options == "p", say),
        "mv" => {
            let root = Path::root();
            let from = paths.first().unwrap_or(&root);
            let to = paths.last().unwrap_or(&root);
            move_path(&place, disk, from, to, options == "f", say)
        }
        _ => attribute(rt, alloc, options, words, disk),
    }
}

#[test]
fn images_are_changed(rt: HostRuntime) {
    let alloc = rt.alloc();
    for row in CHANGES.split('#') {
        let [_, _, _, status, script, said, ..] = fields(row);
        let script = format!(in alloc; "{TREE}\n{script}").expect(&rt, "memory");
        let wanted = image_of(&rt, alloc, 7, script.as_str());
        let came = change(&rt, alloc, row, image_of(&rt, alloc, 7, TREE));
        assert!(&rt; u64::from(came.status.code()) == number(status), "{row}");
        assert!(&rt; came.say.written() == said.as_bytes(), "{row}");
        assert!(&rt; came.disk.bytes() == wanted.bytes(), "{row}");
    }
}

#[test]
fn a_change_without_room_is_told(rt: HostRuntime) {
    let alloc = rt.alloc();
    // A page has ten keys.
    let paths = paths_of(&rt, alloc, "/a /b /c /d /e /f /g /h /i /j /k");
    let disk = image_with(&rt, alloc, 1, DrawKind::Ruler, 7);
    let before = disk.bytes().to_vec(alloc).expect(&rt, "memory");
    let came = make_folders(
        &place_in(alloc, true),
        disk,
        paths,
        false,
        say_of(&rt, alloc),
    );
    assert!(&rt; came.status.code() == 16);
    let said =
        b"hbox: x.img: needs 2 slots, has 1, so nothing was changed; hbox resize x.img 64 makes room\n";
    assert!(&rt; came.say.written() == said.as_slice());
    assert!(&rt; came.disk.bytes() == before.as_slice());
}

#[test]
fn a_change_is_summed_up(rt: HostRuntime) {
    let alloc = rt.alloc();
    let disk = image_of(&rt, alloc, 7, TREE);
    let paths = paths_of(&rt, alloc, "/l");
    let removal = Removal {
        recursive: false,
        forced: false,
    };
    let came = remove_paths(
        &place_in(alloc, true),
        disk,
        paths,
        removal,
        say_of(&rt, alloc),
    );
    assert!(&rt; came.status.code() == 0);
    let said = b"hbox: x.img: 1 of 64 slots are in use\n";
    assert!(&rt; came.say.written() == said.as_slice());
}

/// How many calls of a disk pass from one that fails to the next that is tried.
const STRIDE: u64 = 7;

#[test]
fn a_disk_that_fails_holds_the_one_tree_or_the_other(rt: HostRuntime) {
    let alloc = rt.alloc();
    let old = image_of(&rt, alloc, 7, TREE);
    let new = image_of(&rt, alloc, 7, "make /d\nwrite /d/a.txt 0 6869");
    for turn in 0..1_000 {
        let call = STRIDE * turn;
        let disk = disk_of(alloc, old.bytes(), &[call], None).expect(&rt, "memory");
        let came = change(&rt, alloc, "rm||/l", disk);
        let code = came.status.code();
        if code == 0 {
            return;
        }
        assert!(&rt; code == 5, "{call}: {code}");
        assert!(&rt; !came.say.written().is_empty(), "{call}");
        let store = Store::attach(alloc, came.disk.into_disk())
            .ok()
            .expect(&rt, "a store");
        let left = store.into_disk();
        let is_one = left.bytes() == old.bytes() || left.bytes() == new.bytes();
        assert!(&rt; is_one, "{call}");
    }
    assert!(&rt; false);
}

#[test]
fn a_recovery_that_is_finished_is_told(rt: HostRuntime) {
    let alloc = rt.alloc();
    let old = image_of(&rt, alloc, 7, TREE);
    let said =
        b"hbox: x.img: a recovery was pending, and was finished\nhbox: x.img: /e: no such file";
    for turn in 0..1_000 {
        let call = STRIDE * turn;
        let disk = disk_of(alloc, old.bytes(), &[call], None).expect(&rt, "memory");
        let left = change(&rt, alloc, "rm||/l", disk);
        assert!(&rt;
            left.status.code() != 0,
            "no call leaves a recovery pending"
        );
        let came = change(&rt, alloc, "rm||/e", left.disk.into_disk());
        assert!(&rt; came.status.code() == 17);
        if came.say.written().starts_with(said) {
            return;
        }
    }
    assert!(&rt; false);
}

/// What is told of attributes: the name, or nothing for all, whether it is in digits, the path, the status, the text,
/// and what is said.
static TOLD: &str = "||/l|0|link\n|#link||/l|0|d/a.txt|#link|hex|/l|0|642f612e747874|#\
    note||/l|17||hbox: x.img: /l: it has no such attribute; hbox attr x.img /l lists those that it has\n#\
    ||/d|0||#||/e|17||hbox: x.img: /e: no such file or folder; hbox ls -R x.img lists all that is there\n#\
    ||/|17||hbox: x.img: /: it is the root of the image; give a path below it\n";

#[test]
fn attributes_are_told(rt: HostRuntime) {
    let alloc = rt.alloc();
    for row in TOLD.split('#') {
        let [name, form, path, status, text, said, ..] = fields(row);
        let disk = image_of(&rt, alloc, 7, TREE);
        let (out, say) = (out_of(&rt, alloc, NEVER), say_of(&rt, alloc));
        let (place, path) = (place_in(alloc, false), path_of(path));
        let came = if name.is_empty() {
            list_attributes(&place, disk, &path, out, say)
        } else {
            let value = Value {
                name: name_of(&rt, name),
                is_hex: form == "hex",
            };
            print_attribute(&place, disk, &path, &value, out, say)
        };
        assert!(&rt; u64::from(came.status.code()) == number(status), "{row}");
        assert!(&rt; came.out.into_sink().written() == text.as_bytes(), "{row}");
        assert!(&rt; came.say.written() == said.as_bytes(), "{row}");
    }
}
