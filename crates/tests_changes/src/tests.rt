//! The words for people that change an image: each in one commit, or refused at a path, with nothing changed.

use disk_model::MemDisk;
use dump_streams::ListingStream;
use gate_journal::Journal;
use image_changes::{
    Outcome, Removal, make_directories, make_with_parents, move_to, remove, set_attribute,
    unset_attribute,
};
use image_puts::put;
use path_keys::{AttrName, Path};
use std::alloc::Global;
use std::process::Abort;
use store_base::{DrawKind, Params, image_len};
use store_core::Store;
use store_model::{Refusal, Version};
use tests_tools::{command_of, fields, path_of, source_of, zero_disk};

/// The slots of the image on which they are carried out.
const SLOTS: u32 = 32;

/// What stands in it.
const BEFORE: &str =
    "make /d\nmake /d/e\nwrite /d/f 0 0102030405\nset /d/f k aa\nset /d k bb\nwrite /g 0 01\n";

/// What is put: the root, a directory with an attribute, a directory and two files of it.
const SOURCE: &str = "make /e\nset /e k cc\nwrite /f 0 09\nmake /n\nset /n k dd\nwrite /n/h 0 07\n";

/// Words, each with its paths, the path at which it is refused, if it is, and why, and what it leaves of the image.
const WORDS: &str = "\
    rm|/g /d/f|||make /d\nmake /d/e\nset /d k bb\n#\
    rm|/g /d|/d|notempty|#\
    rm|/g /x|/x|missing|#\
    rm -f|/g /x|||make /d\nmake /d/e\nwrite /d/f 0 0102030405\nset /d/f k aa\nset /d k bb\n#\
    rm -r|/d/e /d /d/f|||write /g 0 01\n#\
    mkdir|/h /h/i|||make /d\nmake /d/e\nwrite /d/f 0 0102030405\nset /d/f k aa\nset /d k bb\nwrite /g 0 01\n\
        make /h\nmake /h/i\n#\
    mkdir|/h /d|/d|exists|#\
    mkdir -p|/d /h/i|||make /d\nmake /d/e\nwrite /d/f 0 0102030405\nset /d/f k aa\nset /d k bb\nwrite /g 0 01\n\
        make /h\nmake /h/i\n#\
    mkdir -p|/h /g/i|/g|exists|#\
    mv|/d/f /h|||make /d\nmake /d/e\nwrite /h 0 0102030405\nset /h k aa\nset /d k bb\nwrite /g 0 01\n#\
    mv|/d/f /g|/g|exists|#\
    mv|/d /d/e/i|/d/e/i|inside|#\
    mv -f|/d/f /g|||make /d\nmake /d/e\nwrite /g 0 0102030405\nset /g k aa\nset /d k bb\n#\
    mv -f|/g /d/e|/d/e|exists|#\
    set|/g|||make /d\nmake /d/e\nwrite /d/f 0 0102030405\nset /d/f k aa\nset /d k bb\nwrite /g 0 01\nset /g k ee\n#\
    unset|/d|||make /d\nmake /d/e\nwrite /d/f 0 0102030405\nset /d/f k aa\nwrite /g 0 01\n#\
    unset|/g|/g|noattr|#\
    put|/d|||make /d\nmake /d/e\nwrite /d/f 0 09\nset /d k bb\nmake /d/n\nset /d/n k dd\nwrite /d/n/h 0 07\n\
        write /g 0 01\n#\
    put -n|/d|/d/f|exists|#\
    put|/g|/g|exists|#\
    put|/i/j|||make /d\nmake /d/e\nwrite /d/f 0 0102030405\nset /d/f k aa\nset /d k bb\nwrite /g 0 01\n\
        make /i\nmake /i/j\nmake /i/j/e\nwrite /i/j/f 0 09\nmake /i/j/n\nset /i/j/n k dd\nwrite /i/j/n/h 0 07";

/// A store that holds the tree that these commands make, one in a line.
fn store_of(rt: &impl Abort, alloc: Global, script: &str) -> Store<MemDisk> {
    let params = Params::new(SLOTS, 2, DrawKind::Ruler, [0; 32]).expect(rt, "parameters");
    let params = params.with_version(Version::Two);
    let mut disk = zero_disk(alloc, image_len(SLOTS)).expect(rt, "memory");
    Journal::format(&mut disk, &params).expect(rt, "an image");
    let mut store = Store::attach(alloc, disk).ok().expect(rt, "a store");
    for line in script.lines() {
        let _ = store.apply(&command_of(line)).expect(rt, "a reply");
    }
    store
}

/// The paths that a text spells, parted by blanks.
fn paths_of(rt: &impl Abort, alloc: Global, text: &str) -> Vec<Path> {
    let mut paths = Vec::new(alloc);
    for word in text.split_whitespace() {
        paths.push(path_of(word)).expect(rt, "memory");
    }
    paths
}

/// How a put of the source to this path ends.
fn put_so(
    rt: &impl Abort,
    alloc: Global,
    store: &mut Store<MemDisk>,
    to: &Path,
    replaces: bool,
) -> Outcome {
    let text = source_of(alloc, SOURCE.as_bytes(), &[], &[]).expect(rt, "memory");
    let source = ListingStream::new(alloc, text, Version::Two)
        .ok()
        .expect(rt, "memory");
    let fresh = paths_of(rt, alloc, "/n");
    let (_, ended) = put(store, source, to, fresh, replaces);
    ended.expect(rt, "an answer").expect(rt, "a source")
}

/// How a word ends on a store.
fn ended_so(
    rt: &impl Abort,
    alloc: Global,
    store: &mut Store<MemDisk>,
    word: &str,
    text: &str,
) -> Outcome {
    let paths = paths_of(rt, alloc, text);
    let first = *paths.first().expect(rt, "a path");
    let last = *paths.last().expect(rt, "a path");
    let name = AttrName::parse(b"k").expect(rt, "a name");
    let plain = Removal {
        recursive: false,
        forced: false,
    };
    let ended = match word {
        "rm" => remove(store, paths, plain),
        "rm -f" => remove(
            store,
            paths,
            Removal {
                forced: true,
                ..plain
            },
        ),
        "rm -r" => remove(
            store,
            paths,
            Removal {
                recursive: true,
                ..plain
            },
        ),
        "mkdir" => make_directories(store, paths),
        "mkdir -p" => make_with_parents(store, paths),
        "mv" => move_to(store, &first, &last, false),
        "mv -f" => move_to(store, &first, &last, true),
        "set" => set_attribute(store, &first, &name, &[0xee]),
        "unset" => unset_attribute(store, &first, &name),
        "put" => return put_so(rt, alloc, store, &first, true),
        _ => return put_so(rt, alloc, store, &first, false),
    };
    ended.expect(rt, "an answer")
}

/// The word for a refusal.
fn word_of(reason: Refusal) -> &'static str {
    match reason {
        Refusal::NotEmpty => "notempty",
        Refusal::Missing => "missing",
        Refusal::Exists => "exists",
        Refusal::Inside => "inside",
        Refusal::Kind => "kind",
        Refusal::NoAttr => "noattr",
        _ => "another",
    }
}

/// Whether a word ends so: done, or refused at this path, for the reason of this word.
fn is_told(outcome: Outcome, path: &str, reason: &str) -> bool {
    match outcome {
        Outcome::Done => path.is_empty(),
        Outcome::Refused {
            path: at,
            reason: why,
        } => !path.is_empty() && at == path_of(path) && word_of(why) == reason,
        Outcome::Full { need: _, slots: _ } => false,
    }
}

#[test]
fn words_change_an_image_or_are_refused_at_a_path(rt: HostRuntime) {
    let alloc = rt.alloc();
    for row in WORDS.split('#') {
        let [word, paths, path, reason, after, _, _, _] = fields(row);
        let mut store = store_of(&rt, alloc, BEFORE);
        let outcome = ended_so(&rt, alloc, &mut store, word.trim(), paths);
        assert!(&rt; is_told(outcome, path, reason), "{row}");
        let script = if path.is_empty() { after } else { BEFORE };
        let left = store.into_disk();
        let wanted = store_of(&rt, alloc, script).into_disk();
        assert!(&rt; left.bytes() == wanted.bytes(), "{row}");
    }
}
