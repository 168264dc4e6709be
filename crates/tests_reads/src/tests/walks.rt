//! Walks over the pairs of a store, from the first pair on and from a key on, and a walk of which one pull fails, since
//! the disk does: it then stands where it stood.

use super::support::{FailingStore, failing_disk, image_of, params_of};
use disk_model::MemDisk;
use std::alloc::{AllocError, Global};
use std::process::Abort;
use store_base::{DrawKind, Key, Params, Value};
use store_core::{PairsWalk, Store};
use tests_tools::{NEVER, path_of};

/// More calls of a disk than any walk here makes.
const MOST_CALLS: u64 = 400;

/// More pulls than any walk here takes.
const MOST_PULLS: u32 = 64;

/// The pairs of a directory, a file of two bytes and a directory under version 1, as FORMAT has them: for each its
/// path, its block number and its value.
static FEW: [(&str, u32, &str); 4] = [
    ("/a", 0, "\x01"),
    ("/f", 0, "\x02\0\0\0\x02"),
    ("/f", 1, "AB"),
    ("/z", 0, "\x01"),
];

/// What a walk gave.
#[derive(Drop)]
struct Walked {
    pairs: Vec<(Key, Value)>,
    /// How many pairs had come where a pull failed the last time, if one did.
    failed: Option<usize>,
}

/// Pulls the pairs of a walk to its end. A pull that fails is made again.
fn pull_all(
    store: &mut FailingStore,
    walk: &mut PairsWalk,
    walked: &mut Walked,
) -> Result<(), AllocError> {
    for _ in 0..MOST_PULLS {
        match store.next_of(walk) {
            Ok(Some(pair)) => walked.pairs.push(pair)?,
            Ok(None) => return Ok(()),
            Err(_) => walked.failed = Some(walked.pairs.len()),
        }
    }
    Ok(())
}

/// Takes all pairs of a store.
fn walk_all(store: &mut FailingStore, walked: &mut Walked) -> Result<(), AllocError> {
    let mut walk = store.walk();
    pull_all(store, &mut walk, walked)
}

/// Takes the pairs of a store from a key on; none where the walk does not start.
fn walk_behind(store: &mut FailingStore, key: &Key, walked: &mut Walked) -> Result<(), AllocError> {
    match store.walk_from(key) {
        Ok(mut walk) => pull_all(store, &mut walk, walked),
        Err(_) => Ok(()),
    }
}

/// What a walk over the image gives, from this key on or from the first pair on, where this call of the disk fails;
/// nothing where the image is not opened.
fn walked_over(
    rt: &impl Abort,
    alloc: Global,
    image: &MemDisk,
    call: u64,
    from: Option<&Key>,
) -> Option<Walked> {
    let mut walked = Walked {
        pairs: Vec::new(alloc),
        failed: None,
    };
    match Store::attach(alloc, failing_disk(rt, alloc, image, call)) {
        Ok(mut store) => {
            let took = match from {
                Some(key) => walk_behind(&mut store, key, &mut walked),
                None => walk_all(&mut store, &mut walked),
            };
            let _ = store.into_disk();
            took.expect(rt, "memory");
            Some(walked)
        }
        Err((_, disk)) => {
            let _ = disk.into_disk();
            None
        }
    }
}

/// Looks whether these pairs come from this key on, or from the first pair on, and no others.
fn expect_pairs(
    rt: &impl Abort,
    alloc: Global,
    image: &MemDisk,
    from: Option<&Key>,
    wanted: &[(&str, u32, &str)],
) {
    let walked = walked_over(rt, alloc, image, NEVER, from).expect(rt, "a store");
    assert!(rt; walked.failed == None && walked.pairs.len() == wanted.len());
    for (pair, (path, block, value)) in walked.pairs.iter().zip(wanted) {
        let is_wanted = pair.0 == path_of(path).key(*block)
            && pair.1.as_slice() == value.as_bytes();
        assert!(rt; is_wanted, "{path} {block}");
    }
}

#[test]
fn pairs_come_by_rising_key(rt: HostRuntime) {
    let script = "make /z\nwrite /f 0 4142\nmake /a\n";
    let params = Params::new(4, 1, DrawKind::Ruler, [0; 32]).expect(&rt, "parameters");
    let image = image_of(&rt, rt.alloc(), &params, script);
    expect_pairs(&rt, rt.alloc(), &image, None, &FEW);
    // The keys of a pair, between two pairs, and behind all.
    for (path, block, first) in [("/f", 1, 2), ("/b", 0, 1), ("/", 0, 0), ("/z", 1, 4)] {
        let key = path_of(path).key(block);
        expect_pairs(&rt, rt.alloc(), &image, Some(&key), &FEW[first..]);
    }
}

/// Makes 26 directories: their pairs fill more than two pages, in two groups.
static LETTERS: &str =
    "make /A\nmake /B\nmake /C\nmake /D\nmake /E\nmake /F\nmake /G\nmake /H\nmake /I\nmake /J\n\
    make /K\nmake /L\nmake /M\nmake /N\nmake /O\nmake /P\nmake /Q\nmake /R\nmake /S\nmake /T\n\
    make /U\nmake /V\nmake /W\nmake /X\nmake /Y\nmake /Z\n";

/// Looks whether the directories came in their order, each once, whichever pull failed.
fn expect_letters(rt: &impl Abort, walked: &Walked) {
    assert!(rt; walked.pairs.len() == 26);
    for (pair, letter) in walked.pairs.iter().zip(b'A'..=b'Z') {
        assert!(rt; pair.0.as_bytes()[0] == letter);
    }
}

#[test]
fn a_pull_that_fails_leaves_the_walk(rt: HostRuntime) {
    let image = image_of(&rt, rt.alloc(), &params_of(&rt, 16), LETTERS);
    let mut in_the_middle = 0u32;
    for call in 0..MOST_CALLS {
        if let Some(walked) = walked_over(&rt, rt.alloc(), &image, call, None) {
            expect_letters(&rt, &walked);
            let is_in_the_middle = matches!(walked.failed, Some(1..=25));
            in_the_middle = in_the_middle.saturating_add(u32::from(is_in_the_middle));
            if walked.failed == None {
                break;
            }
        }
    }
    assert!(&rt; in_the_middle >= 2, "{in_the_middle} pulls");
}
