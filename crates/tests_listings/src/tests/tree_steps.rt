//! Pairs written by hand, and the lines of the steps that they make.

use dump_streams::{DumpStep, PairSteps, Taken, write_step};
use path_keys::{AttrName, Path, attr_key};
use script_lines::{MemSink, Sink};
use std::alloc::Global;
use std::process::Abort;
use store_base::{Key, Value};
use store_model::Version;
use tree_pairs::{attribute_value, directory_value, file_value, inline_value};

/// The path that a text spells.
fn path_of(rt: &impl Abort, text: &str) -> Path {
    Path::parse(text.as_bytes()).ok().expect(rt, "a path")
}

/// The key of a block of a path.
fn key_of(rt: &impl Abort, text: &str, block: u32) -> Key {
    path_of(rt, text).key(block)
}

/// The key of the attribute `k` of a path.
fn name_of(rt: &impl Abort, text: &str) -> Key {
    let name = AttrName::parse(b"k").expect(rt, "a name");
    attr_key(&path_of(rt, text), &name).expect(rt, "a key")
}

/// The lines of the steps that these pairs make, `refused` where one is refused, and `cut` where they end in a file.
fn lines_of(rt: &impl Abort, alloc: Global, version: Version, pairs: Vec<(Key, Value)>) -> MemSink {
    let mut sink = MemSink::new(alloc, 16_384, Vec::new(alloc)).expect(rt, "memory");
    let mut steps = PairSteps::new(version);
    let mut step = DumpStep::new();
    for pair in pairs {
        match steps.take(pair, &mut step) {
            Taken::Step => write_step(&mut sink, &step).expect(rt, "room"),
            Taken::More => {}
            Taken::Refused => sink.put(b"refused\n").expect(rt, "room"),
        }
    }
    if !steps.is_whole() {
        sink.put(b"cut\n").expect(rt, "room");
    }
    sink
}

/// Adds a pair.
fn add(rt: &impl Abort, pairs: &mut Vec<(Key, Value)>, key: Key, value: Value) {
    pairs.push((key, value)).expect(rt, "memory");
}

#[test]
fn a_tree_of_version_two(rt: HostRuntime) {
    let alloc = rt.alloc();
    let mut pairs = Vec::new(alloc);
    add(&rt, &mut pairs, key_of(&rt, "/a", 0), directory_value());
    add(&rt, &mut pairs, name_of(&rt, "/a"), attribute_value(b"abc"));
    add(
        &rt,
        &mut pairs,
        key_of(&rt, "/a/b", 0),
        inline_value(&[0, 255]),
    );
    add(&rt, &mut pairs, key_of(&rt, "/c", 0), file_value(2500));
    for block in 1..10 {
        add(
            &rt,
            &mut pairs,
            key_of(&rt, "/c", block),
            Value::new(&[b'c'; 256]),
        );
    }
    add(
        &rt,
        &mut pairs,
        key_of(&rt, "/c", 10),
        Value::new(&[b'c'; 196]),
    );
    let mut text = b"make /a\nset /a k 616263\nwrite /a/b 0 00ff\nwrite /c 0 "
        .to_vec(alloc)
        .expect(&rt, "memory");
    for _ in 0..2048 {
        text.extend_from_slice(b"63").expect(&rt, "memory");
    }
    text.extend_from_slice(b"\nwrite /c 2048 ")
        .expect(&rt, "memory");
    for _ in 0..452 {
        text.extend_from_slice(b"63").expect(&rt, "memory");
    }
    text.extend_from_slice(b"\n").expect(&rt, "memory");
    assert!(rt; lines_of(&rt, alloc, Version::Two, pairs).written() == text.as_slice());
}

#[test]
fn files_of_version_one(rt: HostRuntime) {
    let mut pairs = Vec::new(rt.alloc());
    add(&rt, &mut pairs, key_of(&rt, "/f", 0), file_value(3));
    add(&rt, &mut pairs, key_of(&rt, "/f", 1), Value::new(b"abc"));
    add(&rt, &mut pairs, key_of(&rt, "/g", 0), file_value(0));
    let sink = lines_of(&rt, rt.alloc(), Version::One, pairs);
    assert!(rt; sink.written() == b"write /f 0 616263\nwrite /g 0 -\n".as_slice());
}

#[test]
fn pairs_of_no_tree(rt: HostRuntime) {
    let mut pairs = Vec::new(rt.alloc());
    add(&rt, &mut pairs, name_of(&rt, "/a"), attribute_value(b"abc"));
    add(&rt, &mut pairs, key_of(&rt, "/b", 0), file_value(300));
    add(&rt, &mut pairs, key_of(&rt, "/b", 1), Value::new(b"short"));
    let sink = lines_of(&rt, rt.alloc(), Version::Two, pairs);
    assert!(rt; sink.written() == b"refused\nrefused\ncut\n".as_slice());
}
