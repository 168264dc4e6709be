//! What the words of `hbox` ask for that change an image.

use super::words::words_of;
use box_words::{
    Asked, Call, Deed, ListFault, Named, NewValue, Origin, listed_names, read, value_of,
};
use std::alloc::Global;
use std::process::Abort;

/// What a call asks for, in words: its texts one after another, and whether its options are given.
fn told(alloc: Global, call: &Call<'_>) -> Option<String> {
    match call {
        Call::Get { path, file, .. } => get_told(alloc, path, *file),
        Call::Rm {
            paths,
            list,
            is_below,
            is_forced,
            ..
        } => rm_told(alloc, paths, *list, [*is_below, *is_forced]),
        Call::Mkdir {
            paths,
            has_parents,
            ..
        } => mkdir_told(alloc, paths, *has_parents),
        Call::Attr { path, deed, .. } => format!(in alloc; "attr {path} {}", deed_text(deed)).ok(),
        call => others_told(alloc, call),
    }
}

/// What a call asks for that moves.
fn others_told(alloc: Global, call: &Call<'_>) -> Option<String> {
    match call {
        Call::Mv {
            from,
            to,
            is_forced,
            ..
        } => format!(in alloc; "mv {from} {to} {is_forced}").ok(),
        _ => None,
    }
}

/// Where bytes come from.
fn origin_text(origin: Option<Origin<'_>>) -> &str {
    match origin {
        Some(Origin::Input) => "<-",
        Some(Origin::Host(path)) => path,
        None => "none",
    }
}

/// What `get` asks for.
fn get_told(alloc: Global, path: &Named<'_>, file: Option<&str>) -> Option<String> {
    let (kind, path) = match path {
        Named::Word(path) => ("get", *path),
        Named::List(list) => ("get of", origin_text(Some(*list))),
    };
    let file = file.unwrap_or("none");
    format!(in alloc; "{kind} {path} {file}").ok()
}

/// What `rm` asks for.
fn rm_told(
    alloc: Global,
    paths: &[&str],
    list: Option<Origin<'_>>,
    options: [bool; 2],
) -> Option<String> {
    let count = paths.len();
    let last = paths.last().copied().unwrap_or("none");
    let list = origin_text(list);
    let [is_below, is_forced] = options;
    format!(in alloc; "rm {count} {last} {list} {is_below} {is_forced}").ok()
}

/// What `mkdir` asks for.
fn mkdir_told(alloc: Global, paths: &[&str], has_parents: bool) -> Option<String> {
    let count = paths.len();
    let last = paths.last().copied().unwrap_or("none");
    format!(in alloc; "mkdir {count} {last} {has_parents}").ok()
}

/// The word of a deed.
fn deed_text(deed: &Deed) -> &'static str {
    match deed {
        Deed::List => "lists",
        Deed::Print(_, false) => "prints",
        Deed::Print(_, true) => "prints digits",
        Deed::Set(_, NewValue::Bytes(bytes)) if bytes.as_slice() == b"\xaB".as_slice() => "sets AB",
        Deed::Set(_, NewValue::Bytes(_)) => "sets",
        Deed::Set(_, NewValue::Input(false)) => "sets what comes",
        Deed::Set(_, NewValue::Input(true)) => "sets what digits come",
        Deed::Remove(_) => "removes",
    }
}

/// Rows parted by `#`: words, and what they ask for.
const ASKED: &str = "get x.img a b|get a b#\
    get x.img --paths0-from - b|get of <- b#\
    get --paths0-from l x.img|get of l none#\
    rm x.img a b -r|rm 2 b none true false#\
    rm -f x.img --paths0-from l|rm 0 none l false true#\
    mv x.img a b|mv a b false#\
    mv x.img a -f b|mv a b true#\
    mkdir x.img a b/c -p|mkdir 2 b/c true#\
    mkdir x.img a|mkdir 1 a false#\
    attr x.img a|attr a lists#\
    attr x.img a b|attr a prints#\
    attr x.img a b --hex|attr a prints digits#\
    attr x.img a b c|attr a sets#\
    attr x.img a b --hex aB|attr a sets AB#\
    attr x.img a b -|attr a sets what comes#\
    attr x.img a b - --hex|attr a sets what digits come#\
    attr x.img a -d b|attr a removes";

/// Looks whether the words of a row ask for what it says.
fn expect_asked(rt: &impl Abort, alloc: Global, row: &str) {
    let (line, wanted) = row.split_once('|').expect(rt, "two fields");
    let words = words_of(rt, alloc, line);
    match read(alloc, words.as_slice()) {
        Ok(Asked::Call(call, _)) => {
            let came = told(alloc, &call).expect(rt, "a call that changes");
            assert!(rt; came.as_str() == wanted, "{row}");
        }
        _ => panic!(rt; "nothing is asked for: {row}"),
    }
}

#[test]
fn what_changes_an_image_is_read(rt: HostRuntime) {
    for row in ASKED.split('#') {
        expect_asked(&rt, rt.alloc(), row);
    }
}

#[test]
fn names_are_ended_by_zero_bytes(rt: HostRuntime) {
    let alloc = rt.alloc();
    let names = listed_names(alloc, b"a\nb\0\0-\0c")
        .ok()
        .expect(&rt, "names");
    assert!(rt; names.as_slice() == ["a\nb", "-", "c"].as_slice());
    assert!(rt; listed_names(alloc, b"a\0\xff").err() == Some(ListFault::NotUtf8));
    let none = listed_names(alloc, b"").ok().expect(&rt, "names");
    assert!(rt; none.is_empty());
}

#[test]
fn values_have_255_bytes_at_most(rt: HostRuntime) {
    let digits = [b'0'; 512];
    assert!(rt; value_of(&digits[..255], false).is_some());
    assert!(rt; value_of(&digits[..256], false).is_none());
    assert!(rt; value_of(&digits[..510], true).is_some());
    assert!(rt; value_of(&digits, true).is_none());
    assert!(rt; value_of(b"0g", true).is_none());
    assert!(rt; value_of(b"", true).is_some());
}
