//! What is listed of small trees, by lines that were written by hand, and a sink that fails.

use box_words::Spelling;
use dump_streams::{DrainFault, TakerFault};
use dump_views::Standing;
use entry_lines::{ListForm, write_entries};
use script_lines::MemSink;
use std::alloc::Global;
use std::process::Abort;
use tests_tools::{NEVER, listing_of, long_listing, path_of, sink_of};

/// A folder with a time, and in it a file that may be executed, a folder with a file, and a link; behind it a file
/// whose name is no spelling of a name of the host, and one whose name has a control byte.
const DUMP: &str =
    "make /a\nset /a mtime 31373936303430303030\nwrite /a/b%20c 0 00ff\nset /a/b%20c mode 78\n\
    make /a/d\nwrite /a/d/%1B 0 61\nwrite /a/l 0 -\nset /a/l link 642f0a\nset /a/l mode 78\nwrite /e%2e 0 -\n";

/// Rows parted by `#`: the letters of a form, a path, and the lines. `R`: all below; `l`: long; `0`: zero bytes, which
/// are `;` here; `t`: on a terminal; `e`: in the image's spelling.
const ROWS: &str =
    "|/|a/\ne%2e\n#R|/|a/\na/b c\na/d/\na/d/\x1b\na/l\ne%2e\n#Re|/a|b%20c\nd/\nd/%1B\nl\n#\
    t0|/a/d|\\x1B;#|/a/d/%1B|\x1b\n#R|/a/b%20c|b c\n#|/x|#\
    lt|/a|x        2 -                    b c\nd        - -                    d/\n\
    l        0 -                    l -> d/\\x0A\n#\
    l|/|d        - 2026-11-30T12:00:00Z a/\nf        0 -                    e%2e\n";

/// Rows parted by `#`: what `mtime` says, in hexadecimal digits, and the time. It says when the year 9999 ends, a
/// second later, a number with a zero before it, a second before 1970, and when 1970 begins.
const TIMES: &str =
    "323533343032333030373939|9999-12-31T23:59:59Z#323533343032333030383030|-                   #\
    3031|-                   #2d31|-                   #30|1970-01-01T00:00:00Z";

/// The form of these letters.
fn form_of(letters: &str) -> ListForm {
    ListForm {
        is_below: letters.contains('R'),
        is_long: letters.contains('l'),
        is_zero: letters.contains('0'),
        is_visible: letters.contains('t'),
        spelling: if letters.contains('e') {
            Spelling::Escaped
        } else {
            Spelling::Host
        },
    }
}

/// What is listed of a dump at a path, and how that ends.
fn listed(
    rt: &impl Abort,
    alloc: Global,
    dump: &[u8],
    path: &str,
    form: ListForm,
    failing: &[u64],
) -> (MemSink, Result<Standing, DrainFault>) {
    let mut stream = listing_of(alloc, dump, 4096, NEVER).expect(rt, "memory");
    let sink = sink_of(alloc, failing).expect(rt, "memory");
    write_entries(alloc, &mut stream, &path_of(path), form, sink)
}

/// Looks whether the lines of a row are listed.
fn expect_row(rt: &impl Abort, alloc: Global, row: &str) {
    let (letters, rest) = row.split_once('|').expect(rt, "three fields");
    let (path, lines) = rest.split_once('|').expect(rt, "three fields");
    let (sink, found) = listed(rt, alloc, DUMP.as_bytes(), path, form_of(letters), &[]);
    assert!(rt; found.is_ok(), "{row}");
    let mut wanted = lines.as_bytes().to_vec(alloc).expect(rt, "memory");
    for byte in wanted.iter_mut() {
        if *byte == b';' {
            *byte = 0;
        }
    }
    assert!(rt; sink.written() == wanted.as_slice(), "{row}");
}

#[test]
fn lines_are_those_of_the_tree(rt: HostRuntime) {
    for row in ROWS.split('#') {
        expect_row(&rt, rt.alloc(), row);
    }
}

/// Looks whether the time of a row is listed.
fn expect_time(rt: &impl Abort, alloc: Global, row: &str) {
    let (seconds, time) = row.split_once('|').expect(rt, "two fields");
    let mut dump = b"write /f 0 -\nset /f mtime "
        .to_vec(alloc)
        .expect(rt, "memory");
    dump.extend_from_slice(seconds.as_bytes())
        .expect(rt, "memory");
    dump.extend_from_slice(b"\n").expect(rt, "memory");
    let (sink, _) = listed(rt, alloc, &dump, "/f", form_of("l"), &[]);
    let mut line = b"f        0 ".to_vec(alloc).expect(rt, "memory");
    line.extend_from_slice(time.as_bytes()).expect(rt, "memory");
    line.extend_from_slice(b" f\n").expect(rt, "memory");
    assert!(rt; sink.written() == line.as_slice(), "{row}");
}

#[test]
fn times_are_told_up_to_the_year_9999(rt: HostRuntime) {
    for row in TIMES.split('#') {
        expect_time(&rt, rt.alloc(), row);
    }
}

#[test]
fn a_file_of_two_pieces_has_its_size(rt: HostRuntime) {
    let dump = long_listing(rt.alloc()).expect(&rt, "memory");
    let (sink, found) = listed(&rt, rt.alloc(), &dump, "/", form_of("l"), &[]);
    assert!(rt; found == Ok(Standing::Directory));
    assert!(rt; sink.written() == b"f     2049 -                    f\n".as_slice());
}

#[test]
fn a_put_that_fails_ends_the_list(rt: HostRuntime) {
    let (sink, found) = listed(&rt, rt.alloc(), DUMP.as_bytes(), "/a", form_of(""), &[1]);
    assert!(rt; found == Err(DrainFault::Taker(TakerFault::Failed)));
    assert!(rt; sink.written() == b"b c\n".as_slice());
}

#[test]
fn what_stands_at_the_path_is_told(rt: HostRuntime) {
    let alloc = rt.alloc();
    for (path, wanted) in [
        ("/", Standing::Directory),
        ("/a", Standing::Directory),
        ("/a/l", Standing::File),
        ("/a/x", Standing::Nothing),
    ] {
        let (_, found) = listed(&rt, alloc, DUMP.as_bytes(), path, form_of(""), &[]);
        assert!(rt; found == Ok(wanted), "{path}");
    }
}
