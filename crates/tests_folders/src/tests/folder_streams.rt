//! Folders in memory, and the listings that are written of them, which were worked out by hand.

use super::support::{add, found};
use dump_streams::{DrainFault, StreamFault};
use host_folders::{Found, FoundKind, MemEntry, MemFolder, pack_folder};
use path_keys::Path;
use std::alloc::Global;
use std::process::Abort;
use tests_tools::{NEVER, fields, long_listing, number, path_of, sink_of};

/// A listing that is to be written: the fault by which the writing ends, if by any, at which path, or at the root where
/// all was written, and the lines.
type Written<'a> = (Option<StreamFault>, Path, &'a [u8]);

/// What a folder with these entries tells.
fn all_of(rt: &impl Abort, alloc: Global, entries: &[MemEntry]) -> Vec<Found> {
    let mut all = Vec::new(alloc);
    for entry in entries {
        all.push(entry.found).expect(rt, "memory");
    }
    all
}

/// Whether this is what is written of a folder with these entries, which are found in this order, where this call of
/// the folder fails, and a read gives so many bytes at most.
fn is_written(
    rt: &impl Abort,
    alloc: Global,
    entries: Vec<MemEntry>,
    piece: usize,
    failing: u64,
    wanted: Written<'_>,
) -> bool {
    let all = all_of(rt, alloc, &entries);
    let failing = [failing].to_vec(alloc).expect(rt, "memory");
    let folder = MemFolder::new(entries, piece, failing);
    let sink = sink_of(alloc, &[]).expect(rt, "memory");
    let (stream, sink, ended) = pack_folder(folder, all, sink);
    let (fault, at, lines) = wanted;
    let end = match fault {
        Some(fault) => Err(DrainFault::Stream(fault)),
        None => Ok(()),
    };
    let is_at = stream.path().unwrap_or(Path::root()) == at;
    (ended == end) & is_at & (sink.written() == lines)
}

/// A folder with a time, a file in it with both attributes, one with the attribute `mode`, and a link.
fn entries(rt: &impl Abort, alloc: Global) -> Vec<MemEntry> {
    let mut d = found("/d", FoundKind::Folder);
    d.seconds = Some(7);
    let mut f = found("/d/f", FoundKind::File(2));
    f.is_executable = true;
    f.seconds = Some(1_000_000_007);
    let mut g = found("/g", FoundKind::File(1));
    g.is_executable = true;
    let mut entries = Vec::new(alloc);
    add(rt, alloc, &mut entries, d, b"");
    add(rt, alloc, &mut entries, f, b"\x00\x01");
    add(rt, alloc, &mut entries, g, b"\x00");
    add(
        rt,
        alloc,
        &mut entries,
        found("/h", FoundKind::Link),
        b"d/f",
    );
    entries
}

/// Rows parted by `#`: the call of that folder that fails, or `-`; the path at which the writing ends so, or the root;
/// and the lines that were written. A file is opened, read byte by byte, and read once more for its end. A link is
/// asked once, by the eighth call.
const LISTINGS: &str = "\
    0|/d/f|make /d\nset /d mtime 37\n#\
    1|/d/f|make /d\nset /d mtime 37\n#\
    3|/d/f|make /d\nset /d mtime 37\n#\
    4|/g|make /d\nset /d mtime 37\nwrite /d/f 0 0001\nset /d/f mode 78\nset /d/f mtime 31303030303030303037\n#\
    7|/h|make /d\nset /d mtime 37\nwrite /d/f 0 0001\nset /d/f mode 78\nset /d/f mtime 31303030303030303037\n\
        write /g 0 00\nset /g mode 78\n#\
    -|/|make /d\nset /d mtime 37\nwrite /d/f 0 0001\nset /d/f mode 78\nset /d/f mtime 31303030303030303037\n\
        write /g 0 00\nset /g mode 78\nwrite /h 0 -\nset /h link 642f66\n";

/// Looks whether the folder is written so as a row says.
fn expect_row(rt: &impl Abort, alloc: Global, row: &str) {
    let [call, at, lines, ..] = fields(row);
    let failing = number(call);
    let fault = (failing != NEVER).then_some(StreamFault::Unreadable);
    let wanted = (fault, path_of(at), lines.as_bytes());
    assert!(rt;
        is_written(rt, alloc, entries(rt, alloc), 1, failing, wanted),
        "{row}"
    );
}

#[test]
fn a_folder_is_written_as_its_listing(rt: HostRuntime) {
    for row in LISTINGS.split('#') {
        expect_row(&rt, rt.alloc(), row);
    }
}

#[test]
fn a_file_comes_in_pieces(rt: HostRuntime) {
    let mut bytes = [0xAA; 2049];
    bytes[2048] = 0x0B;
    let mut entries = Vec::new(rt.alloc());
    add(
        &rt,
        rt.alloc(),
        &mut entries,
        found("/f", FoundKind::File(2049)),
        &bytes,
    );
    let lines = long_listing(rt.alloc()).expect(&rt, "memory");
    let wanted = (None, Path::root(), lines.as_slice());
    assert!(rt; is_written(&rt, rt.alloc(), entries, 1000, NEVER, wanted));
}

#[test]
fn entries_out_of_order_are_no_dump(rt: HostRuntime) {
    let mut entries = Vec::new(rt.alloc());
    add(
        &rt,
        rt.alloc(),
        &mut entries,
        found("/b", FoundKind::Folder),
        b"",
    );
    add(
        &rt,
        rt.alloc(),
        &mut entries,
        found("/a", FoundKind::Folder),
        b"",
    );
    let wanted = (
        Some(StreamFault::NoDump),
        path_of("/a"),
        b"make /b\n".as_slice(),
    );
    assert!(rt; is_written(&rt, rt.alloc(), entries, 1, NEVER, wanted));
}
