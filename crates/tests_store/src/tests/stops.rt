//! Calls whose disk fails at each of its calls in turn, with a crash behind it or without, and what the next call finds
//! and makes of what is left.

use super::support::{CALM, MOST_CALLS, Machine, Outside, STOPS, stopped_at};
use disk_model::StopChoice;
use std::process::Abort;
use tests_tools::{NEVER, fields};

/// The columns are:
///
/// - the name of the row: what it shows;
/// - the format and the script of the image that is found, and bytes that are written over it, in three columns;
/// - the words of the call that is cut short, and its input, in two columns. Carried out twice, it leaves what it
///   leaves the first time. A mirror has no input: this is the script of the image that is mirrored.
///
/// Behind the first four rows the next call is cut short in turn.
static CALLS: &str = "\
    two pages come|format 2 2 ruler zeros|||run|make /Ua\n#\
    a file moves within its slot|format 1 1 ruler zeros|make /d\nwrite /d/f 0 00\n||run|rename /d /e\n#\
    a slot becomes one of version 2|format 1 1 ruler zeros|write /a 0 41\n||upgrade|#\
    a page is mirrored into the one slot|format 1 1 ruler zeros|||mirror|make /a\n#\
    a page displaces another one round the end|format 4 2 ruler zeros|make /Ua\n||run|make /UU\n#\
    two slots become those of version 2, one of them free|format 4 1 ruler zeros|\
        write /a 0 41\nwrite /b 0 41\nwrite /c 0 41\nwrite /d 0 41\nwrite /e 0 41\nwrite /f 0 41\n||upgrade|#\
    no slot changes, and the version does|format 1 1 ruler zeros|make /a\n||upgrade|#\
    a removal shifts a page|format 8 2 ruler zeros|make /UD\nmake /UE\nmake /Ud\n||run|remove /UD\n#\
    a removal by which a page goes|format 4 1 ruler zeros|\
        make /a\nmake /b\nmake /c\nmake /d\nmake /e\nmake /f\nmake /g\nmake /h\nmake /i\nmake /j\nmake /k\n||\
        run|remove /a\n#\
    an attribute is set|format2 1 1 ruler zeros|make /d\n||run|set /d k 41\n#\
    a directory is moved with its attributes|format2 1 1 ruler zeros|\
        make /d\nset /d k 41\nmake /d/c\nset /d/c k -\n||run|rename /d /e\n#\
    a listing of three pages is loaded|format 4 2 ruler zeros|||load|make /UU\nmake /Ua\n#\
    two groups, of which one is committed|format 4 1 ruler zeros|||session|\
        begin\nbegin\nask 0 list /\nstage 1 make /b\nstage 1 remove /b\nstage 1 make /b\ncommit 1\ncommit 0\n#\
    a group that changes each slot|format 4 2 ruler zeros|make /Ua\n||session|\
        begin\nask 0 list /UU\nstage 0 make /UU\nstage 0 make /UU/d\ncommit 0\n#\
    an image is dumped|format 4 2 ruler zeros|make /UU\nmake /Ua\n||dump|#\
    an image is checked|format 4 2 ruler zeros|make /UU\nmake /Ua\n||check|#\
    an image is made|format 1 1 ruler zeros||0+4096:0|format 1 1 ruler zeros|#\
    an image of version 2 is made|format2 1 1 ruler zeros||0+4096:0|format2 1 1 ruler zeros|#\
    an image is wiped|format 1 1 ruler zeros|make /a\n||wipe|#\
    a byte in a free slot is scrubbed|format 4 2 ruler zeros|make /Ua\n|36873:127|scrub|#\
    a commit that puts a byte into a free slot is scrubbed|format 1 1 ruler zeros|make /a\n|\
        4096:1 8192:1 12290:7|scrub|#\
    a journal without its flag is scrubbed|format 1 1 ruler zeros||\
        4100:5 8192:1 12288:1 12419:1 12420:97 12545:1 12546:1 16390:1|scrub|#\
    a byte behind a page in its slot stays|format 1 1 ruler zeros|make /a\n|20479:1|scrub|#\
    three slots of eight are mirrored|format 8 2 ruler zeros|make /UD\nmake /UE\nmake /Ud\n||mirror|\
        make /Ud\nmake /UE\nmake /x\nwrite /f 0 4142\n#\
    four slots are, onto a damaged image|format 8 2 ruler zeros|make /UD\nmake /UE\nmake /Ud\n|53248+12288:255|\
        mirror|make /Ud\nmake /UE\nmake /x\nwrite /f 0 4142\n#\
    a slot is, onto an image that a journal makes one of version 2|format2 8 2 ruler zeros||14:1 4096:1 8200:1|\
        mirror|make /a\n#\
    images of two versions are not mirrored|format 8 2 ruler zeros||14:2|mirror|make /a\n";

/// How a call ends where nothing fails: its status, and what it prints.
#[derive(Clone, Copy)]
struct End<'a> {
    status: u8,
    printed: &'a [u8],
}

/// What a call leaves.
#[derive(Clone, Copy)]
struct Images<'a> {
    /// The image that is found, and what a run of no line makes of it.
    found: &'a [u8],
    old: &'a [u8],
    /// What the call leaves where nothing fails.
    new: &'a [u8],
    /// How it ends then, on the image that is found, and on the new one.
    first: End<'a>,
    next: End<'a>,
}

/// Whether the last call ended so.
fn is_end(machine: &Machine, end: &End<'_>) -> bool {
    (machine.ended.status == end.status) & (machine.written.as_slice() == end.printed)
}

/// Makes the call of the row, where nothing fails, and looks whether it leaves the new image, and ends as on the image
/// that is found, where it may, or as on the new one.
fn expect_ended(
    rt: &impl Abort,
    machine: &mut Machine,
    row: [&str; 8],
    images: &Images<'_>,
    may_end: [bool; 2],
) {
    machine.call(rt, row[4], row[5]);
    machine.expect_image(rt, images.new, "the next call", row[0]);
    let [may_be_first, may_be_next] = may_end;
    let is_first = may_be_first & is_end(machine, &images.first);
    let is_next = may_be_next & is_end(machine, &images.next);
    assert!(rt; is_first | is_next, "the end of the next call, {}", row[0]);
}

/// Looks whether the call of the row on what is left, cut short in turn at each call of the disk, leaves what the one
/// behind it ends. Between the same writes and syncs it leaves the same.
fn expect_ended_at_each(
    rt: &impl Abort,
    machine: &mut Machine,
    crash: Option<StopChoice>,
    row: [&str; 8],
    left: &[u8],
    images: &Images<'_>,
) {
    let mut behind = [NEVER; 2];
    for call in 0..MOST_CALLS {
        machine.load(rt, left);
        machine.call_in(rt, row[4], row[5], &stopped_at(call, crash));
        let ended = machine.ended;
        if ended.status != 5 {
            return;
        }
        if ended.calls != behind {
            expect_ended(rt, machine, row, images, [true; 2]);
        }
        behind = ended.calls;
    }
    panic!(rt; "no end before the most calls, {}", row[0]);
}

/// Looks whether a call that was cut short printed a front of what it prints. A dump prints before it is done; each
/// other call has one line for each that it says is done.
fn expect_front(rt: &impl Abort, machine: &Machine, row: [&str; 8], printed: &[u8]) {
    let ends = machine.written.iter().filter(|byte| **byte == b'\n');
    let is_counted = (row[4] == "dump") | (ends.count() as u64 == machine.ended.done);
    let is_front = printed.starts_with(&machine.written);
    assert!(rt; is_front & is_counted, "what is printed, {}", row[0]);
}

/// Looks whether a run of no line finds the old image in what is left or, where something was written, the new one, and
/// answers whether it is the new one alone. Else it finds none, where the old image or the new one may have no tree,
/// and leaves what is left as it is: no image, where one is made or wiped, and else a damaged one.
fn expect_found(
    rt: &impl Abort,
    machine: &mut Machine,
    row: [&str; 8],
    images: &Images<'_>,
    left: &[u8],
) -> bool {
    let is_written = machine.ended.calls[0] != 0;
    machine.call(rt, "run", "");
    let image = machine.image.as_slice();
    let (is_old, is_new) = (image == images.old, image == images.new);
    let holds = match machine.ended.status {
        0 => is_old | (is_written & is_new),
        7 => (image == left) & ["wipe", row[1]].contains(&row[4]),
        8 => (image == left) & ["scrub", "mirror"].contains(&row[4]),
        _ => false,
    };
    assert!(rt; holds, "a run of what is left, {}", row[0]);
    (machine.ended.status == 0) & is_new & !is_old
}

/// Looks whether what is left is what it may be, and what the next call ends, also where that is cut short in turn, if
/// it is to be.
fn expect_left(
    rt: &impl Abort,
    machine: &mut Machine,
    crash: Option<StopChoice>,
    row: [&str; 8],
    images: &Images<'_>,
    again: bool,
) {
    let left = machine.copy(rt);
    let is_new = expect_found(rt, machine, row, images, &left);
    machine.load(rt, &left);
    if again {
        expect_ended_at_each(rt, machine, crash, row, &left, images);
    } else {
        expect_ended(rt, machine, row, images, [!is_new, is_new]);
    }
}

/// Looks at that for the call of the row, cut short in this way at each call of the disk, and answers how many these
/// are. Between the same writes and syncs it leaves the same.
fn expect_stops(
    rt: &impl Abort,
    machine: &mut Machine,
    crash: Option<StopChoice>,
    row: [&str; 8],
    images: &Images<'_>,
    again: bool,
) -> u64 {
    let mut behind = [NEVER; 2];
    for call in 0..MOST_CALLS {
        machine.load(rt, images.found);
        machine.call_in(rt, row[4], row[5], &stopped_at(call, crash));
        let ended = machine.ended;
        if ended.status != 5 {
            return call;
        }
        expect_front(rt, machine, row, images.first.printed);
        if ended.calls != behind {
            expect_left(rt, machine, crash, row, images, again);
        }
        behind = ended.calls;
    }
    panic!(rt; "no end before the most calls, {}", row[0]);
}

/// Looks at each way to stop. The first fault ends the call, so that it makes as many calls in each.
fn expect_each_way(
    rt: &impl Abort,
    machine: &mut Machine,
    row: [&str; 8],
    images: &Images<'_>,
    again: bool,
) {
    let mut calls = NEVER;
    for crash in &STOPS {
        let same = expect_stops(rt, machine, *crash, row, images, again);
        assert!(rt; calls == NEVER || calls == same, "the calls, {}", row[0]);
        calls = same;
    }
}

/// Makes the images of the row, and looks at each way to stop.
fn expect_row(rt: &impl Abort, machine: &mut Machine, row: [&str; 8], again: bool) {
    machine.make(rt, row[1], row[5]);
    machine.keep_first(rt);
    machine.make(rt, row[1], row[2]);
    machine.spoil(rt, row[3]);
    let found = machine.copy(rt);
    machine.call(rt, "run", "");
    let old = machine.copy(rt);
    machine.load(rt, &found);
    machine.call(rt, row[4], row[5]);
    let (new, printed, status) = (
        machine.copy(rt),
        machine.copy_written(rt),
        machine.ended.status,
    );
    machine.call(rt, row[4], row[5]);
    let next_printed = machine.copy_written(rt);
    let first = End {
        status,
        printed: &printed,
    };
    let next = End {
        status: machine.ended.status,
        printed: &next_printed,
    };
    let images = Images {
        found: &found,
        old: &old,
        new: &new,
        first,
        next,
    };
    expect_each_way(rt, machine, row, &images, again);
}

#[test]
fn the_next_call_ends_what_a_stop_left(rt: HostRuntime) {
    let mut machine = Machine::new(rt.alloc());
    for (at, row) in CALLS.split('#').enumerate() {
        expect_row(&rt, &mut machine, fields(row), at < 4);
    }
}

/// Looks whether the mirror onto this image writes and prints nothing where a call of the first disk fails.
fn expect_unwritten(rt: &impl Abort, machine: &mut Machine, found: &[u8]) {
    for first in 0..MOST_CALLS {
        machine.load(rt, found);
        machine.call_in(rt, "mirror", "", &Outside { first, ..CALM });
        if machine.ended.status != 5 {
            return;
        }
        let is_silent = machine.written.is_empty() & (machine.ended.calls == [0; 2]);
        assert!(rt; is_silent, "call {first} of the first disk");
        machine.expect_image(rt, found, "a mirror", "whose first disk fails");
    }
    panic!(rt; "no end before the most calls");
}

#[test]
fn a_mirror_whose_first_disk_fails_writes_nothing(rt: HostRuntime) {
    let mut machine = Machine::new(rt.alloc());
    machine.make(&rt, "format 8 2 ruler zeros", "make /UD\nmake /x\n");
    machine.keep_first(&rt);
    machine.make(&rt, "format 8 2 ruler zeros", "");
    let found = machine.copy(&rt);
    expect_unwritten(&rt, &mut machine, &found);
    assert!(rt; (machine.ended.status == 0) & (machine.image != found));
}
