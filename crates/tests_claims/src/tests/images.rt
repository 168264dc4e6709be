//! The sentences on images, each once.

use super::support::{
    A, EMPTY, FORMAT, NEVER, Wanted, expect_end, failing, image_of, machine_of, making_of, sink_of,
    words_of,
};
use disk_model::{MemDisk, StopChoice};
use std::alloc::Global;
use std::process::Abort;
use store_claims::{
    Ended, Machine, call_anything, check, check_behind_runs, check_then_run, mirror, scrub,
    scrub_cut_short, wipe, wipe_then_format,
};
use store_top::{Outcome, Status};

/// The image of the empty tree with a byte in its free slot, which a check finds damaged and a scrub takes away.
const UNCLEAN: &str = "11:1 12:1 14:1 16400:7";

/// The image of version 2 with the directory `/a`.
const A_BY_TWO: &str = "11:1 12:1 14:2 16384:1 16515:1 16516:97 16641:1 16642:1";

/// The end of a scrub of that image.
const SCRUBBED: Wanted<'static> = ([0, 1, 1, 2], "clean 0 0 0 0\n", EMPTY);

/// The end of a call of these words on this image whose disk fails from this call on.
fn call(rt: &impl Abort, alloc: Global, given: [&str; 2], from: u64) -> Ended {
    let machine = failing(rt, alloc, [given[1], ""], [from, NEVER, NEVER]);
    let Machine { disk, source, sink } = machine;
    call_anything(alloc, &words_of(rt, alloc, given[0]), disk, source, sink)
}

/// The calls: the words and the image, from which call on the disk fails, and how the call ends. No slot differs where
/// the image is upgraded, and the version does.
static CALLS: [([&str; 2], u64, Wanted<'static>); 6] = [
    ([FORMAT, ""], NEVER, ([0, 1, 6, 2], "", EMPTY)),
    ([FORMAT, A], NEVER, ([10, 0, 0, 0], "", A)),
    (["upgrade", A], NEVER, ([0, 1, 5, 7], "", A_BY_TWO)),
    (["check", ""], NEVER, ([7, 1, 0, 0], "not-image\n", "")),
    (["check", UNCLEAN], 2, ([5, 0, 0, 0], "", UNCLEAN)),
    (["chek", UNCLEAN], 0, ([2, 0, 0, 0], "", UNCLEAN)),
];

#[test]
fn calls_are_done_at_their_costs_or_refused(rt: HostRuntime) {
    for (given, from, wanted) in &CALLS {
        expect_end(
            &rt,
            rt.alloc(),
            call(&rt, rt.alloc(), *given, *from),
            wanted,
        );
    }
}

/// The disk of a call that ended by its fault.
fn cut(rt: &impl Abort, alloc: Global, given: [&str; 2], from: u64) -> MemDisk {
    let ended = call(rt, alloc, given, from);
    assert!(rt; ended.status.code() == 5, "a fault of the disk");
    ended.disk.into_disk()
}

#[test]
fn a_crash_leaves_no_part_of_an_image_or_the_old_one(rt: HostRuntime) {
    let alloc = rt.alloc();
    // A read, five blocks and a sync come before the first byte, which is written by call 7. A crash makes each pending
    // byte 72, as an image begins.
    for from in 0..7 {
        let left = cut(&rt, alloc, [FORMAT, ""], from).stopped(StopChoice::Fill(72));
        assert!(&rt; !left.bytes().starts_with(b"HSTORE01"), "call {from}");
    }
    for words in ["wipe", "upgrade"] {
        let left = cut(&rt, alloc, [words, A], 1).stopped(StopChoice::Old);
        assert!(&rt;
            left.bytes() == image_of(&rt, alloc, A).as_slice(),
            "{words}"
        );
    }
}

#[test]
fn an_image_is_checked_scrubbed_and_wiped(rt: HostRuntime) {
    let alloc = rt.alloc();
    let checked = check(
        alloc,
        &words_of(&rt, alloc, "check"),
        machine_of(&rt, alloc, [A, ""]),
    );
    expect_end(&rt, alloc, checked, &([0, 1, 0, 0], "clean 1 1 0 0\n", A));
    let machine = machine_of(&rt, alloc, [UNCLEAN, ""]);
    let scrubbed = scrub(alloc, &words_of(&rt, alloc, "scrub"), machine);
    expect_end(&rt, alloc, scrubbed, &SCRUBBED);
    let wiped = wipe(
        alloc,
        &words_of(&rt, alloc, "wipe"),
        machine_of(&rt, alloc, [A, ""]),
    );
    expect_end(&rt, alloc, wiped, &([0, 1, 6, 2], "", ""));
}

#[test]
fn an_image_is_made_behind_a_wipe(rt: HostRuntime) {
    let alloc = rt.alloc();
    let (wiping, least) = (words_of(&rt, alloc, "wipe"), words_of(&rt, alloc, FORMAT));
    let remade = wipe_then_format(alloc, &wiping, &least, machine_of(&rt, alloc, [A, ""]));
    assert!(&rt; remade.wipe == Status::Done, "the wipe");
    expect_end(&rt, alloc, remade.format, &([0, 1, 12, 4], "", EMPTY));
}

#[test]
fn an_image_is_scrubbed_again(rt: HostRuntime) {
    let alloc = rt.alloc();
    let scrubbing = words_of(&rt, alloc, "scrub");
    let machine = failing(&rt, alloc, [UNCLEAN, ""], [10, NEVER, NEVER]);
    let left = machine_of(&rt, alloc, [UNCLEAN, ""]);
    let twin = machine_of(&rt, alloc, [UNCLEAN, ""]);
    let scrubs = scrub_cut_short(alloc, &scrubbing, machine, left, twin);
    expect_end(&rt, alloc, scrubs.again, &SCRUBBED);
    expect_end(&rt, alloc, scrubs.whole, &SCRUBBED);
}

#[test]
fn an_image_is_mirrored(rt: HostRuntime) {
    let alloc = rt.alloc();
    let first = machine_of(&rt, alloc, [A, ""]).disk;
    let Machine { disk, source, sink } = machine_of(&rt, alloc, [EMPTY, ""]);
    let ended = mirror(alloc, first, disk, sink);
    // One slot differs, and nothing is to be recovered.
    let mirrored = Outcome {
        status: ended.status,
        done: ended.done,
        disk: ended.to,
        source,
        sink: ended.sink,
    };
    expect_end(&rt, alloc, mirrored, &([0, 1, 7, 6], "mirror 1\n", A));
}

#[test]
fn a_check_and_a_run_agree(rt: HostRuntime) {
    let alloc = rt.alloc();
    let (checking, running) = (words_of(&rt, alloc, "check"), words_of(&rt, alloc, "run"));
    let machine = machine_of(&rt, alloc, [UNCLEAN, "list /\n"]);
    let judged = check_then_run(alloc, &checking, &running, machine, sink_of(&rt, alloc));
    let is_damaged = (judged.check.code() == 8)
        & (judged.line.written() == b"damaged\n".as_slice());
    assert!(&rt; is_damaged, "the check");
    expect_end(&rt, alloc, judged.run, &([8, 0, 0, 1], "", UNCLEAN));
}

#[test]
fn an_image_is_checked_behind_runs(rt: HostRuntime) {
    let alloc = rt.alloc();
    let (least, checking) = (words_of(&rt, alloc, FORMAT), words_of(&rt, alloc, "check"));
    let making = making_of(&rt, alloc, "make /a\nmake /b\n#remove /b\nmake /a\n");
    let checked = check_behind_runs(alloc, &least, &checking, making, sink_of(&rt, alloc));
    let checked = checked.ok().expect(&rt, "a run ended before");
    let clean = ([0, 1, 27, 21], "clean 1 1 0 0\n", A);
    expect_end(&rt, alloc, checked, &clean);
}
