//! The sentences on scripts, each once.

use super::support::{
    A, A_AND_B, BROKEN, EMPTY, FORMAT, NEVER, Wanted, expect_crashes, expect_end, failing,
    image_of, machine_of, making_of, sink_of, words_of,
};
use disk_model::MemDisk;
use script_lines::{MemSink, MemSource};
use std::alloc::Global;
use std::process::Abort;
use store_base::NoMemory;
use store_claims::{
    Crash, Machine, a_crash_loses_nothing, a_script_is_answered,
    an_upgraded_image_is_the_one_made_so, big_is_a_run, commands_of_big_stay,
    equal_contents_have_equal_bytes, refused_lines_may_be_left_out, what_was_removed_is_gone,
};

/// The image with the directory `/d1`.
static D1: &str = "11:1 12:1 14:1 16384:1 16515:1 16516:100 16517:49 16641:1 16642:1";

/// The image of version 2 with the file `/a` of the byte 41.
static SHORT_FILE: &str = "11:1 12:1 14:2 16384:1 16515:1 16516:97 16641:2 16642:3 16643:65";

/// The commands of number 0, as lines.
static COMMANDS: &str = "write /d7/f7 0 0a02bdbf\nrename /d0/f1 /d5/f1\nmake /d1\n";

/// How `big 0 3` ends on the image of the empty tree.
const SUMMED: Wanted<'static> = (
    [0, 3, 7, 7],
    "ok 1\nno 2\nspace 1 1\ndigest a24e919299174bac9d4607c8d26f5bad2a266c95aebe5f85bffa4f61010f4ced\n",
    D1,
);

/// The words of a format of version 2.
static FORMAT2: &str =
    "format2 1 1 ruler 0000000000000000000000000000000000000000000000000000000000000000";

/// The runs: the image and the script, which take and which put fail, and how the run ends.
static RUNS: [([&str; 2], [u64; 2], Wanted<'static>); 5] = [
    (
        [EMPTY, "\n\nmake /a\n"],
        [NEVER, NEVER],
        ([0, 1, 7, 7], "ok\n", A),
    ),
    (
        [BROKEN, "make /b\n"],
        [NEVER, NEVER],
        ([8, 0, 0, 1], "", BROKEN),
    ),
    (
        [EMPTY, "make /a\nmake /b\n"],
        [NEVER, 0],
        ([4, 1, 7, 7], "", A),
    ),
    (
        [EMPTY, "make /a\nmake /b\n"],
        [1, NEVER],
        ([3, 1, 7, 7], "ok\n", A),
    ),
    (
        [A, "make /\nmake /b/c\nfoo\n"],
        [NEVER, NEVER],
        ([0, 3, 0, 2], "no root\nno parent\nno syntax\n", A),
    ),
];

#[test]
fn a_script_is_answered_and_a_fault_keeps_what_was_acknowledged(rt: HostRuntime) {
    let alloc = rt.alloc();
    for (given, fails, wanted) in &RUNS {
        let machine = failing(&rt, alloc, *given, [NEVER, fails[0], fails[1]]);
        let Machine { disk, source, sink } = machine;
        let ended = a_script_is_answered(alloc, disk, source, sink);
        expect_end(&rt, alloc, ended.expect(&rt, "memory"), wanted);
    }
}

#[test]
fn refused_lines_leave_no_trace(rt: HostRuntime) {
    let alloc = rt.alloc();
    let script = "make /a\nmake /a\nmake /b/c\nmake /b\nfoo\n";
    let first = machine_of(&rt, alloc, [EMPTY, script]);
    let second = machine_of(&rt, alloc, [EMPTY, "make /a\nmake /b\n"]);
    let runs = refused_lines_may_be_left_out(alloc, first, second).expect(&rt, "memory");
    let answers = "ok\nno exists\nno parent\nok\nno syntax\n";
    expect_end(&rt, alloc, runs.whole, &([0, 5, 14, 12], answers, A_AND_B));
    expect_end(
        &rt,
        alloc,
        runs.short,
        &([0, 2, 14, 12], "ok\nok\n", A_AND_B),
    );
}

/// Looks whether the two disks have this image.
fn expect_both(rt: &impl Abort, alloc: Global, first: &[u8], second: &[u8], wanted: &str) {
    let wanted = image_of(rt, alloc, wanted);
    assert!(rt;
        (first == wanted.as_slice()) & (second == wanted.as_slice()),
        "the images"
    );
}

#[test]
fn two_ways_lead_to_equal_bytes(rt: HostRuntime) {
    let alloc = rt.alloc();
    let words = words_of(&rt, alloc, FORMAT);
    let first = making_of(&rt, alloc, "make /a\n");
    let way = "make /x\nmake /y/z\n##rename /x /b\nmake /c\n#remove /c\nrename /b /a";
    let made = equal_contents_have_equal_bytes(alloc, &words, first, making_of(&rt, alloc, way));
    let made = made.ok().expect(&rt, "two images");
    let (first, second) = (made.first.into_disk(), made.second.into_disk());
    expect_both(&rt, alloc, first.bytes(), second.bytes(), A);
}

#[test]
fn an_upgrade_leads_to_the_image_of_version_2(rt: HostRuntime) {
    let alloc = rt.alloc();
    let (one, two) = (words_of(&rt, alloc, FORMAT), words_of(&rt, alloc, FORMAT2));
    let first = making_of(&rt, alloc, "write /a 0 41\n");
    let second = making_of(&rt, alloc, "write /a 0 41\n");
    let sink = sink_of(&rt, alloc);
    let made = an_upgraded_image_is_the_one_made_so(alloc, &one, &two, first, second, sink);
    let made = made.ok().expect(&rt, "two images");
    let (upgraded, made) = (made.first.into_disk(), made.second.into_disk());
    expect_both(&rt, alloc, upgraded.bytes(), made.bytes(), SHORT_FILE);
}

#[test]
fn a_pruned_directory_leaves_the_image_as_it_was(rt: HostRuntime) {
    let alloc = rt.alloc();
    let Machine { disk, source, sink } = machine_of(&rt, alloc, [EMPTY, "make /a\n"]);
    let script = "make /b\nwrite /b/f 0 41\nrename /b/f /b/g\nprune /b\n";
    let pruning = machine_of(&rt, alloc, [EMPTY, script]).source;
    let runs = what_was_removed_is_gone(alloc, disk, source, pruning, sink).expect(&rt, "memory");
    let is_kept = runs.image.as_slice() == image_of(&rt, alloc, A).as_slice();
    assert!(&rt; is_kept & (runs.first.code() == 0), "the first script");
    let gone = ([0, 4, 35, 29], "ok\nok\nok\nok\nok\n", A);
    expect_end(&rt, alloc, runs.second, &gone);
}

/// The sentence, as a function of this crate: no function of another crate is passed by its name.
fn crash(
    alloc: Global,
    disk: MemDisk,
    from: u64,
    source: MemSource,
    sink: MemSink,
    left: &[u8],
) -> Result<Crash, NoMemory> {
    a_crash_loses_nothing(alloc, disk, from, source, sink, left)
}

#[test]
fn a_crash_at_each_call_keeps_what_was_acknowledged(rt: HostRuntime) {
    expect_crashes(&rt, rt.alloc(), &crash, [A, "make /b\n", "ok\n", A_AND_B]);
}

#[test]
fn commands_of_a_number_are_those_of_a_script_and_stay(rt: HostRuntime) {
    let alloc = rt.alloc();
    let words = words_of(&rt, alloc, "big 0 3");
    let first = machine_of(&rt, alloc, [EMPTY, ""]);
    let second = machine_of(&rt, alloc, [EMPTY, COMMANDS]);
    let both = big_is_a_run(alloc, &words, first, second).expect(&rt, "memory");
    expect_end(&rt, alloc, both.big, &SUMMED);
    let answered = ([0, 3, 7, 7], "no parent\nno missing\nok\n", D1);
    expect_end(&rt, alloc, both.run, &answered);
    let machine = machine_of(&rt, alloc, [EMPTY, ""]);
    expect_end(
        &rt,
        alloc,
        commands_of_big_stay(alloc, &words, machine),
        &SUMMED,
    );
}
