//! The sentences on sessions, each once.

use super::support::{A_AND_B, BROKEN, EMPTY, NEVER, Wanted, expect_crashes, expect_end, failing};
use disk_model::MemDisk;
use script_lines::{MemSink, MemSource};
use std::alloc::Global;
use store_base::NoMemory;
use store_claims::{Crash, Machine, a_crash_leaves_whole_groups, a_session_is_answered};

/// A session that commits two directories, and one that is left with a third staged.
static SCRIPT: &str =
    "begin\nstage 0 make /a\nask 0 space\nstage 0 make /b\ncommit 0\nbegin\nstage 0 make /c\n";

/// The answers to its lines.
const ANSWERS: &str = "ok 0\nok\nspace 0 1\nok\nok\nok 0\nok\n";

/// The calls on this script: the image, which put fails, and how the call ends.
static CALLS: [(&str, u64, Wanted<'static>); 3] = [
    (EMPTY, NEVER, ([0, 7, 7, 7], ANSWERS, A_AND_B)),
    (
        EMPTY,
        4,
        ([4, 5, 7, 7], "ok 0\nok\nspace 0 1\nok\n", A_AND_B),
    ),
    (BROKEN, NEVER, ([8, 0, 0, 1], "", BROKEN)),
];

#[test]
fn a_group_is_committed_and_a_fault_of_the_sink_keeps_it(rt: HostRuntime) {
    let alloc = rt.alloc();
    for (image, fails, wanted) in &CALLS {
        let machine = failing(&rt, alloc, [*image, SCRIPT], [NEVER, NEVER, *fails]);
        let Machine { disk, source, sink } = machine;
        let ended = a_session_is_answered(alloc, disk, source, sink);
        expect_end(&rt, alloc, ended.expect(&rt, "memory"), wanted);
    }
}

/// The sentence, as a function of this crate: no function of another crate is passed by its name.
fn crash(
    alloc: Global,
    disk: MemDisk,
    from: u64,
    source: MemSource,
    sink: MemSink,
    left: &[u8],
) -> Result<Crash, NoMemory> {
    a_crash_leaves_whole_groups(alloc, disk, from, source, sink, left)
}

#[test]
fn a_crash_at_each_call_leaves_the_whole_group_or_none(rt: HostRuntime) {
    expect_crashes(&rt, rt.alloc(), &crash, [EMPTY, SCRIPT, ANSWERS, A_AND_B]);
}
