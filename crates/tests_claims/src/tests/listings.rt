//! The sentences on dumps and listings, each once.

use super::support::{A_AND_B, EMPTY, Wanted, expect_crashes, expect_end, machine_of, sink_of};
use disk_model::MemDisk;
use script_lines::{MemSink, MemSource};
use std::alloc::Global;
use store_base::NoMemory;
use store_claims::{
    Crash, Machine, a_crash_leaves_all_of_a_load_or_nothing, a_dump_is_loaded_again,
    a_load_is_a_run,
};

/// The dump of the directories `/a` and `/b`.
const LISTING: &str = "make /a\nmake /b\n";

/// The end of the load of this dump, into the image of the empty tree.
const LOADED: Wanted<'static> = ([0, 1, 7, 7], "", A_AND_B);

#[test]
fn a_dump_and_a_run_of_its_lines_make_the_same_image(rt: HostRuntime) {
    let alloc = rt.alloc();
    let Machine { disk, sink, .. } = machine_of(&rt, alloc, [A_AND_B, ""]);
    let empty = machine_of(&rt, alloc, [EMPTY, ""]).disk;
    let copied = a_dump_is_loaded_again(alloc, disk, sink, empty, sink_of(&rt, alloc));
    let copied = copied.expect(&rt, "memory");
    expect_end(&rt, alloc, copied.dump, &([0, 1, 0, 2], LISTING, A_AND_B));
    expect_end(&rt, alloc, copied.load, &LOADED);
    let loaded = machine_of(&rt, alloc, [EMPTY, LISTING]);
    let run = machine_of(&rt, alloc, [EMPTY, LISTING]);
    let both = a_load_is_a_run(alloc, loaded, run).expect(&rt, "memory");
    expect_end(&rt, alloc, both.load, &LOADED);
    expect_end(&rt, alloc, both.run, &([0, 2, 14, 12], "ok\nok\n", A_AND_B));
}

/// The sentence, as a function of this crate: no function of another crate is passed by its name.
fn crash(
    alloc: Global,
    disk: MemDisk,
    from: u64,
    source: MemSource,
    sink: MemSink,
    left: &[u8],
) -> Result<Crash, NoMemory> {
    a_crash_leaves_all_of_a_load_or_nothing(alloc, disk, from, source, sink, left)
}

#[test]
fn a_crash_at_each_call_leaves_the_whole_tree_or_none(rt: HostRuntime) {
    // A load writes nothing to its sink: it is acknowledged where it ends with 0.
    expect_crashes(&rt, rt.alloc(), &crash, [EMPTY, LISTING, "-", A_AND_B]);
}
