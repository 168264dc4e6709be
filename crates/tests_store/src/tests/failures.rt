//! Calls of which one take or one put fails, or each call of the disk from one on.

use super::support::{Machine, Outside};
use disk_model::StopChoice;
use std::process::Abort;
use tests_tools::{NEVER, fields, numbers};

/// The words for the image of the empty tree with one slot.
const LEAST: &str = "format 1 1 ruler zeros";

/// Calls on the image of the empty tree. The columns are:
///
/// - the name of the row;
/// - the words of the call, and its input, in two columns;
/// - six numbers, or `-` where there is none: the call of the disk from which on each fails, with a crash behind it;
///   how many bytes the first take gives; the take that fails, and the put; the status; and what is done;
/// - what is printed;
/// - a script for the tree that the next run finds, and that a mirror mirrors.
///
/// In the rows of commits the second question reads the whole image.
static FAILURES: &str = "\
    take 0 of a run|run|make /a\nlist /\n|- - 0 - 3 0||#\
    take 1 of a run, in a line|run|make /a\nlist /\n|- 10 1 - 3 1|ok\n|make /a\n#\
    take 2 of a run|run|make /a\nlist /\n|- 10 2 - 3 2|ok\nd a\nend\n|make /a\n#\
    take 3 of a run, which it does not make|run|make /a\nlist /\n|- 10 3 - 0 2|ok\nd a\nend\n|make /a\n#\
    put 0 of a run|run|make /a\nlist /\n|- - - 0 4 1||make /a\n#\
    put 1 of a run|run|make /a\nlist /\n|- - - 1 4 2|ok\n|make /a\n#\
    put 2 of a run, which it does not make|run|make /a\nlist /\n|- - - 2 0 2|ok\nd a\nend\n|make /a\n#\
    take 1 of a session, in a line|session|begin\nstage 0 make /a\n|- 8 1 - 3 1|ok 0\n|#\
    the put behind a commit|session|begin\nstage 0 make /a\ncommit 0\n|- - - 2 4 3|ok 0\nok\n|make /a\n#\
    put 0 of a check|check||- - - 0 4 1||#\
    put 0 of a scrub|scrub||- - - 0 4 1||#\
    take 0 and put 0 of a dump, which it does not make|dump||- - 0 0 0 1||#\
    put 0 of a load, which it does not make|load|make /a\nlist /\n|- - - 0 15 0||#\
    take 0 of a load|load|make /a\nlist /\n|- - 0 - 3 0||#\
    take 1 of a load, in a line|load|make /a\nlist /\n|- 10 1 - 3 0||#\
    take 2 of a load, at its end|load|make /a\nmake /b\n|- 10 2 - 3 0||#\
    take 3 of a load, which it does not make|load|make /a\nlist /\n|- 10 3 - 15 0||#\
    take 1 behind a line that no listing has|load|nonsense\nmake /a\n|- 10 1 - 3 0||#\
    take 1 behind names that do not rise|load|make /b\nmake /a\n|- 16 1 - 3 0||#\
    put 0 of a mirror|mirror||- - - 0 4 1||make /a\n#\
    put 0 of a summary|big 0 1||- - - 0 4 1||#\
    put 1 of a summary|big 0 1||- - - 1 4 1|ok 0\nno 1\n|#\
    put 2 of a summary|big 0 1||- - - 2 4 1|ok 0\nno 1\nspace 0 1\n|#\
    the disk before the flag of a second directory|big 2 5||22 - - - 5 4||make /d0\n#\
    the disk behind the flag of a second directory|big 2 5||26 - - - 5 4||make /d0\nmake /d7\n#\
    behind a question that has another answer none is asked|session|\
        begin\nbegin\nask 0 list /\nask 0 digest\nstage 1 make /a\ncommit 1\ncommit 0\n|26 - - - 0 7|\
        ok 0\nok 1\nend\ndigest c5f79e5e0daaa71b3e8435c05e875f639453faaadde46980a1d0d07116539273\nok\nok\n\
        conflict 0\nend\nd a\nend\n|make /a\n#\
    behind a question that has its answer the next one is|session|\
        begin\nbegin\nask 0 list /q\nask 0 digest\nstage 1 make /a\ncommit 1\ncommit 0\n|26 - - - 5 6|\
        ok 0\nok 1\nno missing\ndigest c5f79e5e0daaa71b3e8435c05e875f639453faaadde46980a1d0d07116539273\nok\nok\n|\
        make /a\n";

/// What a call meets outside where these fail: calls of the disk, a take behind so many bytes, and a put.
fn outside_of(call: u64, piece: u64, take: u64, put: u64) -> Outside {
    Outside {
        first: NEVER,
        call,
        crash: (call != NEVER).then_some(StopChoice::New),
        piece,
        take,
        put,
    }
}

/// Looks whether the last call ended so.
fn expect_end(rt: &impl Abort, machine: &Machine, status: u64, done: u64, row: [&str; 8]) {
    let is_written = machine.written.as_slice() == row[4].as_bytes();
    assert!(rt; is_written, "what is printed, {}", row[0]);
    let ended = machine.ended;
    assert!(rt;
        (u64::from(ended.status) == status) & (ended.done == done),
        "status {} with {} done, {}",
        ended.status,
        ended.done,
        row[0]
    );
}

/// Looks whether the call of the row ends as it says, and the next run finds its tree.
fn expect_row(rt: &impl Abort, machine: &mut Machine, row: [&str; 8]) {
    machine.make(rt, LEAST, row[5]);
    machine.keep_first(rt);
    let tree = machine.copy(rt);
    let [call, piece, take, put, status, done]: [u64; 6] = numbers(row[3]);
    machine.make(rt, LEAST, "");
    machine.call_in(rt, row[1], row[2], &outside_of(call, piece, take, put));
    expect_end(rt, machine, status, done, row);
    machine.call(rt, "run", "");
    machine.expect_image(rt, &tree, "the next run", row[0]);
}

#[test]
fn failing_calls_end_with_their_status(rt: HostRuntime) {
    let mut machine = Machine::new(rt.alloc());
    for row in FAILURES.split('#') {
        expect_row(&rt, &mut machine, fields(row));
    }
}
