//! How often each command calls the pairs of its tree. The counts were worked out by hand. What stands at a path is
//! asked once. A block that the bytes fill is put, another one is read and put, and the first pair is put where the
//! length changes; a file in one pair is put as a whole. A walk asks for the next pair once for each that it finds, and
//! once more: for each child of a directory that is listed, or each attribute.

use super::counted_pairs::CountedPairs;
use file_blocks::inline_short_files;
use script_lines::{Command, Reply};
use std::alloc::Global;
use std::process::Abort;
use store_base::{Bytes, Fault};
use store_model::Version;
use tests_tools::{NEVER, command_of, number, numbers, path_of};
use tree_commands::{answer, change};

/// Lines, parted by `#`, each with how many calls it makes, or nothing where they are not counted. `fill PATH AT COUNT`
/// writes so many bytes, and `upgrade` makes the pairs those of version 2.
///
/// Under version 1: a file whose full blocks are written, and written over; bytes behind and in a full block; cuts; and
/// what is refused.
static BLOCKS: &str = "\
    fill /f 0 4096|18#fill /f 0 4096|17#fill /f 4096 1|3#fill /f 4095 1|3#fill /f 9999 1|1#cut /f 9999|1#\
    cut /f 4000|5#cut /f 3840|3";

/// Under version 2: a file in one pair, also where its bytes are put into a block, and taken out of it.
static ONE_PAIR: &str = "\
    fill /s 0 200|2#fill /s 50 100|2#fill /s 200 1|5#cut /s 200|4#cut /s 200|1#cut /s 0|2#fill /s 0 200|2";

/// Under version 2: a directory that is listed, with a file of three blocks among its children; moved; not removed,
/// since it is not empty; and the file removed, and attributes listed. The tests of a move find four paths, and then
/// seven pairs are found, taken and put.
static SUBTREES: &str = "\
    make /d#make /d/x#make /d/x/y#make /dd#fill /d/f 0 600#list /d|6#rename /d /dd/e|30#remove /dd|2#remove /dd/e/f|10#\
    make /dd/e/g#set /dd/e k 41#set /dd/e l 42#set /dd/e m 43#attrs /dd/e|5#list /dd/e|6#\
    prune /dd|18";

/// Under version 1, and then 2: files of 0, 200 and 300 bytes. There is a search for each of four entries and one past
/// the last; and of each short file its block is taken and its first pair put. Upgraded pairs are only read.
static UPGRADES: &str = "\
    make /d#fill /d/a 0 0#fill /d/c 0 200#fill /d/e 0 300#upgrade|9#upgrade|5";

/// The command that fills a file, by its words behind the first.
fn fill_of(words: &str) -> Command {
    let (to, range) = words.split_once(' ').unwrap_or((words, ""));
    let [at, count]: [u64; 2] = numbers(range);
    let at = u32::try_from(at).unwrap_or(u32::MAX);
    let count = (count as usize).min(Bytes::MAX_LEN);
    Command::Write(path_of(to), at, Bytes::new(&[7; Bytes::MAX_LEN][..count]))
}

/// The command of the line of a row.
fn read_line(line: &str) -> Command {
    match line.strip_prefix("fill ") {
        Some(words) => fill_of(words),
        None => command_of(line),
    }
}

/// Carries the command out.
fn carry_out(
    alloc: Global,
    pairs: &mut CountedPairs,
    version: Version,
    command: &Command,
    reply: &mut Reply,
) -> Result<(), Fault> {
    match command {
        Command::Space | Command::Digest => Ok(()),
        Command::List(_) | Command::Read(..) | Command::Get(..) | Command::Attrs(_) => answer(
            alloc, pairs, command, reply,
        ),
        _ => match change(pairs, version, command) {
            Ok(_) => Ok(()),
            Err(fault) => Err(fault),
        },
    }
}

/// Carries out the line of a row, and answers how many calls it makes.
fn calls_of(
    rt: &impl Abort,
    alloc: Global,
    pairs: &mut CountedPairs,
    version: Version,
    line: &str,
) -> u64 {
    pairs.calls();
    let done = if line == "upgrade" {
        inline_short_files(pairs)
    } else {
        carry_out(alloc, pairs, version, &read_line(line), &mut Reply::Ok)
    };
    assert!(rt; done.is_ok(), "{line}");
    pairs.calls()
}

/// Carries out each line on no pairs, and looks how many calls it makes.
fn expect_calls(rt: &impl Abort, alloc: Global, version: Version, lines: &str) {
    let mut pairs = CountedPairs::new(alloc);
    for row in lines.split('#') {
        let (line, wanted) = row.split_once('|').unwrap_or((row, ""));
        let calls = calls_of(rt, alloc, &mut pairs, version, line);
        let wanted = number(wanted);
        assert!(rt; wanted == NEVER || wanted == calls, "{line}: {calls} calls");
    }
}

#[test]
fn each_command_calls_its_pairs_so_often(rt: HostRuntime) {
    expect_calls(&rt, rt.alloc(), Version::One, BLOCKS);
    expect_calls(&rt, rt.alloc(), Version::Two, ONE_PAIR);
    expect_calls(&rt, rt.alloc(), Version::Two, SUBTREES);
    expect_calls(&rt, rt.alloc(), Version::One, UPGRADES);
}
