//! The changes of a stream, which a store carries out as they come: all of them, or none where one is refused or where
//! the tree after them has too many pages.

use super::support::{Machine, failing_disk};
use script_lines::{Change, MAX_LINE, SessionLine, parse_session};
use std::alloc::Global;
use std::process::Abort;
use store_core::{GroupAnswer, ListedChanges, Store, When};
use store_model::Refusal;
use tests_tools::NEVER;

/// The image on which they are carried out.
const FORMAT: &str = "format 4 1 ruler zeros";

/// What stands in it.
const BEFORE: &str = "make /d\nwrite /f 0 0102030405\nwrite /g 0 01\n";

/// Changes that are carried out, each behind the word of its guard: a file is replaced, a directory is made and one
/// stands already, one path is taken away and another is missing.
const CHANGES: &str =
    "file remove /f,always write /f 0 09,nodir make /d,nodir make /e,exists prune /g,exists prune /h";

/// What stands in the image after them.
const AFTER: &str = "make /d\nwrite /f 0 09\nmake /e\n";

/// Changes of which the last one but one is refused, since a file is in the way of a directory.
const REFUSED: &str = "exists prune /h,always write /f 5 06,nodir make /f,exists prune /f";

/// More directories than the slots have room for.
const MANY: u32 = 64;

/// The guard that a word names.
fn when_of(word: &str) -> When {
    match word {
        "file" => When::IsFile,
        "nodir" => When::NotDirectory,
        "exists" => When::Exists,
        _ => When::Always,
    }
}

/// The change that a text spells.
fn change_of(rt: &impl Abort, alloc: Global, text: &str) -> Change {
    let mut line = Vec::from_slice(alloc, b"stage 0 ").expect(rt, "memory");
    line.extend_from_slice(text.as_bytes()).expect(rt, "memory");
    assert!(rt; line.len() <= MAX_LINE);
    let change = match parse_session(&line) {
        Ok(SessionLine::Stage(_, change)) => Some(change),
        _ => None,
    };
    change.expect(rt, "a change")
}

/// The changes that a text spells, parted by commas, each behind the word of its guard.
fn changes_of(rt: &impl Abort, alloc: Global, text: &str) -> Vec<(When, Change)> {
    let mut changes = Vec::new(alloc);
    for part in text.split(',') {
        let (word, change) = part.split_once(' ').expect(rt, "a guard");
        let listed = (when_of(word), change_of(rt, alloc, change));
        changes.push(listed).expect(rt, "memory");
    }
    changes
}

/// As many directories as `MANY`, and then, if so wished, that each of them goes again.
fn many_changes(rt: &impl Abort, alloc: Global, are_pruned: bool) -> Vec<(When, Change)> {
    let mut changes = Vec::new(alloc);
    for word in ["make", "prune"] {
        if word == "make" || are_pruned {
            for number in 0..MANY {
                let text = format!(in alloc; "{word} /{number}").expect(rt, "memory");
                let listed = (When::Always, change_of(rt, alloc, &text));
                changes.push(listed).expect(rt, "memory");
            }
        }
    }
    changes
}

/// What a store on this image answers to the changes, and the image after them.
fn carried_out(
    rt: &impl Abort,
    alloc: Global,
    image: &[u8],
    changes: &[(When, Change)],
) -> (GroupAnswer, Vec<u8>) {
    let disk = failing_disk(rt, alloc, image, NEVER, None);
    let mut store = Store::attach(alloc, disk).ok().expect(rt, "a store");
    let mut stream = ListedChanges::new(changes);
    let answer = store.apply_stream(&mut stream).expect(rt, "an answer");
    let answer = answer.expect(rt, "changes");
    let disk = store.into_disk().into_disk();
    (answer, disk.bytes().to_vec(alloc).expect(rt, "memory"))
}

/// The image that commands leave.
fn image_of(rt: &impl Abort, alloc: Global, script: &str) -> Vec<u8> {
    let mut machine = Machine::new(alloc);
    machine.make(rt, FORMAT, script);
    machine.copy(rt)
}

#[test]
fn changes_of_a_stream_lead_to_the_tree_of_their_commands(rt: HostRuntime) {
    let alloc = rt.alloc();
    let before = image_of(&rt, alloc, BEFORE);
    let after = image_of(&rt, alloc, AFTER);
    let (answer, image) = carried_out(&rt, alloc, &before, &changes_of(&rt, alloc, CHANGES));
    assert!(&rt; answer == GroupAnswer::Done && image == after);
}

#[test]
fn a_stream_that_is_refused_changes_nothing(rt: HostRuntime) {
    let alloc = rt.alloc();
    let before = image_of(&rt, alloc, BEFORE);
    let (answer, image) = carried_out(&rt, alloc, &before, &changes_of(&rt, alloc, REFUSED));
    let refused = GroupAnswer::Refused {
        index: 2,
        reply: Refusal::Exists,
    };
    assert!(&rt; answer == refused && image == before);
}

#[test]
fn pages_of_a_stream_are_counted_at_its_end(rt: HostRuntime) {
    let alloc = rt.alloc();
    let before = image_of(&rt, alloc, BEFORE);
    let (answer, image) = carried_out(&rt, alloc, &before, &many_changes(&rt, alloc, false));
    let is_full = match answer {
        GroupAnswer::Refused {
            index,
            reply: Refusal::Full { need, slots },
        } => index == MANY && slots == 4 && need > slots,
        _ => false,
    };
    assert!(&rt; is_full && image == before);
    let (answer, image) = carried_out(&rt, alloc, &before, &many_changes(&rt, alloc, true));
    assert!(&rt; answer == GroupAnswer::Done && image == before);
}
