//! The calls of a store, and of `session_core`, over a disk of which one call fails: whether the store or a session
//! lives on, or the store is stopped.

use super::support::{MOST_CALLS, Machine, failing_disk};
use disk_model::{FailingDisk, MemDisk};
use script_lines::{Change, Question, Reply, SessionLine, parse_session};
use session_core::{Committed, SessionFault, Sessions, every_history_is_serial};
use std::alloc::Global;
use std::process::Abort;
use store_core::{ApplyFault, Store};

/// A store over a disk that may fail.
type FailingStore = Store<FailingDisk<MemDisk>>;

/// Sessions on it.
type FailingSessions = Sessions<FailingDisk<MemDisk>>;

/// Which call ended by a fault of the disk.
#[derive(Clone, Copy, PartialEq, Eq)]
enum Failed {
    /// None did.
    Nothing,
    /// That which opens the image.
    Attach,
    /// A question: it can be asked once more.
    Ask,
    /// A commit, or a command, that wrote nothing: it can be made once more.
    Commit,
    /// One that stopped the store, which serves nothing any more.
    Stop,
}

/// What fails of a session, one behind the other, as later calls of the disk do; and of a store without one.
static FAULTS: [Failed; 4] = [Failed::Attach, Failed::Ask, Failed::Commit, Failed::Stop];

static ALONE: [Failed; 3] = [Failed::Attach, Failed::Commit, Failed::Stop];

/// The directory that the session makes.
fn change(rt: &impl Abort) -> Change {
    let change = match parse_session(b"stage 0 make /a") {
        Ok(SessionLine::Stage(_, change)) => Some(change),
        _ => None,
    };
    change.expect(rt, "a change")
}

/// Sessions on a store, none of them live.
fn sessions_on(rt: &impl Abort, alloc: Global, store: FailingStore) -> FailingSessions {
    let sessions = match Sessions::new(alloc, store) {
        Ok(sessions) => Some(sessions),
        Err((_, store)) => {
            let _ = store.into_disk();
            None
        }
    };
    sessions.expect(rt, "memory")
}

/// Whether each call says that the store is stopped, whether a session has the number or not.
fn are_stopped(sessions: &mut FailingSessions, id: u32, change: &Change) -> bool {
    let is_asked = sessions.ask(id, &Question::Digest).err() == Some(SessionFault::Stopped);
    let is_staged = sessions.stage(id, change) == Err(SessionFault::Stopped);
    let is_committed = sessions.commit(id).err() == Some(SessionFault::Stopped);
    let is_dropped = sessions.drop_group(id) == Err(SessionFault::Stopped);
    let is_begun = sessions.begin() == Err(SessionFault::Stopped);
    is_asked & is_staged & is_committed & is_dropped & is_begun
}

/// Whether the session with number 0 can be committed.
fn is_committed(sessions: &mut FailingSessions) -> bool {
    matches!(sessions.commit(0), Ok(Committed::Ok))
}

/// Commits a session, and answers what failed.
fn commit(rt: &impl Abort, sessions: &mut FailingSessions, change: &Change) -> Failed {
    if is_committed(sessions) {
        return Failed::Nothing;
    }
    if sessions.store().is_stopped() {
        assert!(rt; are_stopped(sessions, 0, change) & are_stopped(sessions, 99, change));
        return Failed::Stop;
    }
    assert!(rt; is_committed(sessions));
    Failed::Commit
}

/// Begins a session that asks, stages and commits, and answers what failed.
fn serve(rt: &impl Abort, sessions: &mut FailingSessions, change: &Change) -> Failed {
    assert!(rt; sessions.begin() == Ok(0));
    let is_asked = sessions.ask(0, &Question::Digest).is_ok();
    assert!(rt; is_asked || sessions.ask(0, &Question::Digest).is_ok());
    assert!(rt; sessions.stage(0, change).is_ok());
    let failed = commit(rt, sessions, change);
    if is_asked { failed } else { Failed::Ask }
}

/// Carries the change out by the store itself, and answers what failed.
fn apply(rt: &impl Abort, store: &mut FailingStore, change: &Change) -> Failed {
    let command = change.command();
    match store.apply(&command) {
        Ok(Reply::Ok) => return Failed::Nothing,
        answer => assert!(rt; answer.err() == Some(ApplyFault::Disk)),
    }
    if store.is_stopped() {
        assert!(rt; store.apply(&command).err() == Some(ApplyFault::Stopped));
        return Failed::Stop;
    }
    assert!(rt; matches!(store.apply(&command), Ok(Reply::Ok)));
    Failed::Commit
}

/// What fails of the store by itself, and its disk.
fn apply_alone(rt: &impl Abort, mut store: FailingStore) -> (Failed, MemDisk) {
    let failed = apply(rt, &mut store, &change(rt));
    (failed, store.into_disk().into_disk())
}

/// What fails of a session on the store, and its disk.
fn serve_one(rt: &impl Abort, alloc: Global, store: FailingStore) -> (Failed, MemDisk) {
    let mut sessions = sessions_on(rt, alloc, store);
    let failed = serve(rt, &mut sessions, &change(rt));
    (failed, sessions.into_store().into_disk().into_disk())
}

/// What fails of a session, or of a store without one, where this call of the disk does, on the first of these images.
/// But where the store is stopped or the image was not opened, the disk has the second one then.
fn failed_at(
    rt: &impl Abort,
    alloc: Global,
    images: [&[u8]; 2],
    is_alone: bool,
    call: u64,
) -> Failed {
    let [found, made] = images;
    let Ok(store) = Store::attach(alloc, failing_disk(rt, alloc, found, call, None)) else {
        return Failed::Attach;
    };
    let (failed, disk) = if is_alone {
        apply_alone(rt, store)
    } else {
        serve_one(rt, alloc, store)
    };
    assert!(rt; failed == Failed::Stop || disk.bytes() == made);
    failed
}

/// The first call from this one on whose fault comes to something else than this.
fn first_behind(
    rt: &impl Abort,
    alloc: Global,
    images: [&[u8]; 2],
    is_alone: bool,
    first: u64,
    failed: Failed,
) -> u64 {
    for call in first..MOST_CALLS {
        if failed_at(rt, alloc, images, is_alone, call) != failed {
            return call;
        }
    }
    MOST_CALLS
}

/// Looks whether these fail, one behind the other, as later calls of the disk do, and nothing behind them.
fn expect_faults(
    rt: &impl Abort,
    alloc: Global,
    images: [&[u8]; 2],
    is_alone: bool,
    faults: &[Failed],
) {
    let mut call = 0;
    for failed in faults {
        let next = first_behind(rt, alloc, images, is_alone, call, *failed);
        assert!(rt; next > call);
        call = next;
    }
    assert!(rt; failed_at(rt, alloc, images, is_alone, call) == Failed::Nothing);
}

#[test]
fn a_fault_leaves_a_session_live_or_stops_the_store(rt: HostRuntime) {
    every_history_is_serial();
    let mut machine = Machine::new(rt.alloc());
    machine.make(&rt, "format 4 1 ruler zeros", "make /a\n");
    let made = machine.copy(&rt);
    machine.make(&rt, "format 4 1 ruler zeros", "");
    let images = [machine.image.as_slice(), made.as_slice()];
    expect_faults(&rt, rt.alloc(), images, false, &FAULTS);
    expect_faults(&rt, rt.alloc(), images, true, &ALONE);
}
