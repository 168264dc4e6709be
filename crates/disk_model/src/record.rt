//! The record of a disk in memory: which calls changed it, and which of its bytes a crash may still lose.
ghost use Rattle.std.specs.Prelude.{◌≡◌, ◌<◌, ◌≤◌, ◌+◌, ◌∷◌, ◌++◌, [], length, vec_len, vec_capacity};
ghost use mathlib.Core.List.{reverse};
ghost use Rattle.disk_model.specs.DiskCalls.{overwrite};
ghost use Rattle.disk_model.specs.Memory.{IsCrashImage};
ghost use Rattle.disk_model.specs.StopChoice.{IsChosen};
ghost use Rattle.disk_model.specs.Record.{LieWithin, CopiesPending};

/// A call that changed the disk.
#[derive(Clone, Copy, Debug)]
pub enum Call {
    /// A write of so many bytes at this offset.
    Write { at: usize, len: usize },
    /// A sync.
    Sync,
}

/// What a crash makes of the bytes that were written since the last sync that succeeded.
#[derive(Clone, Copy, Debug, PartialEq, Eq)]
pub enum StopChoice {
    /// They are as of that sync.
    Old,
    /// They are as last written.
    New,
    /// They are all this byte.
    Fill(u8),
}

/// Adds a call to the record, in memory that was taken before.
pub fn note(calls: &mut Vec<Call>, call: Call)
    requires { vec_len calls.old < vec_capacity calls.old }
    ensures items { calls.new.items ≡ calls.old.items ++ call ∷ [] }
    ensures capacity { vec_capacity calls.old ≤ vec_capacity calls.new }
{
    calls.push_reserved(call);
}

/// Saves the bytes that a write is about to replace, in memory that was taken before.
pub fn keep(replaced: &mut Vec<u8>, bytes: &[u8])
    requires { vec_len replaced.old + length bytes.now ≤ vec_capacity replaced.old }
    ensures items { replaced.new.items ≡ replaced.old.items ++ bytes.now }
    ensures capacity { vec_capacity replaced.old ≤ vec_capacity replaced.new }
{
    let Ok(()) = replaced.extend_from_slice(bytes) else {
        unreachable!()
    };
}

/// Writes these bytes over those at this offset.
pub fn put(target: &mut [u8], at: usize, bytes: &[u8])
    requires { at + length bytes.now ≤ length target.old }
    ensures { target.new ≡ overwrite target.old at bytes.now }
{
    target[at..at + bytes.len()].copy_from_slice(bytes);
}

/// Copies the bytes that were written since the last sync from `source` to `target`.
pub fn copy_pending(calls: &[Call], source: &[u8], target: &mut [u8])
    requires size { length source.now ≡ length target.old }
    requires within { LieWithin (length target.old) (reverse calls.now) }
    ensures { CopiesPending (reverse calls.now) source.now target.old target.new }
{
    let mut left = calls.len();
    while left > 0 {
        left -= 1;
        match calls[left] {
            Call::Sync => break,
            Call::Write { at, len } => {
                target[at..at + len].copy_from_slice(&source[at..at + len]);
            }
        }
    }
}

/// Crashes: the pending bytes become what the choice says, and the result becomes the bytes of the last sync.
pub fn crash(calls: &[Call], choice: StopChoice, bytes: &mut [u8], synced: &mut [u8])
    requires within { LieWithin (length bytes.old) (reverse calls.now) }
    requires alike { IsCrashImage bytes.old (reverse calls.now) synced.old }
    ensures image { IsCrashImage bytes.old (reverse calls.now) bytes.new }
    ensures chosen { IsChosen choice synced.old bytes.old (reverse calls.now) bytes.new }
    ensures durable { synced.new ≡ bytes.new }
{
    match choice {
        StopChoice::Old => copy_pending(calls, synced, bytes),
        StopChoice::New => copy_pending(calls, bytes, synced),
        StopChoice::Fill(byte) => {
            synced.fill(byte);
            copy_pending(calls, synced, bytes);
            synced.copy_from_slice(bytes);
        }
    }
}
