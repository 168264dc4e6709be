//! The levels of keys, kept run by run.

ghost use Rattle.std.specs.Prelude.{◌≡◌, ◌<◌, List, ℕ, IfSome, IsTrue, vec_len};
ghost use Rattle.store_model.specs.Draws.{Draw};
ghost use Rattle.drawn_levels.specs.Kept.{HoldsLevels, IsNext};

use crate::run::Run;
use std::alloc::Global;
use store_base::Key;

/// No more runs are kept: so they take at most 35 MB.
const MAX_RUNS: usize = 262_144;

/// No more levels are kept, each a byte. The pages of an image, at most 65,536, have at most 655,360 keys.
const MAX_LEVELS: usize = 1_048_576;

/// The levels of keys that came one after another: a path's keys share their field and have numbers one after another,
/// so they are a run, with a byte for each. Whether all keys that came are kept doesn't show.
#[derive(Drop)]
pub(crate) struct KeptLevels {
    runs: Vec<Run>,
    levels: Vec<u8>,
}

impl KeptLevels {
    /// The levels of no key.
    pub(crate) fn new(alloc: Global) -> Self
        ensures { (d : Draw) → HoldsLevels d result }
    {
        KeptLevels {
            runs: Vec::new(alloc),
            levels: Vec::new(alloc),
        }
    }

    /// Keeps the level of the key that came next, unless as many are kept as may be, or memory is refused.
    pub(crate) fn keep(&mut self, key: &Key, level: u8)
        ensures { (d : Draw) → level ≡ d.level key.now → HoldsLevels d self.old
            → HoldsLevels d self.new }
    {
        if self.levels.len() >= MAX_LEVELS {
            return;
        }
        if !self.has_run_for(key) {
            return;
        }
        self.lengthen(level);
    }

    /// Whether the key is the next one of the last run, which is begun for it if need be.
    fn has_run_for(&mut self, key: &Key) -> bool
        requires { vec_len self.old.levels < MAX_LEVELS }
        ensures holds { (d : Draw) → HoldsLevels d self.old → HoldsLevels d self.new }
        ensures next { IsTrue result → IsNext self.new key.now }
        ensures levels { self.new.levels ≡ self.old.levels }
    {
        self.is_next(key) || self.begin(key)
    }

    /// Whether the key is the next one of the last run.
    fn is_next(&self, key: &Key) -> bool
        ensures { IsTrue result → IsNext self.now key.now }
    {
        let Some(run) = self.runs.last() else {
            return false;
        };
        match run.place_of(key) {
            Some(place) => place == run.count,
            None => false,
        }
    }

    /// Begins a run, whose first key is to come; false where as many are kept as may be, or memory is refused.
    fn begin(&mut self, key: &Key) -> bool
        requires { vec_len self.old.levels < MAX_LEVELS }
        ensures holds { (d : Draw) → HoldsLevels d self.old → HoldsLevels d self.new }
        ensures next { IsTrue result → IsNext self.new key.now }
        ensures levels { self.new.levels ≡ self.old.levels }
    {
        if self.runs.len() >= MAX_RUNS {
            return false;
        }
        let run = Run {
            first: Key::new(*key.as_bytes()),
            at: self.levels.len() as u32,
            count: 0,
        };
        self.runs.push(run).is_ok()
    }

    /// Keeps the level of the next key of the last run, unless memory is refused.
    fn lengthen(&mut self, level: u8)
        requires { vec_len self.old.levels < MAX_LEVELS }
        ensures { (d : Draw) (key : List ℕ) → IsNext self.old key → level ≡ d.level key
            → HoldsLevels d self.old → HoldsLevels d self.new }
    {
        if self.levels.push(level).is_err() {
            return;
        }
        if let Some(run) = self.runs.last_mut() {
            run.count = run.count.saturating_add(1);
        }
    }

    /// How many runs begin no later than the key, where so many are known to; fewer are never answered.
    pub(crate) fn begun(&self, known: usize, key: &Key) -> usize {
        for at in known..self.runs.len() {
            if self.runs[at].first > *key {
                return at;
            }
        }
        self.runs.len()
    }

    /// The level of a key that stands in the last of so many runs; nothing where it doesn't.
    pub(crate) fn level_in(&self, runs: usize, key: &Key) -> Option<u8>
        ensures { (d : Draw) → HoldsLevels d self.now → IfSome result (λ level. level ≡ d.level key.now) }
    {
        let run = self.runs.get(runs.checked_sub(1)?)?;
        let place = run.place_of(key)?;
        if place >= run.count {
            return None;
        }
        self.levels.get(run.at as usize + place as usize).copied()
    }
}
