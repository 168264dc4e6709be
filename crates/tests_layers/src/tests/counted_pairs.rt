//! Pairs in memory that count the calls on them.

ghost use Rattle.std.specs.Prelude.{◌≡◌, ◌≤◌, length};

use ordered_pairs::OrderedPairs;
use std::alloc::Global;
use store_base::{Fault, Key, Value};

/// Pairs in memory by rising key, found by halving as in `MapPairs`, that count the calls on them. Contracts know
/// nothing of them, so that every call may be made.
#[derive(Drop)]
pub(super) struct CountedPairs {
    pairs: Vec<(Key, Value)>,
    calls: u64,
}

impl CountedPairs {
    /// No pairs, and no calls.
    pub(super) fn new(alloc: Global) -> Self {
        CountedPairs {
            pairs: Vec::new(alloc),
            calls: 0,
        }
    }

    /// How many calls were made since this was asked last.
    pub(super) fn calls(&mut self) -> u64 {
        let calls = self.calls;
        self.calls = 0;
        calls
    }

    /// Counts a call, and answers the place of the first pair whose key is not below the given one.
    fn place(&mut self, key: &Key) -> usize
        ensures { result ≤ length self.new.pairs.items }
    {
        self.calls = self.calls.saturating_add(1);
        self.pairs.partition_point(|pair| pair.0 < *key)
    }
}

impl OrderedPairs for CountedPairs {
    ghost state = { λ list. record { is_observable = ⊥; pairs = list.pairs.items; faults = 0 } };

    ghost follows = { λ _ _. Unit {0} };

    ghost valid = { λ list seen. absurd seen };

    ghost few = { λ list seen. absurd seen };

    ghost follows_refl = { λ _. tt };

    ghost follows_trans = { λ _ _ _ _ _. tt };

    fn get(&mut self, key: &Key) -> Result<Option<Value>, Fault> {
        let at = self.place(key);
        match self.pairs.get(at) {
            Some(pair) if pair.0 == *key => Ok(Some(pair.1.clone()?)),
            _ => Ok(None),
        }
    }

    fn put(&mut self, key: Key, value: Value) -> Result<(), Fault> {
        let at = self.place(&key);
        if at < self.pairs.len() && self.pairs[at].0 == key {
            self.pairs[at] = (key, value);
            return Ok(());
        }
        self.pairs.insert(at, (key, value))?;
        Ok(())
    }

    fn take(&mut self, key: &Key) -> Result<Option<Value>, Fault> {
        let at = self.place(key);
        if at < self.pairs.len() && self.pairs[at].0 == *key {
            let (_, value) = self.pairs.remove(at);
            return Ok(Some(value));
        }
        Ok(None)
    }

    fn next_from(&mut self, key: &Key) -> Result<Option<(Key, Value)>, Fault> {
        let at = self.place(key);
        match self.pairs.get(at) {
            Some(pair) => Ok(Some((pair.0, pair.1.clone()?))),
            None => Ok(None),
        }
    }
}
