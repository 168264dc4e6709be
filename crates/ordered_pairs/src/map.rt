//! The list of pairs in memory.

ghost use Rattle.std.specs.Prelude.{◌≡◌, ◌≤◌, ⊤, [], refl, length, IfOk, IsTrue};
ghost use Rattle.std.specs.FinMap.{is_sorted};
ghost use Rattle.store_model.specs.Paths.{key_cmp};
ghost use Rattle.store_model.specs.Pairs.{IsPairs};
ghost use Rattle.ordered_pairs.specs.PairsState.{most_pairs};
ghost use Rattle.node_pages.specs.EntryPlaces.{IsPlaceOf};
ghost use Rattle.ordered_pairs.specs.ValidPairs.{IsPairs-prop};

use crate::ordered::OrderedPairs;
use node_pages::{PairList, reveal_pair};
use std::alloc::Global;
use std::cmp::Ordering;
use store_base::{Fault, Key, NoMemory, Value};

/// A list of pairs in memory, always observable. A key is found by binary search. It never answers `Fault::Disk`: its
/// count of faults is always 0.
#[derive(Debug, Drop)]
pub struct MapPairs {
    pairs: Vec<(Key, Value)>,
    pub ghost valid: { IsPairs pairs.items } by { IsPairs-prop pairs.items },
    pub ghost few: { length pairs.items ≤ most_pairs },
}

/// The place of a key among sorted pairs: of its pair, or as the error the place where its pair would stand.
fn place_of(pairs: &[(Key, Value)], key: &Key) -> Result<usize, usize>
    requires { IsTrue (is_sorted key_cmp pairs.now) }
    ensures { IsPlaceOf pairs.now key.now result }
{
    pairs.binary_search_by(
        |pair: &(Key, Value)| -> Ordering
            ensures { result ≡ key_cmp pair.now.0 key.entry.now }
        { pair.0.cmp(key) },
    )
}

impl MapPairs {
    /// The empty list.
    pub fn new(alloc: Global) -> Result<Self, NoMemory>
        ensures { IfOk result (λ list. list.pairs.items ≡ []) }
    {
        Ok(MapPairs {
            pairs: Vec::new(alloc),
        })
    }

    /// The list of these pairs, at most 8,388,608, which stand in the order of their keys. It takes no memory.
    pub fn from_pairs(pairs: PairList) -> Self
        requires valid { IsPairs pairs }
        requires few { length pairs ≤ most_pairs }
        ensures { result.pairs.items ≡ pairs }
    {
        MapPairs {
            pairs: pairs.into_items(),
        }
    }

    /// A list with the same pairs. `NoMemory` leaves the list as it is.
    pub fn copy(&self) -> Result<Self, NoMemory>
        ensures { IfOk result (λ list. list.pairs.items ≡ self.now.pairs.items) }
    {
        let mut pairs = Vec::with_capacity(*self.pairs.allocator(), self.pairs.len())?;
        for (key, value) in &self.pairs {
            pairs.push((*key, value.clone()?))?;
        }
        Ok(MapPairs { pairs })
    }

    /// Its pairs, by rising key. `NoMemory` leaves the list as it is.
    pub fn pairs(&self) -> Result<PairList, NoMemory>
        ensures { IfOk result (λ pairs. pairs ≡ self.now.pairs.items) }
    {
        let mut pairs = PairList::new(*self.pairs.allocator());
        for (key, value) in &self.pairs {
            pairs.push((*key, value.clone()?))?;
        }
        Ok(pairs)
    }
}

impl OrderedPairs for MapPairs {
    ghost use Rattle.ordered_pairs.specs.PairsState as lists;

    ghost state = { λ list. record {
      is_observable = Unit {0};
      pairs = list.pairs.items;
      faults = 0;
    } };

    ghost follows = { λ _ _. Unit {0} };

    ghost valid = { λ list _. list.valid };

    ghost few = { λ list _. list.few };

    ghost follows_refl = { λ _. tt };

    ghost follows_trans = { λ _ _ _ _ _. tt };

    fn get(&mut self, key: &Key) -> Result<Option<Value>, Fault> {
        match place_of(&self.pairs, key) {
            Ok(at) => Ok(Some(self.pairs[at].1.clone()?)),
            Err(_) => Ok(None),
        }
    }

    fn put(&mut self, key: Key, value: Value) -> Result<(), Fault> {
        reveal_pair(&key, &value);
        match place_of(&self.pairs, &key) {
            Ok(at) => self.pairs[at] = (key, value),
            Err(at) => self.pairs.insert(at, (key, value))?,
        }
        Ok(())
    }

    fn take(&mut self, key: &Key) -> Result<Option<Value>, Fault> {
        match place_of(&self.pairs, key) {
            Ok(at) => {
                let (_, value) = self.pairs.remove(at);
                Ok(Some(value))
            }
            Err(_) => Ok(None),
        }
    }

    fn next_from(&mut self, key: &Key) -> Result<Option<(Key, Value)>, Fault> {
        let (Ok(at) | Err(at)) = place_of(&self.pairs, key);
        match self.pairs.get(at) {
            Some((found, value)) => Ok(Some((*found, value.clone()?))),
            None => Ok(None),
        }
    }
}
