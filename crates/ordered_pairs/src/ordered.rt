//! What every list of pairs offers, wherever the pairs lie.

ghost use Rattle.std.specs.Prelude.{◌<◌, ◌≤◌, length};
ghost use Rattle.store_model.specs.Pairs.{IsPairs};
ghost use Rattle.ordered_pairs.specs.PairsState.{PairsState, IsObservable, IsPairGet, IsPairPut, IsPairTake};
ghost use Rattle.ordered_pairs.specs.PairsState.{IsNextPair, most_pairs};

use store_base::{Fault, Key, Value};

/// A list of pairs, each a key and its value, in the order of the keys: no key stands twice.
///
/// Clauses on the pairs hold where the list is observable, those on faults for every list; a list that was
/// not observable stays so. A call answers `Fault::Disk` only where the count of faults rises in it, by one
/// (a count that is 2^64 - 1 stays). `follows` says what every call keeps of the state below, even where it fails:
/// for example, that nothing was committed. Pairs in memory have nothing below them.
pub trait OrderedPairs {
    /// What the list means at this moment.
    ghost state: { Self → PairsState };

    /// What every call keeps of the state below the list.
    ghost follows: { Self → Self → Type 0 };

    /// The value of the key; `None` exactly where the list lacks the key. After a fault the list is as it was.
    fn get(&mut self, key: &Key) -> Result<Option<Value>, Fault>
        ensures call { IsPairGet (state self.old) (state self.new) key.now result }
        ensures follows { follows self.old self.new };

    /// Puts the value under the key. It replaces the one that was there. The list has to have fewer than 8,388,608
    /// pairs. After a fault nothing is promised of the list: it is discarded.
    fn put(&mut self, key: Key, value: Value) -> Result<(), Fault>
        requires { IsObservable (state self.old) → length (state self.old).pairs < most_pairs }
        ensures call { IsPairPut (state self.old) (state self.new) key value result }
        ensures follows { follows self.old self.new };

    /// Takes the pair of the key out, and answers its value; `None` exactly where the list lacks the key, which then
    /// stays as it was. After a fault nothing is promised of the list: it is discarded.
    fn take(&mut self, key: &Key) -> Result<Option<Value>, Fault>
        ensures call { IsPairTake (state self.old) (state self.new) key.now result }
        ensures follows { follows self.old self.new };

    /// The first pair whose key is not below the given one; `None` exactly where every key is below it. After a fault
    /// the list is as it was.
    fn next_from(&mut self, key: &Key) -> Result<Option<(Key, Value)>, Fault>
        ensures call { IsNextPair (state self.old) (state self.new) key.now result }
        ensures follows { follows self.old self.new };

    /// The keys strictly rise and have 124 bytes, and values have 1 to 256.
    ghost valid: { (list : Self) → IsObservable (state list) → IsPairs (state list).pairs };

    /// There are at most 8,388,608 pairs.
    ghost few: { (list : Self) → IsObservable (state list)
        → length (state list).pairs ≤ most_pairs };

    /// Each list follows itself, and what follows goes on from call to call.
    ghost follows_refl: { (list : Self) → follows list list };

    ghost follows_trans: { (a b c : Self) → follows a b → follows b c → follows a c };
}
