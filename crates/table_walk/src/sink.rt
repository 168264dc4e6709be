//! What takes the pairs that a walk comes to.

ghost use Rattle.std.specs.Prelude.{◌++◌, ◌∷◌, [], List};
ghost use Rattle.store_model.specs.Pairs.{Pair};

use store_base::Key;

/// What takes the pairs of a list one after another. It need not keep them.
pub trait TakesPairs {
    /// It took just these pairs, in this order.
    ghost took: { Self → List Pair → Type 0 };

    /// What stays the same of it, whichever pairs it takes.
    ghost keeps: { Self → Self → Type 0 };

    /// Takes one more pair: a key and the bytes of its value, however many.
    fn take(&mut self, key: &Key, value: &[u8])
        ensures keeps { keeps self.old self.new }
        ensures took { (pairs : List Pair) → took self.old pairs
            → took self.new (pairs ++ (key.now, value.now) ∷ []) };

    /// It stays the same where nothing is taken.
    ghost keeps_refl: { (sink : Self) → keeps sink sink };

    /// What stays the same from pair to pair stays the same from the first to the last.
    ghost keeps_trans: { (old mid new : Self) → keeps old mid → keeps mid new → keeps old new };
}
