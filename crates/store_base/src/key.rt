//! Keys.

ghost use Rattle.std.specs.Prelude.{◌≡◌, ◌↔◌, Some, IsTrue, nat_eq};
ghost use Rattle.std.proofs.Common.{refl};
ghost use Rattle.std.specs.Cmp.{partial_equiv_from_equiv};
ghost use Rattle.std.specs.Cmp.Lexicographic.{pointwise, nat_list_eq_equiv, nat_list_cmp_total, texts_po, texts_ties};
ghost use Rattle.store_model.specs.Paths.{key_cmp};
ghost use Rattle.store_base.specs.Keys.{IsKey};

use crate::order::byte_order;
use std::cmp::Ordering;
use std::marker::Model;

/// The 124 bytes by which pairs are found and ordered: any 124 bytes are a key. Contracts see a key as
/// the list of its bytes. Keys are ordered as their bytes.
#[derive(Clone, Copy, Debug)]
pub struct Key {
    bytes: [u8; 124],
}

impl Model for Key {
    ghost use Rattle.std.specs.Prelude.{List, ℕ};
    ghost use Rattle.store_model.specs.Lists.{IsBytes};

    ghost Value = { List ℕ };

    ghost view = { λ k. k.bytes };

    ghost invariant = { λ k. IsBytes k.bytes };

    ghost inverse = { λ bytes. record { bytes = bytes } };
}

impl Key {
    /// The key with these bytes.
    pub fn new(bytes: [u8; 124]) -> Self
        ensures value { result ≡ bytes }
        ensures valid { IsKey result }
    {
        Key { bytes }
    }

    /// Its 124 bytes.
    pub fn as_bytes(&self) -> &[u8; 124]
        ensures value { result.now ≡ self.now }
        ensures valid { IsKey self.now }
    {
        &self.bytes
    }
}

impl PartialEq for Key {
    ghost eq = { pointwise nat_eq };

    ghost laws = { partial_equiv_from_equiv nat_list_eq_equiv };

    fn eq(&self, other: &Self) -> bool
        ensures value { result ≡ pointwise nat_eq self.now other.now }
        ensures same { IsTrue result ↔ (self.now ≡ other.now) }
    {
        self.cmp(other).is_eq()
    }
}

impl Eq for Key {
    ghost laws = { nat_list_eq_equiv };
}

impl PartialOrd for Key {
    ghost partial_cmp = { λ a b. Some (key_cmp a b) };

    ghost laws = { texts_po };

    fn partial_cmp(&self, other: &Self) -> Option<Ordering> {
        Some(self.cmp(other))
    }
}

impl Ord for Key {
    ghost cmp = { key_cmp };

    ghost total = { nat_list_cmp_total };

    ghost matches_partial_cmp = { λ a b. refl };

    ghost matches_eq = { texts_ties };

    fn cmp(&self, other: &Self) -> Ordering
        ensures value { result ≡ key_cmp self.now other.now }
        ensures valid { IsKey self.now × IsKey other.now }
    {
        byte_order(&self.bytes, &other.bytes)
    }
}
