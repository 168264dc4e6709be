//! Values and other byte strings of bounded length.

ghost use Rattle.std.specs.Prelude.{◌≡◌, ◌↔◌, ⊤, IsTrue, nat_eq};
ghost use Rattle.std.specs.Cmp.{partial_equiv_from_equiv};
ghost use Rattle.std.specs.Cmp.Lexicographic.{pointwise, nat_list_eq_equiv};

use arrayvec::ArrayVec;
use std::alloc::AllocError;
use std::marker::Model;

/// What a pair holds beside its key: 1 to 256 bytes. Contracts see a value as the list of its bytes.
#[derive(Debug, Drop)]
pub struct Value {
    bytes: ArrayVec<u8, { Value::MAX_LEN }>,
}

impl Model for Value {
    ghost use Rattle.std.specs.Prelude.{◌≤◌, List, ℕ, length};
    ghost use Rattle.store_model.specs.Lists.{IsBytes};

    ghost Value = { List ℕ };

    ghost view = { λ v. v.bytes.items };

    ghost invariant = { λ v. (1 ≤ length v.bytes.items) × IsBytes v.bytes.items };
}

impl Value {
    ghost use Rattle.std.specs.Prelude.{◌≡◌, ◌≤◌, length};
    ghost use Rattle.store_model.specs.Lists.{IsBytes};

    /// The most bytes that a value has.
    pub const MAX_LEN: usize = 256;

    /// The value with these bytes.
    pub fn new(bytes: &[u8]) -> Self
        requires some { 1 ≤ length bytes.now }
        requires fits { length bytes.now ≤ Self.MAX_LEN }
        ensures { result ≡ bytes.now }
    {
        let mut value = ArrayVec::new();
        let Ok(()) = value.try_extend_from_slice(bytes) else {
            unreachable!()
        };
        Value { bytes: value }
    }

    /// Its bytes.
    pub fn as_slice(&self) -> &[u8]
        ensures value { result.now ≡ self.now }
        ensures some { 1 ≤ length self.now }
        ensures fits { length self.now ≤ Self.MAX_LEN }
        ensures bytes { IsBytes self.now }
    {
        self.bytes.as_slice()
    }
}

impl Clone for Value {
    ghost is_clone = { λ bytes clone. clone ≡ bytes };

    ghost is_infallible = { λ _. ⊤ };

    fn clone(&self) -> Result<Self, AllocError> {
        Ok(Value::new(self.as_slice()))
    }
}

impl PartialEq for Value {
    ghost eq = { pointwise nat_eq };

    ghost laws = { partial_equiv_from_equiv nat_list_eq_equiv };

    fn eq(&self, other: &Self) -> bool
        ensures value { result ≡ pointwise nat_eq self.now other.now }
        ensures same { IsTrue result ↔ (self.now ≡ other.now) }
    {
        self.as_slice() == other.as_slice()
    }
}

impl Eq for Value {
    ghost laws = { nat_list_eq_equiv };
}

/// A byte string of at most 4,096 bytes, as a line of a script gives or a read answers. Contracts see it
/// as the list of its bytes.
#[derive(Debug, Drop)]
pub struct Bytes {
    bytes: ArrayVec<u8, { Bytes::MAX_LEN }>,
}

impl Model for Bytes {
    ghost use Rattle.std.specs.Prelude.{List, ℕ};
    ghost use Rattle.store_model.specs.Lists.{IsBytes};

    ghost Value = { List ℕ };

    ghost view = { λ b. b.bytes.items };

    ghost invariant = { λ b. IsBytes b.bytes.items };
}

impl Bytes {
    ghost use Rattle.std.specs.Prelude.{◌≡◌, ◌≤◌, [], length};
    ghost use Rattle.store_model.specs.Lists.{IsBytes};

    /// The most bytes that it has.
    pub const MAX_LEN: usize = 4096;

    /// The byte string with these bytes.
    pub fn new(bytes: &[u8]) -> Self
        requires { length bytes.now ≤ Self.MAX_LEN }
        ensures { result ≡ bytes.now }
    {
        let mut string = Bytes {
            bytes: ArrayVec::new(),
        };
        string.set(bytes);
        string
    }

    /// Replaces its bytes by these.
    pub fn set(&mut self, bytes: &[u8])
        requires { length bytes.now ≤ Self.MAX_LEN }
        ensures { self.new ≡ bytes.now }
    {
        self.bytes.clear();
        let Ok(()) = self.bytes.try_extend_from_slice(bytes) else {
            unreachable!()
        };
    }

    /// Its bytes.
    pub fn as_slice(&self) -> &[u8]
        ensures value { result.now ≡ self.now }
        ensures fits { length self.now ≤ Self.MAX_LEN }
        ensures bytes { IsBytes self.now }
    {
        self.bytes.as_slice()
    }
}

impl Clone for Bytes {
    ghost is_clone = { λ bytes clone. clone ≡ bytes };

    ghost is_infallible = { λ _. ⊤ };

    fn clone(&self) -> Result<Self, AllocError> {
        Ok(Bytes::new(self.as_slice()))
    }
}

impl PartialEq for Bytes {
    ghost eq = { pointwise nat_eq };

    ghost laws = { partial_equiv_from_equiv nat_list_eq_equiv };

    fn eq(&self, other: &Self) -> bool
        ensures value { result ≡ pointwise nat_eq self.now other.now }
        ensures same { IsTrue result ↔ (self.now ≡ other.now) }
    {
        self.as_slice() == other.as_slice()
    }
}

impl Eq for Bytes {
    ghost laws = { nat_list_eq_equiv };
}
