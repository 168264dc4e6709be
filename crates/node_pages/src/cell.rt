//! Cells.

use crate::reveal::{reveal_key, reveal_pair, reveal_value};
use std::marker::Model;
use store_base::{Key, Value};

/// What a page holds: a key, and at level 0 its value. Contracts see a cell as that of the definitions.
#[derive(Clone, Debug, Drop)]
pub struct Cell {
    /// The key.
    pub key: Key,
    /// Its value, which is there at level 0 alone.
    pub value: Option<Value>,
}

/// A cell of a page: its key, copied, and the bytes of its value, which the page lends.
#[derive(Clone, Copy)]
pub struct CellRef<'a> {
    /// The key.
    pub key: Key,
    /// The bytes of its value, which is there at level 0 alone.
    pub value: Option<&'a [u8]>,
}

impl Model for Cell {
    ghost use Rattle.store_model.specs.Pages as model;

    ghost Value = { model.Cell };

    ghost view = { λ c. record { key = c.key; value = c.value } };
}

impl Cell {
    ghost use Rattle.std.specs.Prelude.{◌≡◌, ◌↔◌, ℕ, ◌<◌, Some, None, IsTrue};
    ghost use Rattle.store_model.specs.Pages.{IsCell};

    /// A cell of level 0: a key and its value.
    pub fn with_value(key: Key, value: Value) -> Self
        ensures value { result ≡ record { key = key; value = Some value } }
        ensures valid { IsCell 0 result }
    {
        reveal_pair(&key, &value);
        Cell {
            key,
            value: Some(value),
        }
    }

    /// A cell of a level above 0: a key alone.
    pub fn bare(key: Key) -> Self
        ensures value { result ≡ record { key = key; value = None } }
        ensures valid { (level : ℕ) → 0 < level → IsCell level result }
    {
        reveal_key(&key);
        Cell { key, value: None }
    }

    /// Whether it is one of the level: a value is there at level 0 alone.
    pub fn is_of(&self, level: u8) -> bool
        ensures { IsTrue result ↔ IsCell level self.now }
    {
        reveal_key(&self.key);
        match &self.value {
            Some(value) => {
                reveal_value(value);
                level == 0
            }
            None => level > 0,
        }
    }
}
