//! Keys of one field, with numbers one after another.

ghost use Rattle.std.specs.Prelude.{◌≡◌, ◌↔◌, IfSome, IsTrue};
ghost use Rattle.store_base.specs.Keys.{IsKey};
ghost use Rattle.store_model.specs.Draws.{key_block, key_field};
ghost use Rattle.drawn_levels.specs.Kept.{IsInRun};

use store_base::Key;

/// Where the block number begins in a key, behind the field.
const NUMBER_AT: usize = 120;

/// Keys that have one field, as those of a file, with block numbers one after another, and where their levels stand.
#[derive(Clone, Copy, Debug)]
pub(crate) struct Run {
    /// The first key.
    pub(crate) first: Key,
    /// Where its level stands among those that are kept. Those of the other keys stand behind it.
    pub(crate) at: u32,
    /// How many keys there are.
    pub(crate) count: u32,
}

/// The block number of a key.
fn number_of(key: &Key) -> u32
    ensures value { result ≡ key_block key.now }
    ensures valid { IsKey key.now }
{
    let mut number = [0; 4];
    number.copy_from_slice(&key.as_bytes()[NUMBER_AT..]);
    u32::from_be_bytes(number)
}

/// Whether two keys have one field.
fn is_of_same_field(key: &Key, other: &Key) -> bool
    ensures { IsTrue result ↔ (key_field key.now ≡ key_field other.now) }
{
    key.as_bytes()[..NUMBER_AT] == other.as_bytes()[..NUMBER_AT]
}

impl Run {
    /// How many keys behind the first one of the run the key would stand; nothing where it has another field, or a
    /// lower number.
    pub(crate) fn place_of(&self, key: &Key) -> Option<u32>
        ensures { IfSome result (λ place. IsInRun self.now place key.now) }
    {
        if !is_of_same_field(&self.first, key) {
            return None;
        }
        number_of(key).checked_sub(number_of(&self.first))
    }
}
