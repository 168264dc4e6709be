//! Keys and labels that tests work with.

ghost use Rattle.std.specs.Prelude.{◌≡◌, ◌-◌, ◌≤◌, ◌++◌, length};
ghost use Rattle.store_model.specs.Lists.{zeros};
ghost use Rattle.store_model.specs.Labels as model;
ghost use Rattle.store_model.specs.Labels.{IsLabel};
ghost use Rattle.store_base.specs.Keys.{IsKey};

use node_pages::reveal_key;
use store_base::{Key, Label, Lead};

/// The key that begins with these bytes, at most 124, and has zeros behind them.
pub(super) fn key(front: &[u8]) -> Key
    requires { length front.now ≤ 124 }
    ensures value { result ≡ front.now ++ zeros (124 - length front.now) }
    ensures valid { IsKey result }
{
    let mut bytes = [0; 124];
    bytes[..front.len()].copy_from_slice(front);
    Key::new(bytes)
}

/// The label of the first page of the group that the key leads on level 0.
pub(super) fn led(key: Key) -> Label
    ensures value { result ≡ record { level = 0; lead = model.Leader key; index = 0 } }
    ensures valid { IsLabel result }
{
    reveal_key(&key);
    Label {
        level: 0,
        lead: Lead::Key(key),
        index: 0,
    }
}

/// The label of page `index`, from 0, of the group that the start leads on the level.
pub(super) fn start_label(level: u8, index: u32) -> Label
    ensures value { result ≡ record { level = level; lead = model.Start; index = index } }
    ensures valid { IsLabel result }
{
    Label {
        level,
        lead: Lead::Start,
        index,
    }
}
