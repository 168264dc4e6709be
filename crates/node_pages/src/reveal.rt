//! Says to a proof what the types of keys, values and leads know.
//!
//! Contracts see a key or a value as a list of bytes. That these are 124, or 1 to 256, is a fact of the type,
//! which a proof has only from a call that promises it. These functions do nothing but promise it.

ghost use Rattle.store_base.specs.Keys.{IsKey};
ghost use Rattle.store_base.specs.Leads.{model_lead};
ghost use Rattle.store_model.specs.Labels.{IsLead};
ghost use Rattle.store_model.specs.Pairs.{IsValue};

use store_base::{Key, Lead, Value};

/// Says that what leads a group is the start, or a key of 124 bytes. It costs nothing.
pub fn reveal_lead(lead: &Lead)
    ensures { IsLead (model_lead lead.now) }
{
    let _ = lead.key_bytes();
}

/// Says that a key has 124 bytes. It costs nothing.
pub fn reveal_key(key: &Key)
    ensures { IsKey key.now }
{
    let _ = key.as_bytes();
}

/// Says that a value has 1 to 256 bytes. It costs nothing.
pub fn reveal_value(value: &Value)
    ensures { IsValue value.now }
{
    let _ = value.as_slice();
}

/// Says both of a pair. It costs nothing.
pub fn reveal_pair(key: &Key, value: &Value)
    ensures key { IsKey key.now }
    ensures value { IsValue value.now }
{
    reveal_key(key);
    reveal_value(value);
}
