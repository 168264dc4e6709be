//! Where a symbolic link leads.

ghost use Rattle.std.specs.Prelude.{◌≡◌, ◌≤◌, None, Some, length, IfErr, IfOk, IsTrue};
ghost use Rattle.std.specs.Str.{is_utf8};
ghost use Rattle.host_builder.specs.HostAttributes.{is_target};
ghost use Rattle.host_folders.specs.Targets.{target_fault};

use std::marker::Model;
use thiserror::Error;
use tree_pairs::ATTRIBUTE_LIMIT;

/// Why bytes say no target of a link that an image can hold.
#[derive(Clone, Copy, Debug, PartialEq, Eq, Error)]
pub enum NoTarget {
    /// There are none.
    #[error("the target is empty")]
    Empty,
    /// They are more than 255.
    #[error("the target has more than 255 bytes")]
    TooLong,
    /// One of them is zero.
    #[error("the target has a zero byte")]
    ZeroByte,
    /// They are not UTF-8.
    #[error("the target is not UTF-8")]
    NotUtf8,
}

/// Where a symbolic link leads: 1 to 255 bytes of UTF-8, none of them zero. Contracts see it as the list of its bytes.
#[derive(Clone, Copy, Debug)]
pub struct LinkTarget {
    /// The target, and zeros.
    bytes: [u8; ATTRIBUTE_LIMIT],
    /// How many of the bytes are the target.
    len: u8,
}

impl Model for LinkTarget {
    ghost use Rattle.std.specs.Prelude.{List, ℕ, length, take};
    ghost use Rattle.store_model.specs.Lists.{zero_filled};
    ghost use Rattle.store_model.specs.Trees.{attribute_limit};
    ghost use Rattle.host_folders.specs.Targets.{IsTargetField};

    ghost Value = { List ℕ };

    ghost view = { λ t. take t.len t.bytes };

    ghost invariant = { λ t. IsTargetField t.bytes t.len (take t.len t.bytes) };

    ghost inverse = { λ target. record {
      bytes = zero_filled attribute_limit target;
      len = length target;
    } };
}

impl LinkTarget {
    /// Reads the target that bytes say.
    /// `NoTarget`: they say none. Of several reasons it is the first, in the order of the enum.
    pub fn parse(text: &[u8]) -> Result<LinkTarget, NoTarget>
        ensures value { IfOk result (λ target. target ≡ text.now) }
        ensures valid { IfOk result (λ target. IsTrue (is_target target)) }
        ensures taken { IfOk result (λ target. target_fault text.now ≡ None) }
        ensures refused { IfErr result (λ fault. target_fault text.now ≡ Some fault) }
    {
        if text.is_empty() {
            return Err(NoTarget::Empty);
        }
        if text.len() > ATTRIBUTE_LIMIT {
            return Err(NoTarget::TooLong);
        }
        if text.contains(&0) {
            return Err(NoTarget::ZeroByte);
        }
        if !is_text(text) {
            return Err(NoTarget::NotUtf8);
        }
        let mut bytes = [0; ATTRIBUTE_LIMIT];
        bytes[..text.len()].copy_from_slice(text);
        Ok(LinkTarget {
            bytes,
            len: text.len() as u8,
        })
    }

    /// Its bytes.
    pub fn as_bytes(&self) -> &[u8]
        ensures value { result.now ≡ self.now }
        ensures valid { IsTrue (is_target self.now) }
        ensures fits { length self.now ≤ ATTRIBUTE_LIMIT }
    {
        &self.bytes[..self.len as usize]
    }
}

/// Whether the bytes are UTF-8.
fn is_text(bytes: &[u8]) -> bool
    ensures { result ≡ is_utf8 bytes.now }
{
    match str::from_utf8(bytes) {
        Ok(_) => true,
        Err(_) => false,
    }
}
