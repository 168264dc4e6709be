//! Parameters.

use crate::{MAX_HEIGHT, MAX_SLOTS};
use std::marker::Model;
use store_model::{DrawKind, Version};
use thiserror::Error;

/// The parameters are out of their range: the slots are not 1 to `MAX_SLOTS`, or the height is not 1 to 8.
#[derive(Clone, Copy, Debug, PartialEq, Eq, Error)]
#[error("the parameters are out of range")]
pub struct BadParams;

/// What an image is made with: 1 to `MAX_SLOTS` slots, a height of 1 to 8 levels, the kind of draw, a seed of
/// 32 bytes, and a version of the format. A tree has one image under its parameters.
#[derive(Clone, Copy, Debug)]
pub struct Params {
    slots: u32,
    height: u8,
    kind: DrawKind,
    seed: [u8; 32],
    version: Version,
}

impl Model for Params {
    ghost use Rattle.store_model.specs.Parameters.{Parameters, IsParameters};

    ghost Value = { Parameters };

    ghost view = { λ p. record {
      slots = p.slots;
      height = p.height;
      kind = p.kind;
      seed = p.seed;
      version = p.version;
    } };

    ghost invariant = { λ p. IsParameters (record {
      slots = p.slots;
      height = p.height;
      kind = p.kind;
      seed = p.seed;
      version = p.version;
    }) };

    ghost inverse = { λ p. record {
      slots = p.slots;
      height = p.height;
      kind = p.kind;
      seed = p.seed;
      version = p.version;
    } };
}

impl Params {
    ghost use Rattle.std.specs.Prelude.{◌≡◌, IfOk, IsOk, ◌↔◌};
    ghost use Rattle.store_model.specs.declared.version.Version.TheVariants.{One};
    ghost use Rattle.store_model.specs.Parameters as model;
    ghost use Rattle.store_model.specs.Parameters.{Parameters, IsParameters};

    /// The parameters under version 1 of the format, or `BadParams` exactly where they are out of range.
    pub fn new(slots: u32, height: u8, kind: DrawKind, seed: [u8; 32]) -> Result<Self, BadParams>
        ensures exact { IsOk result
            ↔ IsParameters (record {
              slots = slots;
              height = height;
              kind = kind;
              seed = seed;
              version = One;
            }) }
        ensures value { IfOk result
            (λ p. p ≡ record {
              slots = slots;
              height = height;
              kind = kind;
              seed = seed;
              version = One;
            }) }
        ensures valid { IfOk result IsParameters }
    {
        if slots < 1 || slots > MAX_SLOTS || height < 1 || height > MAX_HEIGHT {
            return Err(BadParams);
        }
        Ok(Params {
            slots,
            height,
            kind,
            seed,
            version: Version::One,
        })
    }

    /// The same parameters under this version of the format.
    pub fn with_version(&self, version: Version) -> Params
        ensures value { result ≡ model.with_version self.now version }
        ensures valid { IsParameters result }
    {
        Params {
            slots: self.slots,
            height: self.height,
            kind: self.kind,
            seed: self.seed,
            version,
        }
    }

    /// The number of slots of the table, 1 to `MAX_SLOTS`.
    pub fn slots(&self) -> u32
        ensures value { result ≡ self.now.slots }
        ensures valid { IsParameters self.now }
    {
        self.slots
    }

    /// The number of levels of the lists, 1 to 8.
    pub fn height(&self) -> u8
        ensures value { result ≡ self.now.height }
        ensures valid { IsParameters self.now }
    {
        self.height
    }

    /// How the starts of labels and the levels of keys are drawn.
    pub fn kind(&self) -> DrawKind
        ensures value { result ≡ self.now.kind }
        ensures valid { IsParameters self.now }
    {
        self.kind
    }

    /// The seed of the draws.
    pub fn seed(&self) -> [u8; 32]
        ensures value { result ≡ self.now.seed }
        ensures valid { IsParameters self.now }
    {
        self.seed
    }

    /// The version of the format.
    pub fn version(&self) -> Version
        ensures value { result ≡ self.now.version }
        ensures valid { IsParameters self.now }
    {
        self.version
    }
}
