//! Digests of messages that often begin alike.

ghost use Rattle.std.specs.Prelude.{◌≡◌, ◌≤◌, length};
ghost use Rattle.seeded_draw.specs.Fronts.{holds-prop};
ghost use Rattle.sha2.specs.Sha256.{sha256};
ghost use Rattle.sha2.specs.Hashers.{Holds256};

use sha2::{Digest, Sha256};

/// So many first bytes of a message are digested by themselves: two blocks of SHA-256 (FIPS 180-4).
const FRONT_LEN: usize = 128;

/// What SHA-256 made of the first 128 bytes of a message, so that a message that begins like it is digested
/// from there on. The keys of one file differ in their last bytes alone, and so do the labels of the pages of
/// one group.
#[derive(Drop)]
pub struct Front {
    bytes: [u8; FRONT_LEN],
    hasher: Sha256,
    ghost held: { Holds256 hasher bytes } by { holds-prop hasher bytes },
}

/// A copy of a hasher, which takes no memory.
fn copy_of(hasher: &Sha256) -> Sha256
    ensures { result ≡ hasher.now }
{
    let Ok(copy) = hasher.clone() else {
        unreachable!()
    };
    copy
}

impl Front {
    /// Makes the front of a message that begins with zeros.
    pub fn new() -> Front {
        let bytes = [0; FRONT_LEN];
        Front {
            hasher: Sha256::new_with_prefix(bytes.as_slice()),
            bytes,
        }
    }

    /// Makes a front of the same message. It takes no memory, and digests nothing.
    pub fn copy(&self) -> Front {
        Front {
            bytes: self.bytes,
            hasher: copy_of(&self.hasher),
        }
    }

    /// Digests the first bytes of a message, if they were not digested last.
    fn begin(&mut self, bytes: &[u8])
        requires { length bytes.now ≡ FRONT_LEN }
        ensures { self.new.bytes ≡ bytes.now }
    {
        if self.bytes.as_slice() == bytes {
            return;
        }
        self.hasher = Sha256::new_with_prefix(bytes);
        self.bytes.copy_from_slice(bytes);
    }

    /// SHA-256 of a message of 128 bytes or more.
    pub fn digest(&mut self, message: &[u8]) -> [u8; 32]
        requires { FRONT_LEN ≤ length message.now }
        ensures { result ≡ sha256 message.now }
    {
        let (front, rest) = message.split_at(FRONT_LEN);
        self.begin(front);
        let mut hasher = copy_of(&self.hasher);
        hasher.update(rest);
        hasher.finalize()
    }
}
