//! The draw `sha256`, by digests of the seed and the label or key.

ghost use Rattle.std.specs.Prelude.{◌≡◌, ◌≤◌, ◌==◌, ◌+◌, ◌%◌, ◌∷◌, ◌++◌, length};
ghost use Rattle.std.specs.List.{prefix_len};
ghost use Rattle.sha2.specs.Sha256.{sha256};
ghost use Rattle.seeded_draw.specs.Drawn.{sha256_draw, sha256_digest, number_of_digest};
ghost use Rattle.seeded_draw.specs.Lawful.{sha256_is_lawful};
ghost use Rattle.store_model.specs.Draws.{start_of_digest, level_of_digest, hex_digits};

use crate::draw::Draw;
use crate::front::Front;
use arrayvec::ArrayVec;
use sha2::{Digest, Sha256};
use store_base::{Key, Label, Params};

/// The byte behind the seed in what a start is drawn from.
const START_BYTE: u8 = 0x53;

/// The byte behind the seed in what a level is drawn from.
const LEVEL_BYTE: u8 = 0x4c;

/// What a draw is made from has no more bytes: the seed, a byte, and a label.
const MOST_LEN: usize = 163;

/// Adds bytes behind those of a message, which has room for them.
fn add(message: &mut ArrayVec<u8, MOST_LEN>, bytes: &[u8])
    requires { length message.old.items + length bytes.now ≤ MOST_LEN }
    ensures { message.new.items ≡ message.old.items ++ bytes.now }
{
    let Ok(()) = message.try_extend_from_slice(bytes) else {
        unreachable!()
    };
}

/// The number in the first eight bytes of a digest, high byte first.
#[tactic(auto, unfolding(crate::specs::Drawn::number_of_digest))]
pub(crate) fn number_of_digest(digest: &[u8; 32]) -> u64
    ensures { result ≡ number_of_digest digest.now }
{
    let mut front = [0; 8];
    front.copy_from_slice(&digest[..8]);
    u64::from_be_bytes(front)
}

/// The slot that a digest of SHA-256 (FIPS 180-4) draws, below `slots`: the number in the digest's first eight bytes,
/// high byte first, modulo `slots`, which is at least 1. The probe sequence of a label starts there, where the digest
/// is that of the seed, the byte 53 (hexadecimal) and the label.
#[tactic(auto, unfolding(store_model::specs::Draws::start_of_digest, crate::specs::Drawn::number_of_digest))]
pub fn start_of_digest(digest: &[u8; 32], slots: u32) -> u32
    requires { 1 ≤ slots }
    ensures { result ≡ start_of_digest digest.now slots }
{
    slot_of_number(number_of_digest(digest), slots)
}

/// The slot that a number draws, below `slots`.
fn slot_of_number(number: u64, slots: u32) -> u32
    requires { 1 ≤ slots }
    ensures { result ≡ number % slots }
{
    (number % u64::from(slots)) as u32
}

/// The level that a digest draws, below `height`: the number of its leading zero hexadecimal digits, at
/// most `height - 1`. The height is at least 1.
#[tactic(auto, unfolding(store_model::specs::Draws::level_of_digest))]
pub fn level_of_digest(digest: &[u8; 32], height: u8) -> u8
    requires { 1 ≤ height }
    ensures { result ≡ level_of_digest digest.now height }
{
    let zeros = leading_zero_digits(digest);
    zeros.min(usize::from(height - 1)) as u8
}

/// The number of zero hexadecimal digits that the bytes begin with.
fn leading_zero_digits(bytes: &[u8]) -> usize
    requires { length bytes.now ≤ 32 }
    ensures { result ≡ prefix_len (λ d. d == 0) (hex_digits bytes.now) }
{
    let mut digits = 0;
    for byte in bytes {
        if *byte != 0 {
            return if *byte < 16 { digits + 1 } else { digits };
        }
        digits += 2;
    }
    digits
}

/// The draw `sha256`: start and level come from the digest of the seed, a byte that tells the two apart,
/// and the label or key (FIPS 180-4).
#[derive(Clone, Copy, Debug)]
pub struct ShaDraw {
    seed: [u8; 32],
    slots: u32,
    height: u8,
    pub ghost some_slot: { 1 ≤ slots },
    pub ghost some_level: { 1 ≤ height },
}

impl ShaDraw {
    /// The draw of the seed, the slots and the height of these parameters, whatever kind they name.
    pub fn new(params: &Params) -> Self
        ensures seed { result.seed ≡ params.now.seed }
        ensures slots { result.slots ≡ params.now.slots }
        ensures height { result.height ≡ params.now.height }
    {
        ShaDraw {
            seed: params.seed(),
            slots: params.slots(),
            height: params.height(),
        }
    }

    /// The seed, a byte and more bytes, of which it has room for those of a label.
    fn message(&self, byte: u8, bytes: &[u8]) -> ArrayVec<u8, MOST_LEN>
        requires { length bytes.now ≤ 130 }
        ensures { result.items ≡ self.now.seed ++ byte ∷ bytes.now }
    {
        let mut message = ArrayVec::new();
        add(&mut message, &self.seed);
        add(&mut message, &[byte]);
        add(&mut message, bytes);
        message
    }
}

impl Draw for ShaDraw {
    ghost drawn = { λ d. sha256_draw d.seed d.slots d.height };

    ghost digests = { λ d l. sha256_digest d.seed l };

    ghost lawful = { λ d. sha256_is_lawful d.seed d.slots d.height d.some_slot d.some_level };

    fn slots(&self) -> u32 {
        self.slots
    }

    fn height(&self) -> u8 {
        self.height
    }

    #[tactic(auto, unfolding(store_model::specs::Draws::sha256_start))]
    fn start(&self, label: &Label) -> u32 {
        let message = self.message(START_BYTE, &label.to_bytes());
        start_of_digest(&Sha256::digest(message.as_slice()), self.slots)
    }

    #[tactic(auto, unfolding(store_model::specs::Draws::sha256_level))]
    fn level(&self, key: &Key) -> u8 {
        let message = self.message(LEVEL_BYTE, key.as_bytes());
        level_of_digest(&Sha256::digest(message.as_slice()), self.height)
    }

    fn start_from(&self, front: &mut Front, label: &Label) -> u32 {
        let digest = self.digest_from(front, label);
        self.start_by(label, digest)
    }

    #[tactic(auto, unfolding(store_model::specs::Draws::sha256_level))]
    fn level_from(&self, front: &mut Front, key: &Key) -> u8 {
        let message = self.message(LEVEL_BYTE, key.as_bytes());
        level_of_digest(&front.digest(message.as_slice()), self.height)
    }

    fn digest_from(&self, front: &mut Front, label: &Label) -> u64 {
        let message = self.message(START_BYTE, &label.to_bytes());
        number_of_digest(&front.digest(message.as_slice()))
    }

    #[tactic(auto, unfolding(store_model::specs::Draws::sha256_start, store_model::specs::Draws::start_of_digest, crate::specs::Drawn::number_of_digest))]
    fn start_by(&self, label: &Label, digest: u64) -> u32 {
        let _ = label;
        slot_of_number(digest, self.slots)
    }
}
