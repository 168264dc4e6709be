//! The header block of an image.

ghost use Rattle.std.specs.Prelude.{◌≡◌, ◌++◌, ◌∷◌, [], Some, IfSome, codes};
ghost use Rattle.std.specs.Int.{w32, to_be_bytes};
ghost use Rattle.store_model.specs.Parameters.{Parameters, IsParameters};
ghost use Rattle.store_model.specs.Images as model;
ghost use Rattle.store_model.specs.Images.{kind_byte, header};

use crate::FIRST_BYTE;
use crate::params::Params;
use byteorder::{BigEndian, ByteOrder};
use store_model::{BLOCK, DrawKind, Slot, Version};

/// The place of the version's byte in a header.
const VERSION_AT: usize = 14;

/// The text that begins an image.
const MAGIC: [u8; 8] = [FIRST_BYTE, b'S', b'T', b'O', b'R', b'E', b'0', b'1'];

/// The byte that names a kind of draw.
fn byte_of(kind: DrawKind) -> u8
    ensures { result ≡ kind_byte kind }
{
    match kind {
        DrawKind::Ruler => 0,
        DrawKind::Sha256 => 1,
    }
}

/// The kind of draw that a byte names.
fn draw_kind_of(byte: u8) -> Option<DrawKind>
    ensures found { IfSome result (λ kind. kind_byte kind ≡ byte) }
    ensures only { (kind : DrawKind) → kind_byte kind ≡ byte → result ≡ Some kind }
{
    match byte {
        0 => Some(DrawKind::Ruler),
        1 => Some(DrawKind::Sha256),
        _ => None,
    }
}

/// Where a header, and so an image, has the byte that names its version of the format.
pub fn version_at() -> u64
    ensures { result ≡ model.version_at }
{
    VERSION_AT as u64
}

/// The byte that names a version of the format.
pub fn version_byte(version: Version) -> u8
    ensures { result ≡ model.version_byte version }
{
    match version {
        Version::One => 1,
        Version::Two => 2,
    }
}

/// The version of the format that a byte names.
fn version_of(byte: u8) -> Option<Version>
    ensures found { IfSome result (λ version. model.version_byte version ≡ byte) }
    ensures only { (version : Version) → model.version_byte version ≡ byte → result ≡ Some version }
{
    match byte {
        1 => Some(Version::One),
        2 => Some(Version::Two),
        _ => None,
    }
}

/// Writes the header of these parameters: the text `HSTORE01`, the number of slots (big-endian), the
/// height, the kind of draw, the format's version, a byte 0, the seed, and zeros.
pub fn write_header(params: &Params, block: &mut Slot)
    ensures { block.new ≡ header params.now }
{
    let mut front = [0; 48];
    front[..8].copy_from_slice(&MAGIC);
    BigEndian::write_u32(&mut front[8..], params.slots());
    front[12] = params.height();
    front[13] = byte_of(params.kind());
    front[VERSION_AT] = version_byte(params.version());
    front[16..].copy_from_slice(&params.seed());
    *block = [0; BLOCK];
    block[..48].copy_from_slice(&front);
}

/// Reads a header: the parameters that it names. `None` comes exactly where the block is the header of none in range.
pub fn read_header(block: &Slot) -> Option<Params>
    ensures found { IfSome result (λ p. IsParameters p × (header p ≡ block.now)) }
    ensures only { (p : Parameters) → IsParameters p → header p ≡ block.now → result ≡ Some p }
{
    let mut slots = [0; 4];
    slots.copy_from_slice(&block[8..12]);
    let mut seed = [0; 32];
    seed.copy_from_slice(&block[16..48]);
    let kind = draw_kind_of(block[13])?;
    let version = version_of(block[VERSION_AT])?;
    let named = Params::new(u32::from_be_bytes(slots), block[12], kind, seed).ok()?;
    let params = named.with_version(version);
    // Every other byte of a header is as it is written.
    let mut written = [0; BLOCK];
    write_header(&params, &mut written);
    if written == *block {
        Some(params)
    } else {
        None
    }
}
