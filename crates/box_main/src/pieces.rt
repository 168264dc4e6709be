//! The bytes of files, piece after piece: made zero, or copied.

ghost use Rattle.std.specs.Prelude.{◌≤◌};

use std::fs::File;
use std::io::Result;
use std::os::unix::fs::FileExt;

/// How many bytes a piece has.
const PIECE: usize = 16_384;

/// How many pieces so many bytes are.
fn pieces_of(len: u64) -> u64 {
    len.div_ceil(PIECE as u64)
}

/// Where a piece begins, and how many of so many bytes are in it.
fn place_of(number: u64, len: u64) -> (u64, usize)
    ensures { result.1 ≤ PIECE }
{
    let at = number.saturating_mul(PIECE as u64);
    let left = len.saturating_sub(at);
    (at, usize::try_from(left).unwrap_or(PIECE).min(PIECE))
}

/// Makes the bytes of a piece zeros. Bytes that are zeros stay as they are, since a hole takes no room.
fn clear_piece(file: &File, at: u64, count: usize) -> Result<()>
    requires { count ≤ PIECE }
{
    let mut piece = [0; PIECE];
    file.read_exact_at(&mut piece[..count], at)?;
    if piece.iter().all(|byte| *byte == 0) {
        return Ok(());
    }
    let zeros = [0; PIECE];
    file.write_all_at(&zeros[..count], at)
}

/// Makes all bytes of a file zeros, durably. The file may be read and written.
/// An error: the system refused a call, and some bytes may be what they were.
pub fn make_zero(file: &File) -> Result<()> {
    let len = file.metadata()?.len();
    for number in 0..pieces_of(len) {
        let (at, count) = place_of(number, len);
        clear_piece(file, at, count)?;
    }
    file.sync_all()
}

/// Copies a piece of a file into the other one, but for the first byte of the file.
fn copy_piece(from: &File, to: &File, at: u64, count: usize) -> Result<()>
    requires { count ≤ PIECE }
{
    let mut piece = [0; PIECE];
    from.read_exact_at(&mut piece[..count], at)?;
    if at == 0 {
        piece[0] = 0;
    }
    to.write_all_at(&piece[..count], at)
}

/// Copies the bytes of an image into a new file, durably. The first byte is copied last, so that the file is no image
/// before it is complete.
/// An error: the system refused a call, and the file holds some of the bytes.
pub fn copy_image(from: &File, to: &File) -> Result<()> {
    let len = from.metadata()?.len();
    for number in 0..pieces_of(len) {
        let (at, count) = place_of(number, len);
        copy_piece(from, to, at, count)?;
    }
    to.sync_all()?;
    let mut first = [0];
    from.read_exact_at(&mut first, 0)?;
    to.write_all_at(&first, 0)?;
    to.sync_all()
}
