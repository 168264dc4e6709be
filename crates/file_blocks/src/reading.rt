//! Reading bytes of a file.

ghost use Rattle.std.specs.Prelude.{◌≡◌, ◌+◌, ◌-◌, ◌<◌, ◌≤◌, ◌^◌, IfOk, length, min, take, drop};
ghost use Rattle.store_model.specs.Commands.Command.{Read};
ghost use Rattle.store_model.specs.Commands.Reply.{Content};
ghost use Rattle.ordered_pairs.specs.PairsState.{IsObservable};
ghost use Rattle.tree_pairs.specs.TreeCalls.{CarriesOut, KeepsPairs};
ghost use Rattle.file_blocks.specs.FileCalls.{ReadsFileBytes, ReadsFile};
ghost use Rattle.file_blocks.specs.Refusals.{IsUnless, read_conditions, size_of};

use crate::bytes_of;
use arrayvec::ArrayVec;
use ordered_pairs::OrderedPairs;
use path_keys::Path;
use store_base::{Answer, Bytes, Fault, Value};
use store_model::Refusal;
use tree_pairs::{FILE_BLOCK, Kind, first_of, inline_in, kind_told};

/// The most bytes that one read answers.
const READ_LIMIT: u32 = Bytes::MAX_LEN as u32;

/// Reads the bytes of the file from a place on: as many as asked for, and fewer at the end.
///
/// It is refused, in this order: `Missing` where nothing stands there, `Kind` where a directory does, `Gap` where the
/// place is greater than the file's length, `Big` where more than 4,096 bytes are asked for. The pairs stay as they
/// were, also after a fault, which is handed on.
pub fn read_at<P: OrderedPairs>(
    pairs: &mut P,
    path: &Path,
    at: u32,
    len: u32,
) -> Result<Answer<Bytes>, Fault>
    ensures call { CarriesOut Content (Read path.now at len) (P.state pairs.old)
        (P.state pairs.new) result }
    ensures keeps { KeepsPairs (P.state pairs.old) (P.state pairs.new) }
    ensures hidden { IsObservable (P.state pairs.new) → IsObservable (P.state pairs.old) }
    ensures follows { P.follows pairs.old pairs.new }
{
    let first = first_of(pairs, path)?;
    match readable_len(kind_told(&first), at, len) {
        Ok(count) => Ok(Ok(read_file(pairs, path, &first, at, count as usize)?)),
        Err(refusal) => Ok(Err(refusal)),
    }
}

/// How many bytes there are to read from a place on, or why they are not read.
#[tactic(auto, unfolding(store_model::specs::Steps::first_refusal))]
fn readable_len(kind: Option<Kind>, at: u32, len: u32) -> Answer<u32>
    ensures { IsUnless (read_conditions kind at len) (min len (size_of kind - at)) result }
{
    let size = match kind {
        None => return Err(Refusal::Missing),
        Some(Kind::Directory) => return Err(Refusal::Kind),
        Some(Kind::File(size)) => size,
    };
    if at > size {
        return Err(Refusal::Gap);
    }
    if len > READ_LIMIT {
        return Err(Refusal::Big);
    }
    Ok(len.min(size - at))
}

/// Reads bytes of the file that begins with this pair: from there where it has them, and else from the blocks.
pub(crate) fn read_file<P: OrderedPairs>(
    pairs: &mut P,
    path: &Path,
    first: &Option<Value>,
    at: u32,
    count: usize,
) -> Result<Bytes, Fault>
    requires few { count ≤ Bytes.MAX_LEN }
    requires in_range { at + count < 2 ^ 32 }
    ensures call { ReadsFile path.now first.now at count (P.state pairs.old)
        (P.state pairs.new) result }
    ensures few { IfOk result (λ bytes. length bytes ≤ count) }
    ensures hidden { IsObservable (P.state pairs.new) → IsObservable (P.state pairs.old) }
    ensures follows { P.follows pairs.old pairs.new }
{
    match inline_in(first) {
        Some(bytes) => Ok(Bytes::new(piece_of(bytes, at as usize, count))),
        None => read_bytes(pairs, path, at, count),
    }
}

/// Reads bytes of the file, block after block. Where a block lacks them, which no tree's does, the answer ends there.
fn read_bytes<P: OrderedPairs>(
    pairs: &mut P,
    path: &Path,
    at: u32,
    count: usize,
) -> Result<Bytes, Fault>
    requires few { count ≤ Bytes.MAX_LEN }
    requires in_range { at + count < 2 ^ 32 }
    ensures call { ReadsFileBytes path.now at count (P.state pairs.old) (P.state pairs.new) result }
    ensures few { IfOk result (λ bytes. length bytes ≤ count) }
    ensures hidden { IsObservable (P.state pairs.new) → IsObservable (P.state pairs.old) }
    ensures follows { P.follows pairs.old pairs.new }
{
    let mut bytes = ArrayVec::<u8, { Bytes::MAX_LEN }>::new();
    while bytes.len() < count {
        let place = at + bytes.len() as u32;
        let block = pairs.get(&path.key(place / FILE_BLOCK + 1))?;
        let start = (place % FILE_BLOCK) as usize;
        let piece = piece_of(bytes_of(&block), start, count - bytes.len());
        if piece.is_empty() {
            break;
        }
        let Ok(()) = bytes.try_extend_from_slice(piece) else {
            unreachable!()
        };
    }
    Ok(Bytes::new(bytes.as_slice()))
}

/// The bytes of a block from a place on, at most so many.
fn piece_of(block: &[u8], at: usize, most: usize) -> &[u8]
    ensures { result.now ≡ take most (drop at block.now) }
{
    let rest = &block[at.min(block.len())..];
    &rest[..most.min(rest.len())]
}
