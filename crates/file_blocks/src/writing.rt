//! Writing bytes of a file.

ghost use Rattle.std.specs.Prelude.{◌≡◌, ◌↔◌, ◌⊎◌, ◌+◌, ◌%◌, ◌<◌, ◌≤◌, IsTrue, true, ℕ, List, length, max};
ghost use Rattle.store_model.specs.Trees.{file_limit};
ghost use Rattle.store_model.specs.Lists.{overwrite};
ghost use Rattle.store_model.specs.Pairs as model;
ghost use Rattle.store_model.specs.Commands.Command.{Write};
ghost use Rattle.store_model.specs.Commands.Reply.{Acknowledged};
ghost use Rattle.ordered_pairs.specs.PairsState.{IsObservable, most_pairs};
ghost use Rattle.tree_pairs.specs.TreeCalls.{CarriesOutUnder, HasRoom, HasParent};
ghost use Rattle.file_blocks.specs.FileCalls.{IsFirst, PutsFileBytes, FillsBlocks};
ghost use Rattle.file_blocks.specs.Refusals.{IsUnless, write_conditions, size_of};

use crate::bytes_of;
use ordered_pairs::OrderedPairs;
use path_keys::Path;
use store_base::{Answer, Bytes, Fault, Value};
use store_model::{Refusal, Version};
use tree_pairs::{
    FILE_BLOCK, FILE_LIMIT, INLINE_START, Kind, file_value, first_of, inline_in, inline_value,
    is_inline, kind_told,
};

/// Writes the bytes into the file from a place on: they replace those that stand there, and the file grows where they
/// pass its end. An absent file is made. Where the version has the new bytes in one pair, that is put and nothing else.
/// Else a block of which no byte stays is not read, and the first pair stays where the length does.
///
/// It is refused, in this order: `Kind` where a directory stands there, `Gap` where the place is greater than the
/// file's length (0 where it is absent), `Big` where the file would pass `FILE_LIMIT` bytes. A refusal changes nothing.
/// A fault of the pairs is handed on; nothing is promised of the pairs after it.
pub fn write_at<P: OrderedPairs>(
    pairs: &mut P,
    path: &Path,
    at: u32,
    bytes: &Bytes,
    version: Version,
) -> Result<Answer<()>, Fault>
    requires parent { HasParent (P.state pairs.old) path.now }
    requires room { HasRoom (P.state pairs.old) }
    ensures call { CarriesOutUnder version (λ _. Acknowledged)
        (Write path.now at bytes.now) (P.state pairs.old)
        (P.state pairs.new) result }
    ensures hidden { IsObservable (P.state pairs.new) → IsObservable (P.state pairs.old) }
    ensures follows { P.follows pairs.old pairs.new }
{
    let first = first_of(pairs, path)?;
    let kind = kind_told(&first);
    let len = match written_len(kind, at, bytes.as_slice().len()) {
        Ok(len) => len,
        Err(refusal) => return Ok(Err(refusal)),
    };
    if is_inline(version, len) {
        pairs.put(
            path.key(0),
            inline_written(&first, at as usize, bytes.as_slice()),
        )?;
        return Ok(Ok(()));
    }
    fill_blocks(pairs, path, &first)?;
    put_bytes(pairs, path, len, at, bytes.as_slice())?;
    if kind == Some(Kind::File(len)) {
        return Ok(Ok(()));
    }
    pairs.put(path.key(0), file_value(len))?;
    Ok(Ok(()))
}

/// The length that a file has once so many bytes are put at a place, or why they are not put.
#[tactic(auto, unfolding(store_model::specs::Steps::first_refusal))]
fn written_len(kind: Option<Kind>, at: u32, count: usize) -> Answer<u32>
    requires { count ≤ Bytes.MAX_LEN }
    ensures { IsUnless (write_conditions kind at count) (max (size_of kind) (at + count)) result }
{
    let size = match kind {
        None => 0,
        Some(Kind::Directory) => return Err(Refusal::Kind),
        Some(Kind::File(size)) => size,
    };
    if at > size {
        return Err(Refusal::Gap);
    }
    let end = at as usize + count;
    if end > FILE_LIMIT as usize {
        return Err(Refusal::Big);
    }
    Ok(size.max(end as u32))
}

/// The one pair's value of a file that begins with this pair, with the piece at a place of its bytes.
fn inline_written(first: &Option<Value>, at: usize, piece: &[u8]) -> Value
    requires { at + length piece.now ≤ model.inline_limit }
    ensures { (bytes : List ℕ) → IsFirst true bytes first.now → at ≤ length bytes
        → result ≡ model.inline_value (overwrite bytes at piece.now) }
{
    match first {
        Some(value) if piece.is_empty() => Value::new(value.as_slice()),
        Some(value) => overlaid(value.as_slice(), INLINE_START + at, piece),
        None => inline_value(piece),
    }
}

/// Puts the bytes of a file that begins with this pair into its blocks, where they stand in the pair.
fn fill_blocks<P: OrderedPairs>(
    pairs: &mut P,
    path: &Path,
    first: &Option<Value>,
) -> Result<(), Fault>
    requires room { HasRoom (P.state pairs.old) }
    ensures call { FillsBlocks path.now first.now (P.state pairs.old) (P.state pairs.new) result }
    ensures hidden { IsObservable (P.state pairs.new) → IsObservable (P.state pairs.old) }
    ensures follows { P.follows pairs.old pairs.new }
{
    match inline_in(first) {
        Some(bytes) => put_bytes(pairs, path, bytes.len() as u32, 0, bytes),
        None => Ok(()),
    }
}

/// Puts the bytes into the file's blocks, block after block. Neither they nor the file go past `len`.
fn put_bytes<P: OrderedPairs>(
    pairs: &mut P,
    path: &Path,
    len: u32,
    at: u32,
    bytes: &[u8],
) -> Result<(), Fault>
    requires few { length bytes.now ≤ Bytes.MAX_LEN }
    requires fits { at + length bytes.now ≤ file_limit }
    requires ends { at + length bytes.now ≤ len }
    requires room { IsObservable (P.state pairs.old)
        → length (P.state pairs.old).pairs + length bytes.now ≤ most_pairs }
    ensures call { PutsFileBytes path.now len at bytes.now (P.state pairs.old)
        (P.state pairs.new) result }
    ensures hidden { IsObservable (P.state pairs.new) → IsObservable (P.state pairs.old) }
    ensures follows { P.follows pairs.old pairs.new }
{
    let mut done = 0;
    while done < bytes.len() {
        let place = at + done as u32;
        let room = (FILE_BLOCK - place % FILE_BLOCK) as usize;
        let end = bytes.len().min(done + room);
        put_piece(pairs, path, len, place, &bytes[done..end])?;
        done = end;
    }
    Ok(())
}

/// Puts bytes into one block of the file, which does not go past `len`. The block is read where a byte of it may stay.
fn put_piece<P: OrderedPairs>(
    pairs: &mut P,
    path: &Path,
    len: u32,
    at: u32,
    piece: &[u8],
) -> Result<(), Fault>
    requires some { 1 ≤ length piece.now }
    requires within { at % FILE_BLOCK + length piece.now ≤ FILE_BLOCK }
    requires room { IsObservable (P.state pairs.old)
        → length (P.state pairs.old).pairs < most_pairs }
    ensures call { PutsFileBytes path.now len at piece.now (P.state pairs.old)
        (P.state pairs.new) result }
    ensures hidden { IsObservable (P.state pairs.new) → IsObservable (P.state pairs.old) }
    ensures follows { P.follows pairs.old pairs.new }
{
    let key = path.key(at / FILE_BLOCK + 1);
    if leaves_none(len, at, piece.len()) {
        return pairs.put(key, Value::new(piece));
    }
    let old = pairs.get(&key)?;
    let value = overlaid(bytes_of(&old), (at % FILE_BLOCK) as usize, piece);
    pairs.put(key, value)
}

/// Whether so many bytes at a place leave no byte of their block, in a file that does not go past `len`: they begin it,
/// and fill it or reach the file's end.
fn leaves_none(len: u32, at: u32, count: usize) -> bool
    requires { count ≤ FILE_BLOCK }
    ensures { IsTrue result
        ↔ ((at % FILE_BLOCK ≡ 0) × ((count ≡ FILE_BLOCK) ⊎ (len ≤ at + count))) }
{
    at % FILE_BLOCK == 0 && (count == FILE_BLOCK as usize || len as usize <= at as usize + count)
}

/// A block with the piece at a place in it, over what is there and past the end. Zeros fill a gap before it.
fn overlaid(old: &[u8], at: usize, piece: &[u8]) -> Value
    requires old { length old.now ≤ Value.MAX_LEN }
    requires some { 1 ≤ length piece.now }
    requires within { at + length piece.now ≤ Value.MAX_LEN }
    ensures { at ≤ length old.now → result ≡ overwrite old.now at piece.now }
{
    let mut block = [0; Value::MAX_LEN];
    block[..old.len()].copy_from_slice(old);
    let end = at + piece.len();
    block[at..end].copy_from_slice(piece);
    Value::new(&block[..old.len().max(end)])
}
