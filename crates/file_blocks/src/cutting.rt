//! Cutting a file short.

ghost use Rattle.std.specs.Prelude.{◌≡◌, ◌+◌, ◌-◌, ◌*◌, ◌/◌, ◌≤◌, length, take, OnOk};
ghost use Rattle.ordered_pairs.specs.PairsState.{IsObservable};
ghost use Rattle.store_model.specs.Pairs.{inline_limit};
ghost use Rattle.store_model.specs.Commands.Command.{Cut};
ghost use Rattle.store_model.specs.Commands.Reply.{Acknowledged};
ghost use Rattle.tree_pairs.specs.TreeCalls.{CarriesOutUnder, HasRoom};
ghost use Rattle.file_blocks.specs.FileCalls.{CutsBytes, DropsBlocks, ReadsFront};
ghost use Rattle.file_blocks.specs.Refusals.{IsUnless, cut_conditions, size_of};

use crate::reading::read_file;
use ordered_pairs::OrderedPairs;
use path_keys::Path;
use store_base::{Answer, Fault, Value};
use store_model::{Refusal, Version};
use tree_pairs::{
    FILE_BLOCK, Kind, file_value, first_of, inline_in, inline_value, is_inline, kind_told,
};

/// Cuts the file to its first bytes, so many. Where the version has them in one pair, the file's blocks are taken
/// away.
///
/// It is refused, in this order: `Missing` where nothing stands there, `Kind` where a directory does, `Gap` where the
/// file has fewer bytes. A refusal changes nothing. A fault of the pairs is handed on; nothing is promised of the pairs
/// after it.
pub fn cut<P: OrderedPairs>(
    pairs: &mut P,
    path: &Path,
    len: u32,
    version: Version,
) -> Result<Answer<()>, Fault>
    requires room { HasRoom (P.state pairs.old) }
    ensures call { CarriesOutUnder version (λ _. Acknowledged)
        (Cut path.now len) (P.state pairs.old)
        (P.state pairs.new) result }
    ensures hidden { IsObservable (P.state pairs.new) → IsObservable (P.state pairs.old) }
    ensures follows { P.follows pairs.old pairs.new }
{
    let first = first_of(pairs, path)?;
    let size = match size_to_cut(kind_told(&first), len) {
        Ok(size) => size,
        Err(refusal) => return Ok(Err(refusal)),
    };
    if size == len {
        return Ok(Ok(()));
    }
    if is_inline(version, len) {
        let front = inline_front(pairs, path, &first, len)?;
        drop_file(pairs, path, &first, size)?;
        pairs.put(path.key(0), front)?;
        return Ok(Ok(()));
    }
    cut_bytes(pairs, path, size, len)?;
    pairs.put(path.key(0), file_value(len))?;
    Ok(Ok(()))
}

/// The length of a file that has so many bytes, or why it is not cut to them.
#[tactic(auto, unfolding(store_model::specs::Steps::first_refusal))]
fn size_to_cut(kind: Option<Kind>, len: u32) -> Answer<u32>
    ensures { IsUnless (cut_conditions kind len) (size_of kind) result }
{
    let size = match kind {
        None => return Err(Refusal::Missing),
        Some(Kind::Directory) => return Err(Refusal::Kind),
        Some(Kind::File(size)) => size,
    };
    if len > size {
        return Err(Refusal::Gap);
    }
    Ok(size)
}

/// The one pair's value of the first bytes, so many, of the file that begins with this pair.
// Joined to `cut`, its bytes would be cleared also where the file stays in blocks.
#[inline(never)]
fn inline_front<P: OrderedPairs>(
    pairs: &mut P,
    path: &Path,
    first: &Option<Value>,
    len: u32,
) -> Result<Value, Fault>
    requires short { len ≤ inline_limit }
    ensures call { ReadsFront path.now first.now len (P.state pairs.old)
        (P.state pairs.new) result }
    ensures hidden { IsObservable (P.state pairs.new) → IsObservable (P.state pairs.old) }
    ensures follows { P.follows pairs.old pairs.new }
{
    let bytes = read_file(pairs, path, first, 0, len as usize)?;
    Ok(inline_value(bytes.as_slice()))
}

/// Takes the blocks away of the file of so many bytes that begins with this pair, where it has blocks.
fn drop_file<P: OrderedPairs>(
    pairs: &mut P,
    path: &Path,
    first: &Option<Value>,
    size: u32,
) -> Result<(), Fault>
    requires room { HasRoom (P.state pairs.old) }
    ensures call { DropsBlocks path.now first.now size (P.state pairs.old)
        (P.state pairs.new) result }
    ensures hidden { IsObservable (P.state pairs.new) → IsObservable (P.state pairs.old) }
    ensures follows { P.follows pairs.old pairs.new }
{
    match inline_in(first) {
        Some(_) => Ok(()),
        None => cut_bytes(pairs, path, size, 0),
    }
}

/// Takes the file's bytes past the first ones away, from its blocks alone.
fn cut_bytes<P: OrderedPairs>(pairs: &mut P, path: &Path, size: u32, len: u32) -> Result<(), Fault>
    requires shorter { len ≤ size }
    requires room { HasRoom (P.state pairs.old) }
    ensures call { CutsBytes path.now size len (P.state pairs.old) (P.state pairs.new) result }
    ensures fewer { IsObservable (P.state pairs.old)
        → OnOk result (length (P.state pairs.new).pairs ≤ length (P.state pairs.old).pairs + 1) }
    ensures hidden { IsObservable (P.state pairs.new) → IsObservable (P.state pairs.old) }
    ensures follows { P.follows pairs.old pairs.new }
{
    drop_blocks(
        pairs,
        path,
        size.div_ceil(FILE_BLOCK),
        len.div_ceil(FILE_BLOCK),
    )?;
    cut_block(pairs, path, len)
}

/// Takes the blocks behind the first ones away, so many, the last one first.
fn drop_blocks<P: OrderedPairs>(
    pairs: &mut P,
    path: &Path,
    blocks: u32,
    kept: u32,
) -> Result<(), Fault>
    requires { kept ≤ blocks }
    ensures call { CutsBytes path.now (FILE_BLOCK * blocks) (FILE_BLOCK * kept) (P.state pairs.old)
        (P.state pairs.new) result }
    ensures fewer { IsObservable (P.state pairs.old)
        → OnOk result (length (P.state pairs.new).pairs ≤ length (P.state pairs.old).pairs) }
    ensures hidden { IsObservable (P.state pairs.new) → IsObservable (P.state pairs.old) }
    ensures follows { P.follows pairs.old pairs.new }
{
    let mut left = blocks;
    while left > kept {
        pairs.take(&path.key(left))?;
        left -= 1;
    }
    Ok(())
}

/// Cuts the last block to what it holds of the first bytes, so many.
fn cut_block<P: OrderedPairs>(pairs: &mut P, path: &Path, len: u32) -> Result<(), Fault>
    requires room { HasRoom (P.state pairs.old) }
    ensures call { CutsBytes path.now (FILE_BLOCK * ((len + (FILE_BLOCK - 1)) / FILE_BLOCK))
        len (P.state pairs.old)
        (P.state pairs.new) result }
    ensures fewer { IsObservable (P.state pairs.old)
        → OnOk result (length (P.state pairs.new).pairs ≤ length (P.state pairs.old).pairs + 1) }
    ensures hidden { IsObservable (P.state pairs.new) → IsObservable (P.state pairs.old) }
    ensures follows { P.follows pairs.old pairs.new }
{
    let rest = (len % FILE_BLOCK) as usize;
    if rest == 0 {
        return Ok(());
    }
    let key = path.key(len / FILE_BLOCK + 1);
    match pairs.get(&key)? {
        Some(last) => pairs.put(key, front_of(last.as_slice(), rest)),
        None => Ok(()),
    }
}

/// The first bytes of a block as its value.
fn front_of(block: &[u8], len: usize) -> Value
    requires some { 1 ≤ len }
    requires block { 1 ≤ length block.now }
    requires fits { length block.now ≤ Value.MAX_LEN }
    ensures { result ≡ take len block.now }
{
    Value::new(&block[..len.min(block.len())])
}
