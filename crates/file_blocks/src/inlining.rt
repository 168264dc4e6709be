//! Short files, whose bytes go from a block into the first pair.

ghost use Rattle.std.specs.Prelude.{◌≡◌, ◌≤◌, ◌↔◌, IsTrue, length, take};
ghost use Rattle.store_model.specs.Pairs.{inline_limit};
ghost use Rattle.tree_pairs.specs.TreeCalls.{HasRoom};
ghost use Rattle.file_blocks.specs.UpgradeCalls.{InlinesShortFiles, FindsEntry, IsEntryOf, InlinesFile};
ghost use Rattle.file_blocks.specs.UpgradeCalls.{IsShortInBlocks, block_bytes};

use ordered_pairs::OrderedPairs;
use path_keys::Path;
use store_base::{Fault, Key, Value};
use store_model::Version;
use tree_pairs::{INLINE_LIMIT, Kind, inline_value, is_inline, kind_under};

/// Changes the pairs of a tree to those that the same tree has under version 2 of the format.
///
/// The first pair of each file of at most 200 bytes gets the bytes, and their block is taken away. Empty files have no
/// block, and their first pair changes too. No other pair changes and no key is added, so an upgrade is never full. A
/// list that has version 2's pairs already is only read. The walk goes from entry to entry: a longer file costs one
/// search, however many blocks it has, and a path's attributes cost none.
///
/// It takes no memory of its own. The list takes what it needs for the pairs that change: where it lies in pages that
/// are staged, that is a page for each page that changes.
///
/// A fault of the pairs is handed on; nothing is promised of the pairs after it.
pub fn inline_short_files<P: OrderedPairs>(pairs: &mut P) -> Result<(), Fault>
    requires room { HasRoom (P.state pairs.old) }
    ensures call { InlinesShortFiles (P.state pairs.old) (P.state pairs.new) result }
    ensures follows { P.follows pairs.old pairs.new }
{
    let mut last = Path::root();
    for _ in 0..u32::MAX {
        let Some(entry) = next_entry(pairs, &last)? else {
            break;
        };
        inline_file(pairs, &entry)?;
        last = entry.path;
    }
    Ok(())
}

/// What stands at a path, as the walk meets it.
#[derive(Debug, Drop)]
struct Entry {
    /// The path at which it stands.
    path: Path,
    /// The value of its first pair.
    first: Value,
}

/// The first entry behind a path. The search passes all blocks of that path, and its attributes. The pairs stay as they
/// were, also after a fault, which is handed on.
fn next_entry<P: OrderedPairs>(pairs: &mut P, last: &Path) -> Result<Option<Entry>, Fault>
    ensures call { FindsEntry last.now (P.state pairs.old) (P.state pairs.new) result }
    ensures follows { P.follows pairs.old pairs.new }
{
    match pairs.next_from(&last.below())? {
        Some(pair) => Ok(entry_of(pair)),
        None => Ok(None),
    }
}

/// The entry that has this first pair; nothing where the pair is no first one.
fn entry_of(pair: (Key, Value)) -> Option<Entry>
    ensures { IsEntryOf pair result }
{
    let (key, first) = pair;
    match Path::of_key(&key) {
        Some((path, 0)) => Some(Entry { path, first }),
        _ => None,
    }
}

/// Puts the bytes of a file into its first pair, where they are few and stand in a block. What else stands at the path
/// stays as it is. A fault of the pairs is handed on; nothing is promised of the pairs after it.
fn inline_file<P: OrderedPairs>(pairs: &mut P, entry: &Entry) -> Result<(), Fault>
    requires room { HasRoom (P.state pairs.old) }
    ensures call { InlinesFile entry.now (P.state pairs.old) (P.state pairs.new) result }
    ensures follows { P.follows pairs.old pairs.new }
{
    if !is_short_in_blocks(&entry.first) {
        return Ok(());
    }
    let block = pairs.take(&entry.path.key(1))?;
    pairs.put(entry.path.key(0), inline_value(short_bytes(&block)))
}

/// Whether the first pair tells the length of a short file: the file's bytes, if it has any, stand in a block.
fn is_short_in_blocks(first: &Value) -> bool
    ensures { IsTrue result ↔ IsShortInBlocks first.now }
{
    match kind_under(first.as_slice(), Version::One) {
        Some(Kind::File(len)) => is_inline(Version::Two, len),
        _ => false,
    }
}

/// The bytes of a short file, by its only block: none where it has no block.
fn short_bytes(block: &Option<Value>) -> &[u8]
    ensures value { result.now ≡ take inline_limit (block_bytes block.now) }
    ensures fits { length result.now ≤ inline_limit }
{
    match block {
        Some(value) => {
            let bytes = value.as_slice();
            &bytes[..bytes.len().min(INLINE_LIMIT as usize)]
        }
        None => &[],
    }
}
