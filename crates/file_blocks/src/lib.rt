//! The bytes of files, over any list of pairs that holds a tree. Start at `read_at`, `write_at` and `cut`, and for the
//! upgrade of a tree's files to version 2 of the format at `inline_short_files`.
//!
//! A file has a first pair, which tells its length, and a pair for each 256 bytes, numbered from 1. Under version 2 a
//! short file has its bytes in its first pair, and no other. Each call on a file reads and changes the first pair and
//! those of the blocks that it touches, and no others. An upgrade carries out no command: the tree stays, and its pairs
//! change.
#![tactic(auto)]

mod cutting;
mod inlining;
mod reading;
mod writing;

ghost use Rattle.std.specs.Prelude.{◌≡◌};
ghost use Rattle.file_blocks.specs.FileCalls.{block_bytes};

pub use cutting::cut;
pub use inlining::inline_short_files;
pub use reading::read_at;
use store_base::Value;
pub use writing::write_at;

/// The bytes of a block: none where there is no pair.
fn bytes_of(block: &Option<Value>) -> &[u8]
    ensures { result.now ≡ block_bytes block.now }
{
    match block {
        Some(value) => value.as_slice(),
        None => &[],
    }
}
