//! A dump can be loaded again.

ghost use Rattle.std.specs.Prelude.{◌≡◌, [], IfOk};
ghost use Rattle.store_model.specs.Parameters.{Parameters};
ghost use Rattle.store_model.specs.Trees.{Tree, empty_tree};
ghost use Rattle.store_model.specs.Images.{Represents};
ghost use Rattle.store_claims.specs.Machines.{bytes_of};
ghost use Rattle.store_claims.specs.Again.{CopiesImage};

use crate::dumped::a_dump_says_its_tree;
use crate::loaded::a_listing_is_loaded;
use crate::{Disk, Ended};
use dump_streams::every_dump_is_a_script;
use script_lines::{MemSink, MemSource};
use std::alloc::Global;
use store_base::NoMemory;

/// A dump, and a load of what it put out.
#[derive(Drop)]
pub struct Copied {
    /// The dump.
    pub dump: Ended,
    /// The load.
    pub load: Ended,
}

/// A source of what was written to a sink, in one piece.
fn source_of(alloc: Global, sink: &MemSink) -> Result<MemSource, NoMemory>
    ensures { IfOk result (λ source. source.left ≡ sink.now.written) }
{
    let bytes = sink.written().to_vec(alloc)?;
    Ok(MemSource::new(bytes, Vec::new(alloc), Vec::new(alloc)))
}

/// Dumps an image to an empty sink, and loads what it put out into another one, which is empty and has the same
/// parameters. Where both succeed, the two images are equal, byte for byte. `CopiesImage` says when the load of a whole
/// dump does.
///
/// `NoMemory`: there was none for the words, or for the bytes between.
pub fn a_dump_is_loaded_again(
    alloc: Global,
    disk: Disk,
    lines: MemSink,
    empty: Disk,
    sink: MemSink,
) -> Result<Copied, NoMemory>
    ensures { (t : Tree) (p : Parameters) → Represents (bytes_of disk) t p
        → Represents (bytes_of empty) empty_tree p → lines.written ≡ []
        → IfOk result (CopiesImage t p empty) }
{
    every_dump_is_a_script();
    let dump = a_dump_says_its_tree(alloc, disk, lines)?;
    let source = source_of(alloc, &dump.sink)?;
    let load = a_listing_is_loaded(alloc, empty, source, sink)?;
    Ok(Copied { dump, load })
}
