//! A dump says the tree of its image.

ghost use Rattle.std.specs.Prelude.{IfOk};
ghost use Rattle.store_model.specs.Parameters.{Parameters};
ghost use Rattle.store_model.specs.Trees.{Tree};
ghost use Rattle.store_model.specs.Images.{Represents};
ghost use Rattle.script_lines.specs.Memory.{sink_state};
ghost use Rattle.image_subcommands.specs.Statuses.{Subcommand as words, IsEndOf};
ghost use Rattle.listing_subcommands.specs.DumpCall.{DumpsTree};
ghost use Rattle.store_claims.specs.Machines.{bytes_of, meaning};
ghost use Rattle.store_claims.specs.Nothing.{HasNoTree, DoesNothing};

use crate::{Disk, Ended, no_script, one_word};
use script_lines::MemSink;
use std::alloc::Global;
use store_base::NoMemory;
use store_top::top;

/// Puts out the dump of an image. With status 0 just the lines of the commands that make its tree were written, and
/// with every other status a front of them. The image is as it was, but that a crash before may have been recovered
/// from: the writes and syncs are those of opening it. It ends with 0, 4, 5 or 9.
///
/// Of bytes that are the image of no tree nothing is put out or written, and a crash leaves what it might have left
/// before; the dump ends with 7 or 8, by what the bytes are, unless the disk fails or memory is short.
///
/// `NoMemory`: nothing was called.
pub fn a_dump_says_its_tree(alloc: Global, disk: Disk, sink: MemSink) -> Result<Ended, NoMemory>
    ensures says { (t : Tree) (p : Parameters) → Represents (bytes_of disk) t p
        → IfOk result (λ after. DumpsTree t p after.status (meaning disk) (meaning after.disk)
        (sink_state sink) (sink_state after.sink)) }
    ensures ends { (t : Tree) (p : Parameters) → Represents (bytes_of disk) t p
        → IfOk result (λ after. IsEndOf words.Dump after.status) }
    ensures nothing { HasNoTree (bytes_of disk)
        → IfOk result (λ after. DoesNothing disk after.source sink after) }
{
    let words = one_word(alloc, "dump")?;
    Ok(top(alloc, &words, disk, no_script(alloc), sink))
}
