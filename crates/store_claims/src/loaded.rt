//! A listing is loaded.

ghost use Rattle.std.specs.Prelude.{IfOk};
ghost use Rattle.store_model.specs.Parameters.{Parameters};
ghost use Rattle.store_model.specs.Trees.{Tree};
ghost use Rattle.store_model.specs.Images.{Represents};
ghost use Rattle.script_lines.specs.Memory.{source_state, sink_state};
ghost use Rattle.image_subcommands.specs.Outside.{outside_of};
ghost use Rattle.listing_subcommands.specs.LoadCall.{LoadsFrom, KeepsLoad};
ghost use Rattle.store_claims.specs.Machines.{bytes_of, meaning};
ghost use Rattle.store_claims.specs.Nothing.{HasNoTree, DoesNothing};

use crate::{Disk, Ended, one_word};
use script_lines::{MemSink, MemSource};
use std::alloc::Global;
use store_base::NoMemory;
use store_top::top;

/// Loads a listing into an image. Where that succeeds the lines are those of the dump of a tree that could be loaded
/// (`CanBeLoaded`), and the image is that of this tree, by one commit. `TellsLoad` says exactly where each status comes
/// that refuses the image or the listing. After these the image is that of the tree that it had. However the load ends,
/// and whenever a crash comes, all of the tree is loaded or nothing of it.
///
/// On bytes that are the image of no tree it does nothing, as a run, and takes nothing either.
///
/// `NoMemory`: nothing was called.
pub fn a_listing_is_loaded(
    alloc: Global,
    disk: Disk,
    source: MemSource,
    sink: MemSink,
) -> Result<Ended, NoMemory>
    ensures loads { (u : Tree) (p : Parameters) → Represents (bytes_of disk) u p
        → IfOk result (LoadsFrom meaning source_state sink_state u p source.left
        (outside_of disk source sink)) }
    ensures keeps { IfOk result
        (KeepsLoad meaning source_state sink_state (outside_of disk source sink)) }
    ensures nothing { HasNoTree (bytes_of disk) → IfOk result (DoesNothing disk source sink) }
{
    let words = one_word(alloc, "load")?;
    Ok(top(alloc, &words, disk, source, sink))
}
