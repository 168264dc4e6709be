//! A load is a run of its lines.

ghost use Rattle.std.specs.Prelude.{◌≡◌, IfOk};
ghost use Rattle.store_model.specs.Parameters.{Parameters};
ghost use Rattle.store_model.specs.Trees.{empty_tree};
ghost use Rattle.store_model.specs.Images.{Represents};
ghost use Rattle.store_claims.specs.Machines.{bytes_of};
ghost use Rattle.store_claims.specs.Same.{LoadsAsRun};

use crate::loaded::a_listing_is_loaded;
use crate::{Ended, Machine, a_script_is_answered};
use dump_streams::every_listing_runs;
use std::alloc::Global;
use store_base::NoMemory;

/// A load, and a run of the same lines.
#[derive(Drop)]
pub struct LoadAndRun {
    /// The load.
    pub load: Ended,
    /// The run.
    pub run: Ended,
}

/// Loads a script into an empty image, and runs the same script on another one of the same parameters. Where both
/// succeed, the run answered each line with `ok`, and the two images are equal, byte for byte.
///
/// `NoMemory`: there was none for the words.
pub fn a_load_is_a_run(alloc: Global, loaded: Machine, run: Machine) -> Result<LoadAndRun, NoMemory>
    ensures { (p : Parameters) → Represents (bytes_of loaded.disk) empty_tree p
        → Represents (bytes_of run.disk) empty_tree p → run.source.left ≡ loaded.source.left
        → IfOk result (LoadsAsRun loaded.source.left p run.sink) }
{
    every_listing_runs();
    let load = a_listing_is_loaded(alloc, loaded.disk, loaded.source, loaded.sink)?;
    let run = a_script_is_answered(alloc, run.disk, run.source, run.sink)?;
    Ok(LoadAndRun { load, run })
}
