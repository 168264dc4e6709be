//! The disks, sources and sinks of the sentences, all of them in memory, and words.

ghost use Rattle.std.specs.Prelude.{◌≡◌, [], ◌∷◌, IfOk, Some, None};
ghost use Rattle.store_model.specs.Words.{Request, request_of};
ghost use Rattle.store_base.specs.Counts.{raised_by};
ghost use Rattle.disk_model.specs.FailingDisk.{first_of_all, listed};
ghost use Rattle.store_claims.specs.Machines.{meaning};

use disk_model::{FailingDisk, MemDisk};
use script_lines::{MemSink, MemSource};
use std::alloc::Global;
use store_base::NoMemory;
use store_top::{Outcome, Words};

/// A disk in memory, some of whose calls may fail.
pub type Disk = FailingDisk<MemDisk>;

/// How a call ended, with the disk, the source and the sink that it was given.
pub type Ended = Outcome<Disk, MemSource, MemSink>;

/// What a call is given.
#[derive(Drop)]
pub struct Machine {
    /// The disk.
    pub disk: Disk,
    /// Where the script comes from.
    pub source: MemSource,
    /// Where the replies go.
    pub sink: MemSink,
}

/// The disk, with no call that is to fail.
pub(crate) fn calm(alloc: Global, disk: MemDisk) -> Disk
    ensures below { result.disk ≡ disk }
    ensures calls { listed result ≡ [] }
    ensures from { first_of_all result ≡ None }
    ensures faults { (meaning result).faults ≡ raised_by disk.faults 0 }
{
    FailingDisk::new(disk, Vec::new(alloc), None)
}

/// A source that has no byte.
pub fn no_script(alloc: Global) -> MemSource
    ensures left { result.left ≡ [] }
    ensures faults { result.faults ≡ 0 }
{
    MemSource::new(Vec::new(alloc), Vec::new(alloc), Vec::new(alloc))
}

/// The command line of one word.
pub fn one_word(alloc: Global, word: &str) -> Result<Words, NoMemory>
    ensures { (request : Request) → request_of (word.now ∷ []) ≡ Some request
        → IfOk result (λ words. request_of words ≡ Some request) }
{
    let mut words = Words::new(alloc);
    words.push(word)?;
    Ok(words)
}
