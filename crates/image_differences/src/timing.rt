//! Whether an image has times, and so whether times are compared.

ghost use Rattle.std.specs.Prelude.{◌≡◌, false, OnOk, IfOk, IfErr};
ghost use Rattle.store_model.specs.Trees.{empty_tree};
ghost use Rattle.disk_model.specs.DiskState.{IsObservable};
ghost use Rattle.image_reads.specs.StoreReads.{IsOnlyRead};
ghost use Rattle.image_differences.specs.Compared.{IsStoreBlamed};
ghost use Rattle.image_differences.specs.Timing as model;
ghost use Rattle.image_differences.specs.Timing.{TellsTimes, EndsTimes, GoesOn, has_time, wanted_in};

use disk_model::Disk;
use dump_streams::{DumpStep, DumpStream, Step, StreamFault};
use host_builder::{HostAttribute, Wanted, attribute_in};
use image_reads::{ReadFault, store_fault};
use store_core::{ApplyFault, Store};
use store_stream::StoreStream;

/// Whether times are compared.
#[derive(Clone, Copy, Debug, PartialEq, Eq)]
pub enum Times {
    /// As `Wanted` says.
    AsWanted,
    /// Where a path of the image has a time, and only there, whatever `Wanted` says.
    AsInImage,
}

/// What is wanted of the image of a store, with times as said. The store is read up to its first time where `times`
/// asks for it.
pub(crate) fn settle_times<R: Disk>(
    store: Store<R>,
    wanted: Wanted,
    times: Times,
) -> (Store<R>, Result<Wanted, ReadFault>)
    requires runs { store.is_stopped ≡ false }
    ensures read { IsOnlyRead (R.state store.disk) (R.state result.0.disk) }
    ensures goes_on { OnOk result.1 (GoesOn R.state store result.0) }
    ensures settled { IsObservable (R.state store.disk)
        → IfOk result.1 (λ settled. settled ≡ wanted_in times wanted store.tree) }
    ensures failed { IfErr result.1 (IsStoreBlamed (R.state store.disk) (R.state result.0.disk)) }
{
    match times {
        Times::AsWanted => (store, Ok(wanted)),
        Times::AsInImage => {
            let (store, told) = store_times(store);
            (store, wanted_told(wanted, told))
        }
    }
}

/// Whether a path of a store's tree has a time.
fn store_times<R: Disk>(store: Store<R>) -> (Store<R>, Result<bool, ReadFault>)
    requires runs { store.is_stopped ≡ false }
    ensures read { IsOnlyRead (R.state store.disk) (R.state result.0.disk) }
    ensures goes_on { OnOk result.1 (GoesOn R.state store result.0) }
    ensures told { IsObservable (R.state store.disk)
        → IfOk result.1 (λ has. has ≡ has_time store.tree) }
    ensures failed { IfErr result.1 (IsStoreBlamed (R.state store.disk) (R.state result.0.disk)) }
{
    let mut stream = StoreStream::new(store);
    let has = has_times(&mut stream);
    let told = times_told(has, stream.fault());
    (stream.into_store(), told)
}

/// What is wanted of an image of which this was told.
fn wanted_told(wanted: Wanted, told: Result<bool, ReadFault>) -> Result<Wanted, ReadFault>
    ensures { result ≡ model.wanted_told wanted told }
{
    match told {
        Ok(mtime) => Ok(Wanted { mtime, ..wanted }),
        Err(fault) => Err(fault),
    }
}

/// Whether an image has a time whose stream told this, and whose store told this fault.
fn times_told(has: Result<bool, StreamFault>, fault: Option<ApplyFault>) -> Result<bool, ReadFault>
    ensures { result ≡ model.times_told has fault }
{
    match has {
        Ok(has) => Ok(has),
        Err(_) => Err(store_fault(fault)),
    }
}

/// Whether a path of a stream's tree has an attribute that says a time. It asks the stream for no step behind the first
/// that does. The faults are the stream's, and `TooLong` also where it gave 2^64 - 1 steps.
fn has_times<S: DumpStream>(stream: &mut S) -> Result<bool, StreamFault>
    ensures tells { S.came stream.old empty_tree
        → IfOk result (TellsTimes (S.came stream.new) (S.whole stream.new)) }
    ensures failed { S.came stream.old empty_tree
        → IfErr result (EndsTimes S.came S.fails stream.new) }
    ensures keeps { (start : S) → S.keeps start stream.old → S.keeps start stream.new }
{
    let mut step = DumpStep::new();
    for _ in 0..u64::MAX {
        if !stream.next(&mut step)? {
            return Ok(false);
        }
        if sets_time(&step) {
            return Ok(true);
        }
    }
    Err(StreamFault::TooLong)
}

/// Whether a step sets an attribute that says a time.
fn sets_time(step: &DumpStep) -> bool
    ensures { result ≡ model.sets_time step.now }
{
    match step.parts() {
        Step::Set(_, name, bytes) => is_time(attribute_in(name.as_bytes(), bytes.as_slice())),
        Step::Make(_) | Step::Write(_, _, _) => false,
    }
}

/// Whether an attribute says a time.
fn is_time(told: Option<HostAttribute>) -> bool
    ensures { result ≡ model.is_time told }
{
    match told {
        Some(HostAttribute::Time(_)) => true,
        Some(HostAttribute::Executes | HostAttribute::Link) | None => false,
    }
}
