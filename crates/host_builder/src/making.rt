//! Makes on the host what a stream of a dump gives.

ghost use Rattle.std.specs.Prelude.{◌≡◌, false, Err};
ghost use Rattle.host_builder.specs.Takes.{TakesAway};
ghost use Rattle.host_builder.specs.Views.{MakesView};
ghost use Rattle.host_builder.specs.Faults.{build_fault};

use crate::attribute::Wanted;
use crate::builder::Builder;
use crate::plan::Standing;
use crate::taker::BuildTaker;
use crate::undoing::take_away;
use dump_streams::{DrainFault, DumpStream, StreamFault, TakerFault, drain};
use path_keys::Path;
use std::alloc::Global;
use thiserror::Error;

/// Why a tree was not made.
#[derive(Clone, Copy, Debug, Error)]
pub enum BuildFault {
    /// The stream ended before its dump did.
    #[error(transparent)]
    Stream(StreamFault),
    /// The builder failed, which told how, or memory ran out.
    #[error(transparent)]
    Builder(TakerFault),
    /// The path of an entry has none on the host. Nothing was made of it, and the builder was told of it.
    #[error("a path has none on the host")]
    NoName(Path),
}

/// What is handed back of a builder by which a tree was to be made, and how that ended.
pub struct Built<B: Builder> {
    /// The builder.
    pub builder: B,
    /// How much of what was made stays, though it was to be taken away; the builder told of each.
    pub stays: u64,
    /// Whether it was made.
    pub done: Result<(), BuildFault>,
}

/// Has all steps of a stream carried out, from which none came, by a builder that made no link. The host is to have so
/// much of them: what else the tree has, the builder is told of. After a fault all that was made is taken away again,
/// what was made last first.
pub fn build<S: DumpStream, B: Builder>(
    alloc: Global,
    stream: &mut S,
    builder: B,
    wanted: Wanted,
) -> Built<B>
    requires { (B.state builder).has_links ≡ false }
    ensures makes { MakesView S.came S.whole S.fails stream.old stream.new
        (B.state builder) (B.state result.builder) wanted result.stays result.done }
    ensures keeps { (start : S) → S.keeps start stream.old → S.keeps start stream.new }
{
    let mut taker = BuildTaker::new(alloc, builder, wanted);
    if let Err(fault) = drain(stream, &mut taker) {
        let (builder, stands, obstacle) = taker.into_parts();
        return unmade(builder, stands, fault_of(fault, obstacle));
    }
    let (builder, stands, finished) = taker.finish();
    match finished {
        Ok(()) => Built {
            builder,
            stays: 0,
            done: Ok(()),
        },
        Err(fault) => unmade(builder, stands, BuildFault::Builder(fault)),
    }
}

/// Takes away what was made, for this fault.
fn unmade<B: Builder>(mut builder: B, stands: Vec<Standing>, fault: BuildFault) -> Built<B>
    ensures takes { TakesAway (B.state builder) (B.state result.builder) stands.items
        result.stays }
    ensures done { result.done ≡ Err fault }
{
    let stays = take_away(&mut builder, stands);
    Built {
        builder,
        stays,
        done: Err(fault),
    }
}

/// Why a tree was not made whose steps were not all taken, where this was an obstacle, or nothing was.
fn fault_of(fault: DrainFault, obstacle: Option<Path>) -> BuildFault
    ensures { result ≡ build_fault fault obstacle }
{
    match (fault, obstacle) {
        (DrainFault::Stream(fault), _) => BuildFault::Stream(fault),
        (DrainFault::Taker(_), Some(path)) => BuildFault::NoName(path),
        (DrainFault::Taker(fault), None) => BuildFault::Builder(fault),
    }
}
