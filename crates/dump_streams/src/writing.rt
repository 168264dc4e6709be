//! Writes the listing of a stream.

ghost use Rattle.store_model.specs.Trees.{empty_tree};
ghost use Rattle.dump_streams.specs.Draining.{WritesDump};

use crate::draining::{DrainFault, drain};
use crate::lines::LineTaker;
use crate::stream::DumpStream;
use script_lines::Sink;

/// Writes the listing of a stream from which no step came: the lines of its dump, and no other bytes. The sink is
/// given back.
/// `Stream`: the stream ended before its dump did, and the lines of what came of it were written. `Taker`: the sink
/// failed. The lines before the one at which it did were written, and of that line a part may be.
pub fn write_dump<S: DumpStream, W: Sink>(stream: &mut S, sink: W) -> (W, Result<(), DrainFault>)
    ensures written { S.came stream.old empty_tree
        → WritesDump S.came S.whole S.fails W.state stream.new sink result.0 result.1 }
    ensures keeps { (start : S) → S.keeps start stream.old → S.keeps start stream.new }
{
    let mut taker = LineTaker::new(sink);
    let drained = drain(stream, &mut taker);
    (taker.into_sink(), drained)
}
